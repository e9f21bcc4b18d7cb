// What is gathered of the list of positions and the zones for the slots of a desk.
#![tactic(auto)]

ghost use Rattle.std.specs.Prelude.{◌≡◌, ◌≤◌, length};
ghost use Rattle.words.specs.Words.{words_of};
ghost use Rattle.numbers.specs.Limits.{max_streams};
ghost use Rattle.numbers.specs.Slots.{filling, playing};
ghost use Rattle.plan.specs.Disk.{Zoned};
ghost use Rattle.desk.specs.Desk.{zeros};
ghost use Rattle.desk_layout.specs.Layout.{desk_in, desk_size};
ghost use Rattle.gather.specs.Gather.{Spot, Reach, Reached, Whole, Here, NextFound, Collected, gathered};

use desk_columns::{entry_of, film_starts, next_in, zone_sizes, zone_times};
use numbers::slots::{FILLING, PLAYING};
use words::word_at;
use zones::time_at;

// Time and position of a block; of one that takes two visits the time of both, and the position of the other.
#[derive(Clone, Copy)]
pub struct Block {
    pub time: u32,
    pub position: u32,
    pub other: u32,
}

// What the list of positions has at entry j, and the time of its zone.
fn spot_at<'a>(sizes: &'a [u32; 64], times: &'a [u32; 64], positions: &[u8], j: usize) -> Block
    requires { (Zoned sizes.now) × (Spot sizes.now times.now positions.now j) }
    ensures { Whole sizes.now times.now positions.now j result }
{
    let position = word_at(positions, j);
    Block {
        time: time_at(sizes, times, position),
        position,
        other: 0,
    }
}

// A block by its number through the lists; it takes so many visits, one or two.
fn block_at<'a>(
    sizes: &'a [u32; 64],
    times: &'a [u32; 64],
    positions: &[u8],
    visits: u32,
    block: u32,
) -> Block
    requires { (Zoned sizes.now) × (Reach sizes.now times.now positions.now visits block) }
    ensures { Here sizes.now times.now positions.now visits block result }
{
    if visits == 1 {
        return spot_at(sizes, times, positions, block as usize);
    }
    let j = block as usize + block as usize;
    let first = spot_at(sizes, times, positions, j);
    let second = spot_at(sizes, times, positions, j + 1);
    Block {
        time: first.time + second.time,
        position: first.position,
        other: second.position,
    }
}

// The next block of a slot that is filling or playing, by its number through the lists; all zero for another kind.
fn next_block<'a>(
    sizes: &'a [u32; 64],
    times: &'a [u32; 64],
    positions: &[u8],
    visits: u32,
    kind: u32,
    number: u32,
) -> Block
    requires { (Zoned sizes.now) × (filling ≤ kind → kind ≤ playing → Reach sizes.now times.now positions.now visits number) }
    ensures { NextFound sizes.now times.now positions.now visits kind number result }
{
    match kind {
        FILLING => block_at(sizes, times, positions, visits, number),
        PLAYING => block_at(sizes, times, positions, visits, number),
        _ => Block {
            time: 0,
            position: 0,
            other: 0,
        },
    }
}

// Time and positions of the next block of each of the first `streams` slots of a desk that fill or play, by these kinds, go into three arrays
// that are all zero; nothing for the others. A block takes so many visits.
pub fn gather<'a>(
    desk: &[u8],
    kinds: &[u32; 256],
    positions: &[u8],
    streams: usize,
    visits: u32,
    found: &'a mut [u32; 256],
    spots: &'a mut [u32; 256],
    others: &'a mut [u32; 256],
)
    requires { (desk_size ≤ length desk.now) × (streams ≤ max_streams) × (Reached (desk_in (words_of desk.now)) positions.now visits kinds.now streams)
        × (found.old ≡ zeros) × (spots.old ≡ zeros) × (others.old ≡ zeros) }
    ensures { Collected (desk_in (words_of desk.now)) positions.now visits kinds.now streams
        (gathered found.new spots.new others.new) }
{
    let sizes = zone_sizes(desk);
    let times = zone_times(desk);
    let starts = film_starts(desk);
    for i in 0..streams {
        let number = entry_of(&starts, next_in(desk, i));
        let b = next_block(&sizes, &times, positions, visits, kinds[i], number);
        found[i] = b.time;
        spots[i] = b.position;
        others[i] = b.other;
    }
}
