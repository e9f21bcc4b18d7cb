// One walk over a film, for one showing or a loop, in runs of blocks that lie in the same two zones: how long each block takes where it lies.
#![tactic(auto)]

ghost use Rattle.std.specs.Prelude.{◌≡◌, ◌+◌, ◌-◌, ◌%◌, ◌≤◌, ◌<◌};
ghost use Rattle.numbers.specs.Limits.{max_positions};
ghost use Rattle.placement.specs.Placement.{zigzag};
ghost use Rattle.placement.specs.Circle.{ring};
ghost use Rattle.placement.specs.Showing.{laying};
ghost use Rattle.plan.specs.Plan.{walk_of};
ghost use Rattle.plan.specs.Disk.{Zoned, OnDisk};
ghost use Rattle.zones.specs.Cursor.{Holds};
ghost use Rattle.walk.specs.Walk.{Meets, Ends, first_past, RunEnd, Cursors, side_of, Runs};

use numbers::showings::LOOP;
use positions::position_of;
use zones::{Zone, innermost, zone_near};

// A walk over the blocks of a film. Those of even and those of odd number lie on two sides: a cursor for each, and the time there, which
// all blocks of that side have that come before block `until`.
#[derive(Clone, Copy)]
pub struct Walk {
    pub low: Zone,
    pub high: Zone,
    pub even: u32,
    pub odd: u32,
    pub until: u32,
}

// How far a film shown once stays in a zone of the even and one of the odd blocks: even positions rise, odd ones fall.
fn once_end(total: u32, blocks: u32, b: u32, low: Zone, high: Zone) -> u32
    requires { Ends total blocks (zigzag total blocks) b low high }
    ensures { RunEnd blocks (zigzag total blocks) b low high result }
{
    let even = 2 * (low.end - (total - blocks));
    let odd = 2 * (total - high.first) + 1;
    blocks.min(even.min(odd))
}

// The first block that is an even one above `even` or an odd one above `odd`.
fn first_past(even: u32, odd: u32) -> u32
    requires { (even ≤ max_positions) × (odd ≤ max_positions) }
    ensures { result ≡ first_past even odd }
{
    (2 * (even / 2) + 2).min(2 * ((odd + 1) / 2) + 1)
}

// How far a loop stays in a zone of the even and one of the odd blocks. Positions of the even ones rise and those of the odd ones fall; past half of
// an even number of blocks it is the other way round, and at the half the run is the two blocks themselves.
fn loop_end(total: u32, blocks: u32, b: u32, low: Zone, high: Zone) -> u32
    requires { Ends total blocks (ring total blocks) b low high }
    ensures { RunEnd blocks (ring total blocks) b low high result }
{
    let below = total - blocks;
    let half = blocks / 2;
    if blocks % 2 == 1 {
        return blocks.min(first_past(low.end - below, total - high.first));
    }
    if b < half {
        return (half + 1).min(first_past(low.end - below, total - high.first));
    }
    if b == half {
        return blocks.min(b + 2);
    }
    blocks.min(first_past(total - low.first, high.end - below))
}

// How far the laying of a showing stays in a zone of the even and one of the odd blocks, from block b on.
fn run_end(showing: u32, total: u32, blocks: u32, b: u32, low: Zone, high: Zone) -> u32
    requires { Ends total blocks (laying (walk_of showing) total blocks) b low high }
    ensures { RunEnd blocks (laying (walk_of showing) total blocks) b low high result }
{
    if showing == LOOP {
        return loop_end(total, blocks, b, low, high);
    }
    once_end(total, blocks, b, low, high)
}

// A walk that has met no block.
pub fn set_out(sizes: &[u32; 64]) -> Walk
    requires { Zoned sizes.now }
    ensures { Cursors sizes.now result }
{
    let zone = innermost(sizes);
    Walk {
        low: zone,
        high: zone,
        even: 0,
        odd: 0,
        until: 0,
    }
}

// The zone of block b of a film, or of the block past the last, from any zone.
pub fn zone_of(sizes: &[u32; 64], showing: u32, total: u32, blocks: u32, at: Zone, b: u32) -> Zone
    requires { Meets sizes.now total blocks at b }
    ensures { Holds sizes.now result (laying (walk_of showing) total blocks b) }
{
    zone_near(sizes, at, position_of(showing, total, blocks, b))
}

// The run of blocks from b on that lie in the zones of b and of the next.
pub fn run_from<'a>(
    sizes: &'a [u32; 64],
    times: &'a [u32; 64],
    showing: u32,
    total: u32,
    blocks: u32,
    low: Zone,
    high: Zone,
    b: u32,
) -> Walk
    requires { (OnDisk sizes.now times.now total blocks) × (b < blocks)
        × (Holds sizes.now low (laying (walk_of showing) total blocks (b + b % 2)))
        × (Holds sizes.now high (laying (walk_of showing) total blocks (b + 1 - b % 2))) }
    ensures { Runs sizes.now times.now (laying (walk_of showing) total blocks) blocks b result }
{
    let inner = low.index;
    let outer = high.index;
    Walk {
        low,
        high,
        even: times[inner],
        odd: times[outer],
        until: run_end(showing, total, blocks, b, low, high),
    }
}

// The walk goes on to block b: the times of b, of the next, and of all that lie in the same two zones. (The loops over a whole film take
// these three steps themselves: this function is too long to be built into them, and a walk would pass through memory at each run.)
pub fn walk_on<'a>(
    sizes: &'a [u32; 64],
    times: &'a [u32; 64],
    showing: u32,
    total: u32,
    blocks: u32,
    walk: Walk,
    b: u32,
) -> Walk
    requires { (OnDisk sizes.now times.now total blocks) × (Cursors sizes.now walk) × (b < blocks) }
    ensures { Runs sizes.now times.now (laying (walk_of showing) total blocks) blocks b result }
{
    let low = zone_of(sizes, showing, total, blocks, walk.low, b + b % 2);
    let high = zone_of(sizes, showing, total, blocks, walk.high, b + 1 - b % 2);
    run_from(sizes, times, showing, total, blocks, low, high, b)
}

// What a walk has for block b: the first of two for an even number, the second for an odd one.
pub fn side(b: u32, even: u32, odd: u32) -> u32
    ensures { result ≡ side_of even odd b }
{
    if b % 2 == 0 {
        return even;
    }
    odd
}
