// The leads of slots, and the floor of document 01 (rules: the low-water mark) that they give.
#![tactic(auto)]

ghost use Rattle.std.specs.Prelude.{◌≡◌, List, ℕ, ◌+◌, ◌*◌, ◌≤◌, ◌<◌, min, length};
ghost use Rattle.words.specs.Words.{words_of};
ghost use Rattle.numbers.specs.Limits.{max_bytes, max_rate, max_streams};
ghost use Rattle.numbers.specs.Slots.{filling, playing};
ghost use Rattle.numbers.specs.Units.{parts};
ghost use Rattle.rules.specs.Supply.{Supply};
ghost use Rattle.rules.specs.Arrays.{slots_of};
ghost use Rattle.turns.specs.Turns.{least_held};
ghost use Rattle.desk.specs.Shown.{Slots};
ghost use Rattle.desk_layout.specs.Layout.{desk_in, desk_size};
ghost use Rattle.desk_columns.specs.Films.{StartsOf};
ghost use Rattle.floor.specs.Floor.{ample, Added};
ghost use Rattle.floor.specs.Sources.{Sourced, lead_from, leads_next, NextSourced, Found};

use desk_columns::{entry_of, film_starts, kind_in, next_in, worst2_in};
use numbers::slots::{FILLING, PLAYING};
use numbers::units::PARTS;
use streams::{lead, product};
use words::word_at;
use zones::time_at;

// Stands for the least that a playing slot holds where none plays, in two-millionths of a byte: above every floor.
const AMPLE: u64 = 2000000000000000000;

// The lead of a block by its number through the lists: the lent list has it; where there is none, it is twice the time at the block's entry less
// worst2. (Of half blocks that entry is some half's, whose time is at most half of worst2: 0, as every lead there.)
fn lead_from<'a>(
    sizes: &'a [u32; 64],
    times: &'a [u32; 64],
    worst2: u32,
    positions: &[u8],
    leads: &[u8],
    listed: bool,
    number: u32,
) -> u32
    requires { Sourced listed sizes.now times.now positions.now leads.now number }
    ensures { result ≡ lead_from listed sizes.now times.now worst2 positions.now leads.now number }
{
    let entry = number as usize;
    if listed {
        return word_at(leads, entry);
    }
    lead(time_at(sizes, times, word_at(positions, entry)), worst2)
}

// What a slot adds to the sum: the lead of its next block, by its number through the lists, where it is filling or playing.
fn added_lead<'a>(
    sizes: &'a [u32; 64],
    times: &'a [u32; 64],
    worst2: u32,
    positions: &[u8],
    leads: &[u8],
    listed: bool,
    kind: u32,
    number: u32,
) -> u32
    requires { filling ≤ kind → kind ≤ playing → Sourced listed sizes.now times.now positions.now leads.now number }
    ensures block { filling ≤ kind → kind ≤ playing
        → result ≡ lead_from listed sizes.now times.now worst2 positions.now leads.now number }
    ensures none { (filling ≤ kind → kind ≤ playing → ⊥) → result ≡ 0 }
{
    match kind {
        FILLING => lead_from(sizes, times, worst2, positions, leads, listed, number),
        PLAYING => lead_from(sizes, times, worst2, positions, leads, listed, number),
        _ => 0,
    }
}

// The leads at the next blocks of the filling and playing slots of a desk, added up. The slots from `streams` on are free.
pub fn sum_leads<'a>(
    desk: &[u8],
    streams: usize,
    sizes: &'a [u32; 64],
    times: &'a [u32; 64],
    positions: &[u8],
    leads: &[u8],
    listed: bool,
) -> u32
    requires { (streams ≤ max_streams) × (desk_size ≤ length desk.now)
        × Found listed (desk_in (words_of desk.now)) sizes.now times.now positions.now leads.now streams }
    ensures { let d = desk_in (words_of desk.now) in
        Added (leads_next listed d sizes.now times.now positions.now leads.now) d.kinds d.next streams result }
{
    let worst2 = worst2_in(desk);
    let starts = film_starts(desk);
    let mut sum: u32 = 0;
    for i in 0..streams {
        let kind = kind_in(desk, i);
        let number = entry_of(&starts, next_in(desk, i));
        sum += added_lead(sizes, times, worst2, positions, leads, listed, kind, number);
    }
    sum
}

// The lead of the next block of a slot of a desk; `starts` has where each film begins in the lists.
pub fn next_lead<'a>(
    desk: &[u8],
    slot: usize,
    sizes: &'a [u32; 64],
    times: &'a [u32; 64],
    starts: &[u32; 16],
    positions: &[u8],
    leads: &[u8],
    listed: bool,
) -> u32
    requires { (slot < max_streams) × (desk_size ≤ length desk.now) × (StartsOf (desk_in (words_of desk.now)).plan.figures starts.now)
        × NextSourced listed (desk_in (words_of desk.now)) sizes.now times.now positions.now leads.now slot }
    ensures { result ≡ leads_next listed (desk_in (words_of desk.now)) sizes.now times.now positions.now
        leads.now slot }
{
    let worst2 = worst2_in(desk);
    let number = entry_of(starts, next_in(desk, slot));
    lead_from(sizes, times, worst2, positions, leads, listed, number)
}

// The floor in two-millionths of a byte, for leads that add up to `leads`: B plus c / 2,000,000 times the leads.
pub fn low_water(bytes: u32, rate: u32, leads: u32) -> u64
    requires { (bytes ≤ max_bytes) × (rate ≤ max_rate) }
    ensures { result ≡ parts * bytes + rate * leads }
{
    product(PARTS, bytes) + product(rate, leads)
}

// The lower of a level and what a playing slot holds, in two-millionths of a byte.
fn lower(kind: u32, held: u32, level: u64) -> u64
    ensures plays { kind ≡ playing → result ≡ min level (parts * held) }
    ensures other { (kind ≡ playing → ⊥) → result ≡ level }
{
    match kind {
        PLAYING => {
            let own = product(PARTS, held);
            own.min(level)
        }
        _ => level,
    }
}

// The least that a playing slot holds, in two-millionths of a byte; where none plays, above every floor. The slots from `streams` on are free.
pub fn least_level<'a>(kinds: &'a [u32; 256], held: &'a [u32; 256], streams: usize) -> u64
    requires { streams ≤ max_streams }
    ensures { (p : Supply ℕ) (xs : List ℕ) → Slots p streams kinds.now xs held.now
        → result ≡ parts * least_held p ample (slots_of p kinds.now xs held.now) }
{
    let mut level: u64 = AMPLE;
    for (&kind, &held) in kinds[..streams].iter().zip(&held[..streams]) {
        level = lower(kind, held, level);
    }
    level
}
