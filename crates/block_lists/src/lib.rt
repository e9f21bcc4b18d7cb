// The two lent lists: the positions and the leads of the film's blocks. Half blocks are written and compared as one
// showing of twice as many, and their leads, which are 0, by the walk of one showing.
#![tactic(auto)]

ghost use Rattle.std.specs.Prelude.{◌≡◌, ℕ, ◌&&◌, ◌≤◌, ◌<◌, length};
ghost use Rattle.numbers.specs.Limits.{max_positions};
ghost use Rattle.placement.specs.Circle.{ring};
ghost use Rattle.placement.specs.Showing.{laying};
ghost use Rattle.words.specs.Words.{words_of, with_words};
ghost use Rattle.plan.specs.Plan.{walk_of, row};
ghost use Rattle.plan.specs.Answer.{begins};
ghost use Rattle.plan.specs.Disk.{OnDisk, lead_at};
ghost use Rattle.block_lists.specs.Runs.{Within, Gives, written, has};
ghost use Rattle.block_lists.specs.Turns.{turn_of, Turns};

use numbers::showings::LOOP;
use positions::position_of;
use streams::lead;
use walk::{run_from, set_out, side, zone_of};
use words::{entries, put_word, word_at};

// The position of block b of a run of a loop's blocks, not of block 0. As the number of a block rises, those of one parity fall: of odd
// blocks if `odd` is 1, of even ones if it is 0.
fn turn(total: u32, blocks: u32, odd: u32, b: u32) -> u32
    requires { Turns total blocks b b odd }
    ensures { result ≡ turn_of total blocks odd b }
{
    side(b + odd, total - b, total - blocks + b - 1)
}

// Writes the entries from `from` up to `to`, each as `entry` has it.
fn put_each<F: Fn(u32) -> u32>(list: &mut [u8], from: u32, to: u32, entry: F)
    requires within { Within list.old from to }
    requires calls { (b : ℕ) → from ≤ b → b < to → F.pre entry b }
    ensures { (g : ℕ → ℕ) → Gives (F.post entry) g from to → list.new ≡ written list.old g from to }
{
    for b in from..to {
        put_word(list, b as usize, entry(b));
    }
}

// Writes the positions of a loop: those of odd blocks fall up to the half, past it those of blocks an even number before the end.
fn put_ring(list: &mut [u8], total: u32, blocks: u32)
    requires { (0 < blocks) × (blocks ≤ total) × (total ≤ max_positions) × (blocks ≤ length (words_of list.old)) }
    ensures { list.new ≡ with_words list.old 0 (row (ring total blocks) 0 blocks) }
{
    let past = blocks / 2 + 1;
    put_word(list, 0, total - blocks);
    put_each(list, 1, past, |b| turn(total, blocks, 1, b));
    put_each(list, past, blocks, |b| turn(total, blocks, blocks % 2, b));
}

// Writes the first `blocks` positions; `total` is P.
pub fn write_positions(showing: u32, total: u32, blocks: u32, positions: &mut [u8])
    requires { (0 < blocks) × (blocks ≤ total) × (total ≤ max_positions) × (blocks ≤ length (words_of positions.old)) }
    ensures { positions.new ≡ with_words positions.old 0 (row (laying (walk_of showing) total blocks) 0 blocks) }
{
    if showing == LOOP {
        put_ring(positions, total, blocks);
        return;
    }
    let entry = |b: u32| position_of(showing, total, blocks, b);
    put_each(positions, 0, blocks, entry);
}

// Writes the first `blocks` leads; `total` is P.
pub fn write_leads<'a>(
    sizes: &'a [u32; 64],
    times: &'a [u32; 64],
    showing: u32,
    total: u32,
    blocks: u32,
    worst2: u32,
    leads: &mut [u8],
)
    requires { (OnDisk sizes.now times.now total blocks) × (blocks ≤ length (words_of leads.old)) }
    ensures { leads.new ≡ with_words leads.old 0
        (row (lead_at sizes.now times.now (laying (walk_of showing) total blocks) worst2) 0 blocks) }
{
    let mut walk = set_out(sizes);
    let mut b: u32 = 0;
    while b < blocks {
        let low = zone_of(sizes, showing, total, blocks, walk.low, b + b % 2);
        let high = zone_of(sizes, showing, total, blocks, walk.high, b + 1 - b % 2);
        walk = run_from(sizes, times, showing, total, blocks, low, high, b);
        let to = walk.until;
        let even = lead(walk.even, worst2);
        let odd = lead(walk.odd, worst2);
        put_each(leads, b, to, |k| side(k, even, odd));
        b = to;
    }
}

// Both are true.
pub fn both(a: bool, b: bool) -> bool
    ensures { result ≡ (a && b) }
{
    if a {
        return b;
    }
    false
}

// A list has the entries from `from` up to `to`, each as `entry` has it.
fn same_each<F: Fn(u32) -> u32>(list: &[u8], from: u32, to: u32, entry: F) -> bool
    requires within { Within list.now from to }
    requires calls { (b : ℕ) → from ≤ b → b < to → F.pre entry b }
    ensures { (g : ℕ → ℕ) → Gives (F.post entry) g from to → result ≡ has g (words_of list.now) from to }
{
    let mut same = true;
    for b in from..to {
        let have = word_at(list, b as usize);
        same = both(have == entry(b), same);
    }
    same
}

// A list begins with the positions of a loop.
fn same_ring(list: &[u8], total: u32, blocks: u32) -> bool
    requires { (0 < blocks) × (blocks ≤ total) × (total ≤ max_positions) × (blocks ≤ length (words_of list.now)) }
    ensures { result ≡ begins (row (ring total blocks) 0 blocks) (words_of list.now) }
{
    let past = blocks / 2 + 1;
    let first = both(word_at(list, 0) == total - blocks, true);
    let half = same_each(list, 1, past, |b| turn(total, blocks, 1, b));
    let early = both(half, first);
    let late = same_each(list, past, blocks, |b| turn(total, blocks, blocks % 2, b));
    both(late, early)
}

// The list begins with the `blocks` positions of the film; `total` is P.
pub fn same_positions(showing: u32, total: u32, blocks: u32, positions: &[u8]) -> bool
    requires { (0 < blocks) × (blocks ≤ total) × (total ≤ max_positions) }
    ensures { result ≡ begins (row (laying (walk_of showing) total blocks) 0 blocks) (words_of positions.now) }
{
    if entries(positions) < blocks as usize {
        return false;
    }
    if showing == LOOP {
        return same_ring(positions, total, blocks);
    }
    let entry = |b: u32| position_of(showing, total, blocks, b);
    same_each(positions, 0, blocks, entry)
}

// The list begins with the `blocks` leads of the film; `total` is P.
pub fn same_leads<'a>(
    sizes: &'a [u32; 64],
    times: &'a [u32; 64],
    showing: u32,
    total: u32,
    blocks: u32,
    worst2: u32,
    leads: &[u8],
) -> bool
    requires { OnDisk sizes.now times.now total blocks }
    ensures { result ≡ begins (row (lead_at sizes.now times.now (laying (walk_of showing) total blocks) worst2) 0 blocks)
        (words_of leads.now) }
{
    if entries(leads) < blocks as usize {
        return false;
    }
    let mut walk = set_out(sizes);
    let mut same = true;
    let mut b: u32 = 0;
    while b < blocks {
        let low = zone_of(sizes, showing, total, blocks, walk.low, b + b % 2);
        let high = zone_of(sizes, showing, total, blocks, walk.high, b + 1 - b % 2);
        walk = run_from(sizes, times, showing, total, blocks, low, high, b);
        let to = walk.until;
        let even = lead(walk.even, worst2);
        let odd = lead(walk.odd, worst2);
        let run = same_each(leads, b, to, |k| side(k, even, odd));
        same = both(run, same);
        b = to;
    }
    same
}
