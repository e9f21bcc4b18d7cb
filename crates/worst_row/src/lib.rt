// The worst of the rows of k blocks, in one pass: two walks over the film, one k blocks ahead of the other. A row gains the block that the one
// has passed and loses the block that the other has. Within a run of either walk the rows slide on without a look at the zones.
#![tactic(auto)]

ghost use Rattle.std.specs.Prelude.{◌≡◌, List, ℕ, suc, ◌≤◌, ◌<◌};
ghost use Rattle.laws.specs.Greatest.{Peak};
ghost use Rattle.placement.specs.Circle.{round};
ghost use Rattle.placement.specs.Showing.{laying};
ghost use Rattle.placement.specs.Zones.{time_at};
ghost use Rattle.plan.specs.Plan.{walk_of};
ghost use Rattle.plan.specs.Disk.{Zoned, OnDisk};
ghost use Rattle.worst_row.specs.Rows.{max_row, past, Comes, Stands, row_time, Slides};

use walk::{Walk, set_out, side, walk_on};
use worst_pair::{Pair, worse};

// A walk that has passed a block: its time, and the block that comes next.
#[derive(Clone, Copy)]
pub struct Step {
    pub walk: Walk,
    pub time: u32,
    pub next: u32,
}

// Blocks in a row: the walk past the last of them, and their time.
#[derive(Clone, Copy)]
pub struct Row {
    pub ahead: Step,
    pub time: u32,
}

// A walk that has passed no block.
fn start(sizes: &[u32; 64]) -> Step
    requires { Zoned sizes.now }
    ensures at { result.next ≡ 0 }
    ensures comes { (ts : List ℕ) (l : ℕ → ℕ) (N : ℕ) → Comes sizes.now ts l N result.walk result.next }
{
    Step {
        walk: set_out(sizes),
        time: 0,
        next: 0,
    }
}

// The block after b, going round.
fn following(blocks: u32, b: u32) -> u32
    requires { b < blocks }
    ensures { result ≡ round blocks b }
{
    let next = b + 1;
    if next < blocks {
        return next;
    }
    0
}

// The walk at block b: as it is where b is in its run, else it goes on to b; at the first block always.
fn walk_to<'a>(
    sizes: &'a [u32; 64],
    times: &'a [u32; 64],
    showing: u32,
    total: u32,
    blocks: u32,
    walk: Walk,
    b: u32,
) -> Walk
    requires { (OnDisk sizes.now times.now total blocks) × (Comes sizes.now times.now (laying (walk_of showing) total blocks) blocks walk b)
        × (b < blocks) }
    ensures { Stands sizes.now times.now (laying (walk_of showing) total blocks) blocks result b }
{
    if 0 < b {
        if b < walk.until {
            return walk;
        }
    }
    walk_on(sizes, times, showing, total, blocks, walk, b)
}

// One block on.
fn step_on<'a>(
    sizes: &'a [u32; 64],
    times: &'a [u32; 64],
    showing: u32,
    total: u32,
    blocks: u32,
    at: Step,
) -> Step
    requires { (OnDisk sizes.now times.now total blocks)
        × (Comes sizes.now times.now (laying (walk_of showing) total blocks) blocks at.walk at.next) × (at.next < blocks) }
    ensures comes { Comes sizes.now times.now (laying (walk_of showing) total blocks) blocks result.walk result.next }
    ensures time { result.time ≡ time_at sizes.now times.now (laying (walk_of showing) total blocks at.next) }
    ensures next { result.next ≡ round blocks at.next }
{
    let b = at.next;
    let walk = walk_to(sizes, times, showing, total, blocks, at.walk, b);
    Step {
        walk,
        time: side(b, walk.even, walk.odd),
        next: following(blocks, b),
    }
}

// The first `count` blocks.
fn first_row<'a>(
    sizes: &'a [u32; 64],
    times: &'a [u32; 64],
    showing: u32,
    total: u32,
    blocks: u32,
    count: u32,
) -> Row
    requires { (OnDisk sizes.now times.now total blocks) × (count ≤ max_row) }
    ensures comes { Comes sizes.now times.now (laying (walk_of showing) total blocks) blocks result.ahead.walk
        result.ahead.next }
    ensures next { result.ahead.next ≡ past blocks count 0 }
    ensures time { result.time ≡ row_time sizes.now times.now (laying (walk_of showing) total blocks) blocks count 0 }
{
    let mut ahead = start(sizes);
    let mut sum: u32 = 0;
    for _ in 0..count {
        ahead = step_on(sizes, times, showing, total, blocks, ahead);
        sum += ahead.time;
    }
    Row { ahead, time: sum }
}

// The row that has slid on to a block: its time, and the worst up to it.
#[derive(Clone, Copy)]
pub struct Slid {
    pub sum: u32,
    pub worst: Pair,
}

// Rows slide on up to block `to`, while neither walk leaves its run: a row gains the block ahead, `front` the first of them, and loses its own
// first block.
fn slide(ahead: Walk, behind: Walk, front: u32, from: u32, to: u32, row: Slid) -> Slid
    requires { (g : ℕ → ℕ) × Slides g ahead behind front from to row.sum row.worst }
    ensures { (g : ℕ → ℕ) → Slides g ahead behind front from to row.sum row.worst
        → (result.sum ≡ g to) × Peak g (suc to) result.worst.first result.worst.time }
{
    let mut sum = row.sum;
    let mut worst = row.worst;
    for b in from..to {
        let a = front + (b - from);
        sum = sum + side(a, ahead.even, ahead.odd) - side(b, behind.even, behind.odd);
        worst = worse(worst, sum, b + 1);
    }
    Slid { sum, worst }
}

// The worst row of `count` blocks of those that start at block 0 to `last`, the earliest where several are equal; `total` is P.
pub fn worst_row<'a>(
    sizes: &'a [u32; 64],
    times: &'a [u32; 64],
    showing: u32,
    total: u32,
    blocks: u32,
    count: u32,
    last: u32,
) -> Pair
    requires { (OnDisk sizes.now times.now total blocks) × (count ≤ max_row) × (last < blocks) }
    ensures { Peak (row_time sizes.now times.now (laying (walk_of showing) total blocks) blocks count) (suc last) result.first
        result.time }
{
    let first = first_row(sizes, times, showing, total, blocks, count);
    let mut ahead = first.ahead.walk;
    let mut a = first.ahead.next;
    let mut behind = set_out(sizes);
    let mut b: u32 = 0;
    let mut row = Slid {
        sum: first.time,
        worst: Pair {
            time: first.time,
            first: 0,
        },
    };
    while b < last {
        ahead = walk_to(sizes, times, showing, total, blocks, ahead, a);
        behind = walk_to(sizes, times, showing, total, blocks, behind, b);
        let to = last.min(behind.until.min(b + (ahead.until - a)));
        row = slide(ahead, behind, a, b, to, row);
        a = following(blocks, a + (to - b) - 1);
        b = to;
    }
    row.worst
}
