// The worst pair of successive blocks of a film: worst2, and where it is.
#![tactic(auto)]

ghost use Rattle.std.specs.Prelude.{◌≡◌, ◌≤◌, ◌<◌};
ghost use Rattle.placement.specs.Showing.{laying, worst_of, worst_at};
ghost use Rattle.placement.specs.Zones.{time_at};
ghost use Rattle.plan.specs.Plan.{walk_of};
ghost use Rattle.plan.specs.Disk.{OnDisk};

use numbers::showings::LOOP;
use walk::{run_from, set_out, walk_on, zone_of};

// Successive blocks, two of them for worst2: the time that they take, and the first of them.
#[derive(Clone, Copy)]
pub struct Pair {
    pub time: u32,
    pub first: u32,
}

// The worse of two times and where they begin, of equal ones the one found before.
pub fn worse(found: Pair, time: u32, first: u32) -> Pair
    ensures higher { found.time < time → (result.time ≡ time) × (result.first ≡ first) }
    ensures lower { time ≤ found.time → (result.time ≡ found.time) × (result.first ≡ found.first) }
{
    if found.time < time {
        return Pair { time, first };
    }
    found
}

// The worst pair of successive blocks, the earliest where several are equal; `total` is P. In a loop the first block follows the last.
pub fn worst_pair<'a>(
    sizes: &'a [u32; 64],
    times: &'a [u32; 64],
    showing: u32,
    total: u32,
    blocks: u32,
) -> Pair
    requires { OnDisk sizes.now times.now total blocks }
    ensures time { result.time ≡ worst_of (walk_of showing) (time_at sizes.now times.now)
        (laying (walk_of showing) total blocks) blocks }
    ensures first { result.first ≡ worst_at (walk_of showing) (time_at sizes.now times.now)
        (laying (walk_of showing) total blocks) blocks }
{
    let last = blocks - 1;
    let mut walk = set_out(sizes);
    let mut worst = Pair { time: 0, first: 0 };
    let mut b: u32 = 0;
    while b < last {
        let low = zone_of(sizes, showing, total, blocks, walk.low, b + b % 2);
        let high = zone_of(sizes, showing, total, blocks, walk.high, b + 1 - b % 2);
        walk = run_from(sizes, times, showing, total, blocks, low, high, b);
        worst = worse(worst, walk.even + walk.odd, b);
        b = walk.until - 1;
    }
    if showing != LOOP {
        return worst;
    }
    let closing = walk_on(sizes, times, showing, total, blocks, walk, last);
    worse(worst, closing.even + closing.odd, last)
}
