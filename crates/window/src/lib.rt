// Rates over longer windows: the worst time of k successive blocks of one of the planned films, for one showing, for loops and for half blocks,
// whose time is that of both halves.
#![tactic(auto)]

ghost use Rattle.std.specs.Prelude.{◌≡◌, cond, suc, ◌*◌, ◌≤◌, ◌<◌, ltb};
ghost use Rattle.laws.specs.Greatest.{greatest_of};
ghost use Rattle.laws.specs.Through.{Found};
ghost use Rattle.numbers.specs.Limits.{no_number, max_films, max_window};
ghost use Rattle.placement.specs.Placement.{Falling};
ghost use Rattle.placement.specs.Showing.{visits_of, laying};
ghost use Rattle.placement.specs.Zones.{time_at};
ghost use Rattle.pacing.specs.Window.{places_of, worst_window, window_at};
ghost use Rattle.plan.specs.Disk.{OnDisk, length_at, OnShelf};
ghost use Rattle.plan.specs.declared.Plan.{Plan};
ghost use Rattle.plan.specs.Plan.{showing_of, walk_of};
ghost use Rattle.window.specs.Window.{film_window, film_window_at, is_outside, refusal, window_answer};

use card::Verdict;
use numbers::limits::MAX_WINDOW;
use numbers::refusals::{ACCEPTED, NOT_SOUND, WRONG_WINDOW};
use numbers::showings::LOOP;
use plan::{Plan, numbers_in, scalars_in, visits_of};
use plan_check::is_laid_of;
use worst_pair::{Pair, worse};
use worst_row::worst_row;
use zones::sum_positions;

// The answer: any k successive blocks are read in at most `time` microseconds, and those from block `first` on take it, the earliest where
// several do; so `bytes`, k × B, in that time are guaranteed. Refused: the number, and zeros.
#[derive(Clone, Copy)]
pub struct Window {
    pub verdict: Verdict,
    pub time: u32,
    pub first: u32,
    pub bytes: u32,
}

// A refusal.
pub fn refused(number: u32) -> Window
    ensures { result ≡ refusal number }
{
    Window {
        verdict: Verdict { number, place: 0 },
        time: 0,
        first: 0,
        bytes: 0,
    }
}

// Is a window of so many blocks out of range?
fn is_outside(count: u32, blocks: u32) -> bool
    ensures { result ≡ is_outside count blocks }
{
    if count == 0 {
        return true;
    }
    if MAX_WINDOW < count {
        return true;
    }
    blocks < count
}

// The bytes of a window.
fn window_bytes(count: u32, bytes: u32) -> u32
    requires { count * bytes < no_number }
    ensures { result ≡ count * bytes }
{
    count * bytes
}

// The last of so many visits that a row of `count` may start at.
fn last_place(showing: u32, blocks: u32, count: u32) -> u32
    requires { (0 < count) × (count ≤ blocks) }
    ensures { (suc result ≡ places_of (walk_of showing) blocks count) × (result < blocks) }
{
    if showing == LOOP {
        return blocks - 1;
    }
    blocks - count
}

// The worst window of `count` blocks of a film, the earliest where several are equal: the worst row of all their visits, which starts at a
// block's first; `total` is P.
fn worst_blocks<'a>(
    sizes: &'a [u32; 64],
    times: &'a [u32; 64],
    showing: u32,
    total: u32,
    blocks: u32,
    count: u32,
) -> Pair
    requires { (OnDisk sizes.now times.now total (visits_of (showing_of showing) * blocks)) × (Falling total (time_at sizes.now times.now))
        × (0 < count) × (count ≤ max_window) × (count ≤ blocks) }
    ensures time { result.time ≡ worst_window (showing_of showing) (time_at sizes.now times.now)
        (laying (showing_of showing) total blocks) blocks count }
    ensures first { result.first ≡ window_at (showing_of showing) (time_at sizes.now times.now)
        (laying (showing_of showing) total blocks) blocks count }
{
    let visits = visits_of(showing);
    let all = visits * blocks;
    let row = visits * count;
    let worst = worst_row(
        sizes,
        times,
        showing,
        total,
        all,
        row,
        last_place(showing, all, row),
    );
    Pair {
        time: worst.time,
        first: worst.first / visits,
    }
}

// The same of any film: one with fewer blocks has no window, and its time is 0.
fn film_window<'a>(
    sizes: &'a [u32; 64],
    times: &'a [u32; 64],
    showing: u32,
    total: u32,
    blocks: u32,
    count: u32,
) -> Pair
    requires { (OnDisk sizes.now times.now total (visits_of (showing_of showing) * blocks)) × (Falling total (time_at sizes.now times.now))
        × (0 < count) × (count ≤ max_window) }
    ensures time { result.time ≡ cond (ltb blocks count) 0 (worst_window (showing_of showing) (time_at sizes.now times.now)
        (laying (showing_of showing) total blocks) blocks count) }
    ensures first { (result.first ≡ cond (ltb blocks count) 0 (window_at (showing_of showing) (time_at sizes.now times.now)
        (laying (showing_of showing) total blocks) blocks count)) × (result.first ≤ blocks) }
{
    if blocks < count {
        return Pair { time: 0, first: 0 };
    }
    worst_blocks(sizes, times, showing, total, blocks, count)
}

// The worst window of `count` blocks of all films, each window within its film, and its first block counted through the films, the earliest where
// several are equal; `total` is P.
fn worst_of_films<'a>(
    sizes: &'a [u32; 64],
    times: &'a [u32; 64],
    showing: u32,
    total: u32,
    blocks: &'a [u32; 16],
    films: u32,
    count: u32,
) -> Pair
    requires { (OnShelf sizes.now times.now (showing_of showing) total blocks.now films) × (Falling total (time_at sizes.now times.now))
        × (0 < count) × (count ≤ max_window) }
    ensures { let τ = time_at sizes.now times.now in let N = length_at blocks.now in
        Found (film_window (showing_of showing) τ total N count) (film_window_at (showing_of showing) τ total N count) films result.time result.first }
{
    let visits = visits_of(showing);
    let mut worst = Pair { time: 0, first: 0 };
    let mut free = total;
    let mut start: u32 = 0;
    for &film in &blocks[..films as usize] {
        let own = film_window(sizes, times, showing, free, film, count);
        worst = worse(worst, own.time, start + own.first);
        free -= visits * film;
        start += film;
    }
    worst
}

// The blocks of the longest film.
pub fn longest(blocks: &[u32; 16], films: u32) -> u32
    requires { films ≤ max_films }
    ensures { result ≡ greatest_of (length_at blocks.now) films }
{
    let mut most: u32 = 0;
    for &film in &blocks[..films as usize] {
        most = most.max(film);
    }
    most
}

// The worst window of `count` blocks of a plan with this positions list: 14, then 27.
pub fn worst_window(plan: Plan, positions: &[u8], count: u32) -> Window
    ensures { result ≡ window_answer plan positions.now count }
{
    let figures = scalars_in(plan);
    let numbers = numbers_in(plan);
    if !is_laid_of(
        figures,
        &plan.figures.positions,
        &plan.figures.times,
        &plan.figures.table,
        numbers,
        positions,
    ) {
        return refused(NOT_SOUND);
    }
    let most = longest(&plan.figures.blocks, plan.figures.films);
    if is_outside(count, most) {
        return refused(WRONG_WINDOW);
    }
    let total = sum_positions(&plan.figures.positions, plan.figures.zones);
    let worst = worst_of_films(
        &plan.figures.positions,
        &plan.figures.times,
        plan.showing,
        total,
        &plan.figures.blocks,
        plan.figures.films,
        count,
    );
    Window {
        verdict: Verdict {
            number: ACCEPTED,
            place: 0,
        },
        time: worst.time,
        first: worst.first,
        bytes: window_bytes(count, plan.figures.bytes),
    }
}
