// The numbers of the plan of legal figures: worst2 and where it is, margin, streams and buffer.
#![tactic(auto)]

ghost use Rattle.std.specs.Prelude.{◌≡◌};
ghost use Rattle.card.specs.Card.{Legal};
ghost use Rattle.placement.specs.Showing.{visits_of};
ghost use Rattle.card.specs.Read.{figures_from};
ghost use Rattle.laws.specs.Through.{Found};
ghost use Rattle.plan.specs.Plan.{word_of, showing_of, plan_of, plan_from};
ghost use Rattle.plan.specs.Disk.{OnShelf, walked_worst, walked_at};

use card::Scalars;
use numbers::showings::{LOOP, ONCE, PAIRS};
use plan::{Numbers, blocks_before, visits_of};
use streams::{buffer_size, count_streams, lead};
use worst_pair::{Pair, worse, worst_pair};
use zones::{sum_positions, time_at};

// The word of the showing that a word tells: of one that tells none, 0.
fn known_word(showing: u32) -> u32
    ensures { result ≡ word_of (showing_of showing) }
{
    if showing == LOOP {
        return LOOP;
    }
    if showing == PAIRS {
        return PAIRS;
    }
    ONCE
}

// The worst pair of all films, each pair within its film: the time of both blocks, of half blocks twice that of a block, and the first of them counted
// through the films, the earliest where several are equal; `total` is P. Half blocks are walked as twice as many blocks: the worst pair of these is the
// worst block.
fn worst_of_films<'a>(
    sizes: &'a [u32; 64],
    times: &'a [u32; 64],
    showing: u32,
    total: u32,
    blocks: &'a [u32; 16],
    films: u32,
) -> Pair
    requires { OnShelf sizes.now times.now (showing_of showing) total blocks.now films }
    ensures { Found (walked_worst sizes.now times.now (showing_of showing) total blocks.now)
        (walked_at sizes.now times.now (showing_of showing) total blocks.now) films result.time result.first }
{
    let visits = visits_of(showing);
    let mut worst = Pair { time: 0, first: 0 };
    let mut free = total;
    let mut start: u32 = 0;
    for &film in &blocks[..films as usize] {
        let all = visits * film;
        let own = worst_pair(sizes, times, showing, free, all);
        let time = visits * own.time;
        worst = worse(worst, time, start + own.first / visits);
        free -= all;
        start += film;
    }
    worst
}

// The numbers of the plan of legal figures in a showing. The lowest position in use is the slowest. Half blocks have no margin.
pub fn plan_numbers<'a>(
    figures: Scalars,
    sizes: &'a [u32; 64],
    times: &'a [u32; 64],
    table: &'a [u32; 257],
    showing: u32,
) -> Numbers
    requires { Legal (visits_of (showing_of showing)) (figures_from figures sizes.now times.now table.now) }
    ensures { let f = figures_from figures sizes.now times.now table.now in
        plan_from f result ≡ plan_of (showing_of showing) f }
{
    let films = figures.films;
    let blocks = figures.blocks;
    let total = sum_positions(sizes, figures.zones);
    let visits = visits_of(showing);
    let worst = worst_of_films(sizes, times, showing, total, &blocks, films);
    let all = visits * blocks_before(&blocks, films);
    let slowest = time_at(sizes, times, total - all);
    let margin = lead(slowest, worst.time);
    let streams = count_streams(figures.rate, worst.time, table, figures.bytes, visits);
    let buffer = buffer_size(figures.rate, streams, margin, figures.bytes);
    Numbers {
        streams,
        buffer,
        worst2: worst.time,
        margin,
        showing: known_word(showing),
        worstat: worst.first,
    }
}
