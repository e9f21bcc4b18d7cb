// The draws of an end, judged: each against what its slot may draw, and against what it holds.
#![tactic(auto)]

ghost use Rattle.std.specs.Prelude.{◌≡◌, List, ℕ, ◌*◌, ◌/◌, ◌≤◌, ◌<◌, length, MatchOption};
ghost use Rattle.words.specs.Words.{words_of};
ghost use Rattle.numbers.specs.Limits.{max_streams};
ghost use Rattle.numbers.specs.Units.{micros};
ghost use Rattle.rules.specs.Supply.{Supply};
ghost use Rattle.rules.specs.Order.{Scheduler};
ghost use Rattle.desk.specs.Desk.{Queue};
ghost use Rattle.draws.specs.Draws.{NoneAbove, FirstAbove, kind_limit, Sweeps, judged_draws};

use card::Verdict;
use numbers::refusals::{ACCEPTED, DRAW_ABOVE_HELD, DRAW_ABOVE_LIMIT, DRAW_COUNT};
use numbers::slots::{DRAINING, PLAYING};
use numbers::units::MICROS;
use streams::product;
use words::{entries, word_at};

// What a slot may draw: a playing or tail slot the most, others 0.
pub fn draw_limit(kind: u32, most: u64) -> u64
    ensures { result ≡ kind_limit most kind }
{
    match kind {
        PLAYING => most,
        DRAINING => most,
        _ => 0,
    }
}

// The first slot whose draw is above its limit, if there is one.
fn first_above<F: Fn(usize) -> u64>(limit: F, draws: &[u8]) -> Option<usize>
    requires { (i : ℕ) → i < length (words_of draws.now) → F.pre limit i }
    ensures { let ds = words_of draws.now in
        (most : ℕ → ℕ) → ((i m : ℕ) → i < length ds → F.post limit i m → m ≡ most i) → MatchOption result (NoneAbove most ds (length ds)) (FirstAbove most ds) }
{
    for i in 0..entries(draws) {
        if limit(i) < word_at(draws, i) as u64 {
            return Some(i);
        }
    }
    None
}

// The most that a slot may draw in a sweep: c × bound / 1,000,000, rounded down.
pub fn most_drawn(rate: u32, bound: u32) -> u64
    ensures { result ≡ rate * bound / micros }
{
    product(rate, bound) / MICROS
}

// The draws of an end, one for each of the `streams` slots: 19 where they are not so many, then 20 over all slots, then 21, each with the
// lowest such slot. `most` is the most that a slot may draw.
pub fn judge_draws<'a>(
    kinds: &'a [u32; 256],
    held: &'a [u32; 256],
    streams: usize,
    most: u64,
    draws: &[u8],
) -> Verdict
    requires { streams ≤ max_streams }
    ensures { (p : Supply ℕ) (v : Scheduler ℕ Queue) (xs : List ℕ) → Sweeps p v streams most kinds.now xs held.now
        → result ≡ judged_draws p v (words_of draws.now) }
{
    if entries(draws) != streams {
        return Verdict {
            number: DRAW_COUNT,
            place: 0,
        };
    }
    let excess = first_above(|i| draw_limit(kinds[i], most), draws).unwrap_or(streams);
    let overdrawn = first_above(|i| held[i] as u64, draws).unwrap_or(streams);
    if excess < streams {
        return Verdict {
            number: DRAW_ABOVE_LIMIT,
            place: excess,
        };
    }
    if overdrawn < streams {
        return Verdict {
            number: DRAW_ABOVE_HELD,
            place: overdrawn,
        };
    }
    Verdict {
        number: ACCEPTED,
        place: 0,
    }
}
