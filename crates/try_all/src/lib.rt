// The second planner (document 02, ticket 12): it tries every laying of a film of up to 8 blocks on the film's positions, for one showing or for
// a loop, and answers the smallest worst2 and how many layings have it. The film is alone on its shelf (ticket 14). It is lent no list, and names
// neither the planner nor its laying.
#![tactic(auto)]

ghost use Rattle.std.specs.Prelude.{◌≡◌, List, ℕ};
ghost use Rattle.leb128.specs.Number.{Bytes};
ghost use Rattle.card.specs.declared.Figures.{Figures};
ghost use Rattle.card.specs.Card.{Legal};
ghost use Rattle.card.specs.Read.{read_card};
ghost use Rattle.legality.specs.Legality.{Wide};
ghost use Rattle.placement.specs.Showing.{Showing, one, loop, visits_of};
ghost use Rattle.plan.specs.Plan.{walk_of};
ghost use Rattle.plan.specs.Answer.{judged};
ghost use Rattle.try_all.specs.Answer.{not_tried, tried, SameAnswer};

use card::{CardRead, Figures, Verdict};
use film_times::film_times;
use numbers::limits::MAX_TRIED;
use numbers::refusals::{ACCEPTED, FILM_TOO_LONG, NO_STREAM};
use numbers::showings::{LOOP, ONCE};
use plan::judged_figures;
use streams::count_streams;
use try_layings::try_layings;

// The answer; both figures are 0 where it is a refusal.
#[derive(Clone, Copy)]
pub struct Tried {
    pub verdict: Verdict,
    // The smallest worst2 of all layings on the film's positions.
    pub worst2: u32,
    // How many of them have it.
    pub count: u32,
}

// A refusal.
fn refused(number: u32, place: usize) -> Tried
    ensures { result ≡ not_tried number place }
{
    Tried {
        verdict: Verdict { number, place },
        worst2: 0,
        count: 0,
    }
}

// Tries figures that were read or judged, in a showing: their refusal, else 29, then 12.
fn try_figures(read: CardRead, showing: u32) -> Tried
    requires { read.verdict.number ≡ 0 → Legal 1 read.figures }
    ensures { result ≡ tried (walk_of showing) read }
{
    let verdict = read.verdict;
    if verdict.number != ACCEPTED {
        return refused(verdict.number, verdict.place);
    }
    let figures = read.figures;
    if 1 < figures.films {
        return refused(FILM_TOO_LONG, 0);
    }
    let blocks = figures.blocks[0];
    if MAX_TRIED < blocks {
        return refused(FILM_TOO_LONG, 0);
    }
    let found = try_layings(film_times(figures), blocks, showing);
    let streams = count_streams(figures.rate, found.least, &figures.table, figures.bytes, 1);
    if streams == 0 {
        return refused(NO_STREAM, 0);
    }
    Tried {
        verdict: Verdict {
            number: ACCEPTED,
            place: 0,
        },
        worst2: found.least,
        count: found.count,
    }
}

// Tries every laying of a card's film for one showing: 1 to 11, 25, 26 and 30 as the reader gives them, then 29, then 12.
pub fn try_card(card: &[u8]) -> Tried
    ensures { result ≡ tried one (read_card 1 card.now) }
{
    try_figures(card_reader::read_card(card), ONCE)
}

// The same for a loop.
pub fn try_loop_card(card: &[u8]) -> Tried
    ensures { result ≡ tried loop (read_card 1 card.now) }
{
    try_figures(card_reader::read_card(card), LOOP)
}

// Tries every laying of a record's film for one showing: 3 to 10, 25, 26 and 30, then 29, then 12, place 0.
pub fn try_record(figures: Figures) -> Tried
    ensures { result ≡ tried one (judged 1 figures) }
{
    try_figures(judged_figures(figures), ONCE)
}

// The same for a loop.
pub fn try_loop_record(figures: Figures) -> Tried
    ensures { result ≡ tried loop (judged 1 figures) }
{
    try_figures(judged_figures(figures), LOOP)
}

// Its worst2 is the planner's, for one showing and for a loop, of any card and any record: where there is no film but one, of at most 8 blocks, and
// the planner's lists have room, both answer the same verdict too.
pub fn both_planners_agree()
    ensures cards { (x : Showing) → visits_of x ≡ 1 → (s : List ℕ) → Bytes s → SameAnswer x (read_card 1 s) }
    ensures records { (x : Showing) → visits_of x ≡ 1 → (f : Figures) → Wide f → SameAnswer x (judged 1 f) }
{}
