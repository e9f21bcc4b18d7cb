// The plan calls on lent byte strings, one for each showing. Strings lent to one call share no byte.
#![tactic(auto)]

ghost use Rattle.std.specs.Prelude.{◌≡◌, ◌≤◌, length};
ghost use Rattle.words.specs.Words.{with_words};
ghost use Rattle.card.specs.Card.{Legal};
ghost use Rattle.card.specs.Read.{figures_from, read_card};
ghost use Rattle.card_reader.specs.Told.{accepted_card};
ghost use Rattle.numbers.specs.Refusals.{too_short};
ghost use Rattle.placement.specs.Showing.{Showing, one, loop, pairs, visits_of};
ghost use Rattle.plan.specs.Plan.{showing_of, blank_plan};
ghost use Rattle.plan.specs.Answer.{answer};
ghost use Rattle.plan_layout.specs.Layout.{plan_words, plan_size};
ghost use Rattle.layout.specs.Answers.{verdict_answer};
ghost use Rattle.plan_strings.specs.Calls.{plan_answer, plan_string, positions_string, leads_string, PlanCall, ReadCall};
ghost use Rattle.plan_strings.specs.Calls.{plan_scratch_answer, plan_scratch_string, positions_scratch_string};

use card::{Scalars, Verdict};
use card_reader::Told;
use layout::{FilmdiskAnswer, verdict_answer};
use numbers::refusals::{ACCEPTED, TOO_SHORT};
use numbers::showings::{LOOP, ONCE, PAIRS};
use plan::visits_of;
use plan_layout::{PLAN_BYTES, clear_plan, write_parts};
use plan_legal::plan_legal;

// The answer where the plan string has another length, in every showing: the card's refusal for blocks of so many positions each, or 13.
fn unwritten(card: &[u8], visits: u32) -> FilmdiskAnswer
    ensures { (x : Showing)
        → (let read = read_card visits card.now in result ≡ verdict_answer (answer x read.verdict.number too_short read).verdict) }
{
    let read = card_reader::read_card_of(card, visits);
    let verdict = read.verdict;
    if verdict.number != ACCEPTED {
        return verdict_answer(verdict);
    }
    verdict_answer(Verdict {
        number: TOO_SHORT,
        place: 0,
    })
}

// A refusal after which the plan string is all zero.
fn refused(plan: &mut [u8], number: u32, place: usize) -> FilmdiskAnswer
    requires { plan_size ≤ length plan.old }
    ensures { (result ≡ verdict_answer (record { number = number; place = place }))
        × (plan.new ≡ with_words plan.old 0 (plan_words blank_plan)) }
{
    clear_plan(plan);
    verdict_answer(Verdict { number, place })
}

// Plans the legal figures of a card, their arrays lent, where the plan string has its length: 13, then 12. Where it is not `listed`, `leads` is
// a scratch, which stays as it was.
fn plan_into<'a>(
    figures: Scalars,
    sizes: &'a [u32; 64],
    times: &'a [u32; 64],
    table: &'a [u32; 257],
    showing: u32,
    plan: &mut [u8],
    positions: &mut [u8],
    leads: &mut [u8],
    listed: bool,
) -> FilmdiskAnswer
    requires { (length plan.old ≡ plan_size) × Legal (visits_of (showing_of showing)) (figures_from figures sizes.now times.now table.now) }
    ensures { let card = accepted_card (figures_from figures sizes.now times.now table.now) in
        ReadCall listed (showing_of showing) card plan.old positions.old leads.old
        result plan.new positions.new leads.new }
{
    let made = plan_legal(
        figures, sizes, times, table, showing, positions, leads, listed,
    );
    let answer = verdict_answer(Verdict {
        number: made.number,
        place: 0,
    });
    if made.number == TOO_SHORT {
        return answer;
    }
    if made.number != ACCEPTED {
        return refused(plan, made.number, 0);
    }
    write_parts(plan, figures, sizes, times, table, made.plan);
    answer
}

// Plans a card in a showing, with a lead list or with a scratch in its place: 1 to 11, 25, 26, 28 and 30, then 13, then 12.
fn plan_showing(
    showing: u32,
    card: &[u8],
    plan: &mut [u8],
    positions: &mut [u8],
    leads: &mut [u8],
    listed: bool,
) -> FilmdiskAnswer
    ensures { PlanCall listed (showing_of showing) card.now plan.old positions.old leads.old
        result plan.new positions.new leads.new }
{
    let visits = visits_of(showing);
    if plan.len() != PLAN_BYTES {
        return unwritten(card, visits);
    }
    let mut sizes = [0u32; 64];
    let mut times = [0u32; 64];
    let mut blocks = [0u32; 16];
    let mut table = [0u32; 257];
    let told = card_reader::read_into(
        card,
        &mut sizes,
        &mut times,
        &mut blocks,
        &mut table,
        visits,
    );
    match told {
        Told::Refused(number, place) => refused(plan, number, place),
        Told::Figures(kind, zones, films, bytes, rate) => plan_into(
            Scalars {
                kind,
                zones,
                films,
                blocks,
                bytes,
                rate,
            },
            &sizes,
            &times,
            &table,
            showing,
            plan,
            positions,
            leads,
            listed,
        ),
    }
}

// Plans a card for one showing.
pub fn plan(card: &[u8], plan: &mut [u8], positions: &mut [u8], leads: &mut [u8]) -> FilmdiskAnswer
    ensures { (result ≡ plan_answer one card.now plan.old positions.old leads.old)
        × (plan.new ≡ plan_string one card.now plan.old positions.old leads.old)
        × (positions.new ≡ positions_string one card.now plan.old positions.old leads.old)
        × (leads.new ≡ leads_string one card.now plan.old positions.old leads.old) }
{
    plan_showing(ONCE, card, plan, positions, leads, true)
}

// Plans a card as a loop.
pub fn plan_loop(
    card: &[u8],
    plan: &mut [u8],
    positions: &mut [u8],
    leads: &mut [u8],
) -> FilmdiskAnswer
    ensures { (result ≡ plan_answer loop card.now plan.old positions.old leads.old)
        × (plan.new ≡ plan_string loop card.now plan.old positions.old leads.old)
        × (positions.new ≡ positions_string loop card.now plan.old positions.old leads.old)
        × (leads.new ≡ leads_string loop card.now plan.old positions.old leads.old) }
{
    plan_showing(LOOP, card, plan, positions, leads, true)
}

// Plans a card for one showing of half blocks.
pub fn plan_pairs(
    card: &[u8],
    plan: &mut [u8],
    positions: &mut [u8],
    leads: &mut [u8],
) -> FilmdiskAnswer
    ensures { (result ≡ plan_answer pairs card.now plan.old positions.old leads.old)
        × (plan.new ≡ plan_string pairs card.now plan.old positions.old leads.old)
        × (positions.new ≡ positions_string pairs card.now plan.old positions.old leads.old)
        × (leads.new ≡ leads_string pairs card.now plan.old positions.old leads.old) }
{
    plan_showing(PAIRS, card, plan, positions, leads, true)
}

// Plans a card for one showing with a scratch in place of the lead list; the scratch stays as it was.
pub fn plan_scratch(
    card: &[u8],
    plan: &mut [u8],
    positions: &mut [u8],
    scratch: &mut [u8],
) -> FilmdiskAnswer
    ensures { (result ≡ plan_scratch_answer one card.now plan.old positions.old scratch.old)
        × (plan.new ≡ plan_scratch_string one card.now plan.old positions.old scratch.old)
        × (positions.new ≡ positions_scratch_string one card.now plan.old positions.old scratch.old)
        × (scratch.new ≡ scratch.old) }
{
    plan_showing(ONCE, card, plan, positions, scratch, false)
}

// Plans a card as a loop with a scratch in place of the lead list; the scratch stays as it was.
pub fn plan_loop_scratch(
    card: &[u8],
    plan: &mut [u8],
    positions: &mut [u8],
    scratch: &mut [u8],
) -> FilmdiskAnswer
    ensures { (result ≡ plan_scratch_answer loop card.now plan.old positions.old scratch.old)
        × (plan.new ≡ plan_scratch_string loop card.now plan.old positions.old scratch.old)
        × (positions.new ≡ positions_scratch_string loop card.now plan.old positions.old scratch.old)
        × (scratch.new ≡ scratch.old) }
{
    plan_showing(LOOP, card, plan, positions, scratch, false)
}

// Plans a card for one showing of half blocks with a scratch in place of the lead list; the scratch stays as it was.
pub fn plan_pairs_scratch(
    card: &[u8],
    plan: &mut [u8],
    positions: &mut [u8],
    scratch: &mut [u8],
) -> FilmdiskAnswer
    ensures { (result ≡ plan_scratch_answer pairs card.now plan.old positions.old scratch.old)
        × (plan.new ≡ plan_scratch_string pairs card.now plan.old positions.old scratch.old)
        × (positions.new ≡ positions_scratch_string pairs card.now plan.old positions.old scratch.old)
        × (scratch.new ≡ scratch.old) }
{
    plan_showing(PAIRS, card, plan, positions, scratch, false)
}
