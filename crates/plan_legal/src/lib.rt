// The plan of legal figures and its lists, with a lead list or with a scratch in its place: 13 where a list is too short, then 12 where no
// stream fits.
#![tactic(auto)]

ghost use Rattle.std.specs.Prelude.{◌≡◌, cond, ◌*◌, ◌≤◌, ◌<◌, length};
ghost use Rattle.numbers.specs.Limits.{max_number};
ghost use Rattle.numbers.specs.Refusals.{no_stream};
ghost use Rattle.words.specs.Words.{words_of};
ghost use Rattle.card.specs.Card.{Legal};
ghost use Rattle.card.specs.Read.{figures_from};
ghost use Rattle.placement.specs.Showing.{visits_of};
ghost use Rattle.plan.specs.Plan.{showing_of, plan_of, plan_from, positions_of, leads_of};
ghost use Rattle.plan.specs.Answer.{plan_fault, filled};
ghost use Rattle.plan.specs.Scratch.{leads_lent, entries_asked, lists_short};

use card::Scalars;
use numbers::limits::SCRATCH_LENGTH;
use numbers::refusals::{ACCEPTED, NO_STREAM, TOO_SHORT};
use plan::{Numbers, blocks_before, visits_of};
use plan_numbers::plan_numbers;
use shelf_lists::{write_shelf_leads, write_shelf_positions};
use zones::sum_positions;

// The number that a plan of so many streams answers: 12 where not even one fits.
fn stream_fault(streams: u32) -> u32
    ensures { ((result ≡ 0 → ⊥) → (streams ≡ 0) × (result ≡ no_stream)) × (result ≡ 0 → 0 < streams) }
{
    if streams == 0 {
        return NO_STREAM;
    }
    ACCEPTED
}

// What the planner makes of legal figures: 13, 12 or 0, and where it is 0 the numbers of their plan.
#[derive(Clone, Copy)]
pub struct Made {
    pub number: u32,
    pub plan: Numbers,
}

// No plan is made.
fn not_made(number: u32) -> Made
    ensures { result.number ≡ number }
{
    Made {
        number,
        plan: Numbers {
            streams: 0,
            buffer: 0,
            worst2: 0,
            margin: 0,
            showing: 0,
            worstat: 0,
        },
    }
}

// The entries asked of a lead list, or of the scratch in its place.
fn entries_asked(blocks: u32, listed: bool) -> u32
    ensures { result ≡ entries_asked listed blocks }
{
    if listed {
        return blocks;
    }
    SCRATCH_LENGTH
}

// Is the positions list too short for blocks of so many visits each, or the lead list or scratch beside it?
fn lists_short(blocks: u32, visits: u32, positions: &[u8], leads: &[u8], listed: bool) -> bool
    requires { visits * blocks ≤ max_number }
    ensures { result ≡ lists_short listed visits blocks positions.now leads.now }
{
    if words::entries(positions) < (visits * blocks) as usize {
        return true;
    }
    words::entries(leads) < entries_asked(blocks, listed) as usize
}

// Plans legal figures, their arrays lent, in a showing: 13, then 12. The leads of half blocks come out as 0. Where it is not `listed`, `leads` is
// a scratch, which stays as it was. A refusal leaves both lists.
pub fn plan_legal<'a>(
    figures: Scalars,
    sizes: &'a [u32; 64],
    times: &'a [u32; 64],
    table: &'a [u32; 257],
    showing: u32,
    positions: &mut [u8],
    leads: &mut [u8],
    listed: bool,
) -> Made
    requires { Legal (visits_of (showing_of showing)) (figures_from figures sizes.now times.now table.now) }
    ensures { let x = showing_of showing in let f = figures_from figures sizes.now times.now table.now in
        let fault = plan_fault x f (length (words_of positions.old)) (length (words_of (leads_lent listed x f leads.old))) in
        (result.number ≡ fault) × (result.number ≡ 0 → plan_from f result.plan ≡ plan_of x f)
        × (positions.new ≡ filled 0 fault positions.old (positions_of x f))
        × (leads.new ≡ cond listed (filled 0 fault leads.old (leads_of x f)) leads.old) }
{
    let films = figures.films;
    let blocks = figures.blocks;
    let all = blocks_before(&blocks, films);
    if lists_short(all, visits_of(showing), positions, leads, listed) {
        return not_made(TOO_SHORT);
    }
    let own = plan_numbers(figures, sizes, times, table, showing);
    let number = stream_fault(own.streams);
    if number != ACCEPTED {
        return not_made(number);
    }
    let worst2 = own.worst2;
    let made = Made { number, plan: own };
    let total = sum_positions(sizes, figures.zones);
    write_shelf_positions(showing, total, &blocks, films, positions);
    if !listed {
        return made;
    }
    write_shelf_leads(sizes, times, showing, total, &blocks, films, worst2, leads);
    made
}
