// The answer to figures that were read or judged.
ghost use Rattle.std.specs.Prelude.{◌≡◌};
ghost use Rattle.card.specs.Card.{Legal};
ghost use Rattle.card.specs.Read.{accepted};
ghost use Rattle.placement.specs.Showing.{visits_of};
ghost use Rattle.plan.specs.Plan.{showing_of, plan_from};
ghost use Rattle.plan.specs.Answer.{refusal, planned, positions_after};
ghost use Rattle.plan.specs.Scratch.{leads_lent, lent_after};

use card::{CardRead, Figures, Scalars, Verdict};
use numbers::refusals::ACCEPTED;
use plan::{Numbers, Plan, Planned, blank_plan};
use plan_legal::plan_legal;

// A refusal.
fn refused(number: u32, place: usize) -> Planned
    ensures { result ≡ refusal number place }
{
    Planned {
        verdict: Verdict { number, place },
        plan: blank_plan(),
    }
}

// An accepted answer.
fn planned_with(figures: Figures, own: Numbers) -> Planned
    ensures { (result.verdict ≡ accepted) × (result.plan ≡ plan_from figures own) }
{
    Planned {
        verdict: Verdict {
            number: ACCEPTED,
            place: 0,
        },
        plan: Plan {
            figures,
            streams: own.streams,
            buffer: own.buffer,
            worst2: own.worst2,
            margin: own.margin,
            showing: own.showing,
            worstat: own.worstat,
        },
    }
}

// Plans figures that were read or judged, in a showing: their refusal, else 13, then 12. Where it is not `listed`, `leads` is a scratch, which
// stays as it was.
pub fn plan_figures(
    read: CardRead,
    showing: u32,
    positions: &mut [u8],
    leads: &mut [u8],
    listed: bool,
) -> Planned
    requires { read.verdict.number ≡ 0 → Legal (visits_of (showing_of showing)) read.figures }
    ensures { let x = showing_of showing in let lent = leads_lent listed x read.figures leads.old in
        (result ≡ planned x read positions.old lent) × (positions.new ≡ positions_after x read positions.old lent)
        × (leads.new ≡ lent_after listed x read positions.old leads.old) }
{
    let verdict = read.verdict;
    if verdict.number != ACCEPTED {
        return refused(verdict.number, verdict.place);
    }
    let figures = read.figures;
    let blocks = figures.blocks;
    let made = plan_legal(
        Scalars {
            kind: figures.kind,
            zones: figures.zones,
            films: figures.films,
            blocks,
            bytes: figures.bytes,
            rate: figures.rate,
        },
        &read.figures.positions,
        &read.figures.times,
        &read.figures.table,
        showing,
        positions,
        leads,
        listed,
    );
    if made.number != ACCEPTED {
        return refused(made.number, 0);
    }
    planned_with(read.figures, made.plan)
}
