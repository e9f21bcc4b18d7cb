// The plan as a definition: its record and lists, the planner's answers, the check of a plan, and the laws that the code and the desk
// rely on; the plan that is all zero, and a record's figures with their verdict.
#![tactic(auto)]

ghost use Rattle.std.specs.Prelude.{◌≡◌, ◌≢◌, ℕ, ◌+◌, ◌*◌, ◌≤◌, ◌<◌, get_or};
ghost use Rattle.laws.specs.Starts.{start_of};
ghost use Rattle.numbers.specs.Limits.{max_films, max_number};
ghost use Rattle.numbers.specs.Refusals.{no_stream};
ghost use Rattle.numbers.specs.Units.{parts};
ghost use Rattle.card.specs.declared.Figures.{Figures};
ghost use Rattle.card.specs.Card.{Legal, total_positions, length_in, blocks_of};
ghost use Rattle.card.specs.Read.{figures_from};
ghost use Rattle.placement.specs.Placement.{Laying};
ghost use Rattle.placement.specs.Showing.{Showing, pairs, visits_of, worst_of};
ghost use Rattle.pacing.specs.Streams.{cap_of, load};
ghost use Rattle.plan.specs.Plan.{showing_of, plan_from, start_in, time_on, free_in, position_in, entries_of, worst2_in, worst2_of, worst_at_of, over_of, streams_of};
ghost use Rattle.plan.specs.Plan.{lead_in, blank_plan};
ghost use Rattle.plan.specs.Answer.{plan_fault, judged};
ghost use Rattle.plan.specs.Greatest.{Starts, GreatestRun, MostStreams, TooMany, EarliestPair};
ghost use Rattle.plan.specs.Halves.{NoBetter, HalvesPlan};
ghost use Rattle.plan.specs.Promise.{LeadLaws, Promise};
ghost use Rattle.plan.specs.Scratch.{scratch_short};

use card::{CardRead, Figures, Scalars, Verdict};
use numbers::limits::SCRATCH_LENGTH;
use numbers::showings::PAIRS;

// A plan; all zero where there is none.
#[derive(Clone, Copy)]
pub struct Plan {
    pub figures: Figures,
    // n, the most streams that may be fed.
    pub streams: u32,
    // Bytes of a stream's buffer.
    pub buffer: u32,
    // The greatest time of two successive blocks, in microseconds; of half blocks twice the greatest time of a block.
    pub worst2: u32,
    // The most that a lead can be, in half microseconds.
    pub margin: u32,
    // Which showing it is: 0 once through, 1 round and round, 2 once through in half blocks.
    pub showing: u32,
    // The first block of the worst pair, the earliest where several are equal, counted through the films.
    pub worstat: u32,
}

// The numbers of a plan beside its figures.
#[derive(Clone, Copy)]
pub struct Numbers {
    pub streams: u32,
    pub buffer: u32,
    pub worst2: u32,
    pub margin: u32,
    pub showing: u32,
    pub worstat: u32,
}

// The answer of the planner.
#[derive(Clone, Copy)]
pub struct Planned {
    pub verdict: Verdict,
    pub plan: Plan,
}

// Is a scratch in the lead list's place too short?
pub fn is_short(scratch: &[u8]) -> bool
    ensures { result ≡ scratch_short scratch.now }
{
    words::entries(scratch) < SCRATCH_LENGTH as usize
}

// How many positions a block takes in the showing that a word tells: two halves, or one.
pub fn visits_of(showing: u32) -> u32
    ensures { result ≡ visits_of (showing_of showing) }
{
    if showing == PAIRS {
        return 2;
    }
    1
}

// The blocks of the first `films` films: all that stand in the lists before the next one.
pub fn blocks_before(blocks: &[u32; 16], films: u32) -> u32
    requires { (films ≤ max_films) × (start_of (λ i. get_or blocks.now i 0) films ≤ max_number) }
    ensures { result ≡ start_of (λ i. get_or blocks.now i 0) films }
{
    blocks[..films as usize].iter().sum()
}

// The single numbers among a plan's figures, and its films.
pub fn scalars_in(plan: Plan) -> Scalars
    ensures { figures_from result plan.figures.positions plan.figures.times plan.figures.table ≡ plan.figures }
{
    let figures = plan.figures;
    let blocks = figures.blocks;
    Scalars {
        kind: figures.kind,
        zones: figures.zones,
        films: figures.films,
        blocks,
        bytes: figures.bytes,
        rate: figures.rate,
    }
}

// The numbers of a plan beside its figures.
pub fn numbers_in(plan: Plan) -> Numbers
    ensures { plan_from plan.figures result ≡ plan }
{
    Numbers {
        streams: plan.streams,
        buffer: plan.buffer,
        worst2: plan.worst2,
        margin: plan.margin,
        showing: plan.showing,
        worstat: plan.worstat,
    }
}

// A plan that is all zero.
pub fn blank_plan() -> Plan
    ensures { result ≡ blank_plan }
{
    let none = [0u32; 64];
    Plan {
        figures: Figures {
            kind: 0,
            zones: 0,
            positions: none,
            times: none,
            films: 0,
            blocks: [0u32; 16],
            bytes: 0,
            rate: 0,
            table: [0u32; 257],
        },
        streams: 0,
        buffer: 0,
        worst2: 0,
        margin: 0,
        showing: 0,
        worstat: 0,
    }
}

// The figures of a record with their verdict.
pub fn judged_figures(figures: Figures) -> CardRead
    ensures { result ≡ judged 1 figures }
{
    judged_figures_of(figures, 1)
}

// The same for blocks of so many positions each, 2 for half blocks.
pub fn judged_figures_of(figures: Figures, visits: u32) -> CardRead
    ensures { result ≡ judged visits figures }
{
    CardRead {
        verdict: card::judge_figures_of(figures, visits),
        figures,
    }
}

// No laying of a film on the positions that were free for it is better, in any showing: its own worst time is at least the film's, and with it and
// the other films' worst times as they are no number above the plan's streams meets the formula. The plan's own is a laying there, the films before
// it lie above, and worst2 is the greatest of the films' own.
pub fn placement_best()
    ensures best { (x : Showing) (f : Figures) → Legal (visits_of x) f → (i : ℕ) → i < f.films
        → (l : ℕ → ℕ) → Laying (free_in x f i) (visits_of x * length_in f i) l
        → (worst2_in x f i ≤ worst_of x (time_on f) l (length_in f i))
        × ((w n : ℕ) → worst_of x (time_on f) l (length_in f i) ≤ w → ((j : ℕ) → j < f.films → j ≢ i → worst2_in x f j ≤ w)
        → streams_of x f < n → n ≤ cap_of x → parts * f.bytes < load f.rate w (over_of x f) n) }
    ensures own { (x : Showing) (f : Figures) → Legal (visits_of x) f → (i : ℕ) → i < f.films
        → Laying (free_in x f i) (visits_of x * length_in f i) (position_in x f i)
        × (worst_of x (time_on f) (position_in x f i) (length_in f i) ≡ worst2_in x f i) }
    ensures free { (x : Showing) (f : Figures) → Legal (visits_of x) f → (i : ℕ) → i < f.films
        → (free_in x f i + visits_of x * start_in f i ≡ total_positions f)
        × ((j v : ℕ) → j < i → v < visits_of x * length_in f j → free_in x f i ≤ position_in x f j v) }
    ensures greatest { (x : Showing) (f : Figures) → Legal (visits_of x) f → ((i : ℕ) → i < f.films → worst2_in x f i ≤ worst2_of x f)
        × ((i : ℕ) × (i < f.films) × (worst2_in x f i ≡ worst2_of x f)) }
{}

// Half blocks, in document 02's words: no matching of a film on any 2 × N different positions of those that were free for it has a smaller greatest
// pair time, and with it and the other films' as they are, p being the greatest, no number above the plan's streams, up to 128, meets
// c × (n × p + the overhead for 2 × n visits) ≤ 1,000,000 × B, which they meet. The buffer is 3 × B, leads and margin are 0, worst2 is 2 × p, worstat
// the first block taking p; a block's lower position stands first.
pub fn halves_matched_best()
    ensures best { (f : Figures) → Legal 2 f → (i : ℕ) → i < f.films → (l : ℕ → ℕ) → Laying (free_in pairs f i) (2 * length_in f i) l
        → NoBetter f i l }
    ensures own { (f : Figures) → Legal 2 f → HalvesPlan f }
{}

// The lead laws hold of every legal shelf in every showing, and of each that feeds a stream all that the desk relies on.
pub fn lead_promise()
    ensures leads { (x : Showing) (f : Figures) → Legal (visits_of x) f → LeadLaws x f }
    ensures all { (x : Showing) (f : Figures) → Legal (visits_of x) f → 0 < streams_of x f → Promise x f }
{}

// A lead is the greatest sum over the runs from its block, the empty run included, and no other number is: runs to the end of its film, in a loop
// runs of at most N blocks round the circle. For every film and block of a shelf.
pub fn lead_is_the_greatest()
    ensures greatest { (x : Showing) (f : Figures) → Legal (visits_of x) f → (i b : ℕ) → i < f.films → Starts x (length_in f i) b
        → GreatestRun x f i b (lead_in x f i b) }
    ensures only { (x : Showing) (f : Figures) → Legal (visits_of x) f → (i b m : ℕ) → i < f.films → Starts x (length_in f i) b
        → GreatestRun x f i b m → m ≡ lead_in x f i b }
{}

// The streams of a plan are the greatest whole number from 1 to 256, of half blocks to 128, that meets the formula, and no other number is. 12 is answered only
// where no number meets it, and for legal figures, where the lists have room, always if not even 1 does.
pub fn streams_are_the_most()
    ensures most { (x : Showing) (f : Figures) → 0 < streams_of x f → MostStreams x f (streams_of x f) }
    ensures only { (x : Showing) (f : Figures) (n : ℕ) → MostStreams x f n → n ≡ streams_of x f }
    ensures none { (x : Showing) (f : Figures) (np nl : ℕ) → plan_fault x f np nl ≡ no_stream → (n : ℕ) → 1 ≤ n → n ≤ cap_of x → TooMany x f n }
    ensures one { (x : Showing) (f : Figures) → Legal (visits_of x) f → (np nl : ℕ) → entries_of x f ≤ np → blocks_of f ≤ nl → TooMany x f 1
        → plan_fault x f np nl ≡ no_stream }
{}

// The block that a plan names, counted through the films, is the first of a pair within its film that takes worst2, no pair before it does, and no other
// block has both.
pub fn worst_pair_is_the_earliest()
    ensures earliest { (x : Showing) (f : Figures) → Legal (visits_of x) f → EarliestPair x f (worst_at_of x f) }
    ensures only { (x : Showing) (f : Figures) → Legal (visits_of x) f → (b : ℕ) → EarliestPair x f b → b ≡ worst_at_of x f }
{}
