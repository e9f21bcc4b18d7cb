// The desk of document 01 as a record, its answers, and what each call makes of it; the records that its calls answer.
#![tactic(auto)]

ghost use Rattle.std.specs.Prelude.{◌≡◌, [], ◌<◌};
ghost use Rattle.desk.specs.Desk.{zeros, fresh_desk, blank_desk, verdict, fetches_of};
ghost use Rattle.desk.specs.Records.{answers, with_slot, not_begun};

use card::Verdict;
use plan::{Plan, blank_plan};

// A desk: a plan record, the phase (0 between sweeps, 1 in one) and 256 slots.
#[derive(Clone, Copy)]
pub struct Desk {
    pub plan: Plan,
    pub phase: u32,
    // 0 free, 1 asked, 2 filling, 3 playing, 4 tail.
    pub kinds: [u32; 256],
    // The film and the next block of each slot: 65,536 times the film, from 0, and the block within it.
    pub next: [u32; 256],
    // The bytes that each slot holds.
    pub held: [u32; 256],
    // The place of each asked slot, 1 for the eldest; of others 0.
    pub places: [u32; 256],
}

// The answer of an opening, a join, a leave and an end.
#[derive(Clone, Copy)]
pub struct Answer {
    pub verdict: Verdict,
    pub desk: Desk,
}

// The fetches of a sweep in their order: the first `count` places of each array; the others are zero.
#[derive(Clone, Copy)]
pub struct Fetches {
    pub count: u32,
    pub positions: [u32; 256],
    pub slots: [u32; 256],
    pub blocks: [u32; 256],
}

// The answer of a begin; count and bound are zero where it is refused.
#[derive(Clone, Copy)]
pub struct Begun {
    pub verdict: Verdict,
    pub desk: Desk,
    pub bound: u32,
    pub fetches: Fetches,
}

// An entry of the fetch list.
#[derive(Clone, Copy)]
pub struct Fetch {
    pub position: u32,
    pub slot: u32,
    pub block: u32,
}

// 256 zeros.
pub fn zeros() -> [u32; 256]
    ensures { result ≡ zeros }
{
    [0u32; 256]
}

// A desk of a plan, between sweeps, all slots free.
pub fn fresh_desk(plan: Plan) -> Desk
    ensures { result ≡ fresh_desk plan }
{
    Desk {
        plan,
        phase: 0,
        kinds: zeros(),
        next: zeros(),
        held: zeros(),
        places: zeros(),
    }
}

// A desk that is all zero.
pub fn blank_desk() -> Desk
    ensures { result ≡ blank_desk }
{
    fresh_desk(blank_plan())
}

// Document 01's number and place.
pub fn verdict(number: u32, place: usize) -> Verdict
    ensures { result ≡ verdict number place }
{
    Verdict { number, place }
}

// A desk with them.
pub fn answer_with(desk: Desk, number: u32, place: usize) -> Answer
    ensures { result ≡ answers desk number place }
{
    Answer {
        verdict: Verdict { number, place },
        desk,
    }
}

// The desk in which slot i has a kind and a next block of a film and holds nothing, with these places.
pub fn with_slot(desk: Desk, i: usize, kind: u32, next: u32, places: [u32; 256]) -> Desk
    requires { i < 256 }
    ensures { result ≡ with_slot desk i kind next places }
{
    let mut d = desk;
    d.kinds[i] = kind;
    d.next[i] = next;
    d.held[i] = 0;
    d.places = places;
    d
}

// No fetches.
pub fn no_fetches() -> Fetches
    ensures { result ≡ fetches_of [] }
{
    Fetches {
        count: 0,
        positions: zeros(),
        slots: zeros(),
        blocks: zeros(),
    }
}

// A refused begin: the desk it was given, no fetches and no bound.
pub fn not_begun(desk: Desk, number: u32) -> Begun
    ensures { result ≡ not_begun desk number }
{
    Begun {
        verdict: Verdict { number, place: 0 },
        desk,
        bound: 0,
        fetches: no_fetches(),
    }
}
