// The test of the slots of a desk where it lies.
ghost use Rattle.std.specs.Prelude.{◌≡◌, true, false, ◌≢◌, ℕ, ◌*◌, ◌≤◌, ◌<◌, length};
ghost use Rattle.numbers.specs.Limits.{max_streams};
ghost use Rattle.numbers.specs.Slots.{free, waiting, playing};
ghost use Rattle.numbers.specs.Units.{parts};
ghost use Rattle.words.specs.Words.{words_of};
ghost use Rattle.card.specs.Card.{Legal};
ghost use Rattle.desk.specs.Desk.{visits_in};
ghost use Rattle.desk_layout.specs.Layout.{desk_in, desk_size};
ghost use Rattle.soundness.specs.Facts.{Tells, LastKind, TidyWithin, TidyAt, WellNamed, Shelved, RestZero, FirstTold, Told, PlayersHold};

use desk_columns::{
    asking, buffer_in, film_length, films_in, held_in, kind_in, length_in, next_in, place_in,
    showing_in,
};
use numbers::limits::NAME_STEP;
use numbers::showings::LOOP;
use numbers::slots::{DRAINING, FILLING, FREE, PLAYING, WAITING};
use numbers::units::PARTS;

// What the test of the slots tells: are they tidy, and if so, how many ask?
#[derive(Clone, Copy)]
pub struct Tested {
    pub tidy: bool,
    pub asked: u32,
}

// The greatest kind of a slot: in a loop none is tail.
fn last_kind(showing: u32) -> u32
    ensures { LastKind showing result }
{
    if showing == LOOP {
        return PLAYING;
    }
    DRAINING
}

// One where so, else 0.
fn one_if(so: bool) -> u32
    ensures { (result ≡ 0 → so ≡ false) × (so ≡ false → result ≡ 0) }
{
    if so {
        return 1;
    }
    0
}

// A number where so, else 0.
fn bits_if(so: bool, bits: u32) -> u32
    ensures { (so ≡ true → result ≡ bits) × (so ≡ false → result ≡ 0) }
{
    if so {
        return bits;
    }
    0
}

// The end of the blocks that a slot may name: 1 for a free one.
fn name_end(kind: u32, blocks: u32) -> u32
    ensures { (kind ≡ free → result ≡ 1) × (kind ≢ free → result ≡ blocks) }
{
    if kind == FREE {
        return 1;
    }
    blocks
}

// Some bit where a slot is not sound, the low-water mark (01: the floor) left out; `top` is the greatest kind, `blocks` N, and `next` the block
// within the film. Without a jump, so that the compiler takes several slots at a time.
fn untidy(top: u32, blocks: u32, buffer: u32, kind: u32, next: u32, held: u32) -> u32
    ensures { (w : ℕ) → LastKind w top
        → (result ≡ 0 → TidyWithin w blocks buffer kind next held) × (TidyWithin w blocks buffer kind next held → result ≡ 0) }
{
    let ranges = one_if(top < kind) | one_if(buffer < held);
    let empty = bits_if(kind < FILLING, held);
    let named = bits_if(kind < DRAINING, one_if(name_end(kind, blocks) <= next));
    let tail = bits_if(kind == DRAINING, one_if(next != blocks) | one_if(held == 0));
    ranges | empty | named | tail
}

// Some bit where a slot's word names no film of so many, or is not 0 in a free slot.
fn misnamed(films: u32, kind: u32, name: u32) -> u32
    ensures { (result ≡ 0 → WellNamed films kind name) × (WellNamed films kind name → result ≡ 0) }
{
    one_if(films <= name / NAME_STEP) | bits_if(kind == FREE, name)
}

// Are all slots from n on zero?
fn rest_zero(desk: &[u8], streams: usize) -> bool
    requires { (streams ≤ max_streams) × (desk_size ≤ length desk.now) }
    ensures { Tells result (RestZero (desk_in (words_of desk.now)) streams 256) }
{
    let mut bits: u32 = 0;
    for i in streams..256 {
        bits |= kind_in(desk, i) | next_in(desk, i) | held_in(desk, i) | place_in(desk, i);
    }
    bits == 0
}

// The place of a slot that does not ask, and 0 of one that asks.
fn idle_place(kind: u32, place: u32) -> u32
    ensures { (kind ≡ waiting → result ≡ 0) × (kind ≢ waiting → result ≡ place) }
{
    if kind == WAITING {
        return 0;
    }
    place
}

// Some bit where slot i of a desk is not tidy; `top` is the greatest kind. Where the shelf has one film, a slot's word is its block.
fn untidy_at<const ONE_FILM: bool>(desk: &[u8], top: u32, i: usize) -> u32
    requires long { desk_size ≤ length desk.now }
    requires below { i < max_streams }
    requires shelf { Shelved ONE_FILM (desk_in (words_of desk.now)).plan.figures }
    requires last { LastKind (desk_in (words_of desk.now)).plan.showing top }
    ensures { let d = desk_in (words_of desk.now) in (result ≡ 0 → TidyAt d i) × (TidyAt d i → result ≡ 0) }
{
    let buffer = buffer_in(desk);
    let kind = kind_in(desk, i);
    let name = next_in(desk, i);
    let held = held_in(desk, i);
    if ONE_FILM {
        return untidy(top, length_in(desk, 0), buffer, kind, name, held);
    }
    let blocks = film_length(desk, name);
    let block = name % NAME_STEP;
    untidy(top, blocks, buffer, kind, block, held) | misnamed(films_in(desk), kind, name)
}

// Are the first n slots tidy, and the places of those that do not ask 0? And how many ask? `streams` is n. All are looked at, so that the compiler
// takes several at a time.
fn test_first<const ONE_FILM: bool>(desk: &[u8], streams: usize) -> Tested
    requires few { streams ≤ max_streams }
    requires long { desk_size ≤ length desk.now }
    requires shelf { Shelved ONE_FILM (desk_in (words_of desk.now)).plan.figures }
    ensures { FirstTold (desk_in (words_of desk.now)) streams result.tidy result.asked }
{
    let top = last_kind(showing_in(desk));
    let mut bits: u32 = 0;
    let mut asked: u32 = 0;
    for i in 0..streams {
        let kind = kind_in(desk, i);
        let slot = untidy_at::<ONE_FILM>(desk, top, i);
        bits |= slot | idle_place(kind, place_in(desk, i));
        asked += asking(kind);
    }
    Tested {
        tidy: bits == 0,
        asked,
    }
}

// Are all slots tidy, those from n on zero, and the places of those that do not ask 0? And how many ask? `streams` is n.
pub fn test_slots(desk: &[u8], streams: usize) -> Tested
    requires { let d = desk_in (words_of desk.now) in (streams ≤ max_streams) × (desk_size ≤ length desk.now) × (streams ≡ d.plan.streams)
        × Legal (visits_in d.plan) d.plan.figures }
    ensures { Told (desk_in (words_of desk.now)) streams result.tidy result.asked }
{
    if !rest_zero(desk, streams) {
        return Tested {
            tidy: false,
            asked: 0,
        };
    }
    if films_in(desk) == 1 {
        return test_first::<true>(desk, streams);
    }
    test_first::<false>(desk, streams)
}

// The whole bytes that hold a mark given in two-millionths of a byte: rounded up.
fn least_held(mark: u64) -> u64
    ensures { (h : ℕ) → (result ≤ h → mark ≤ parts * h) × (mark ≤ parts * h → result ≤ h) }
{
    if mark == 0 {
        return 0;
    }
    (mark - 1) / (PARTS as u64) + 1
}

// Does a slot hold so many bytes where it plays?
fn holds_least(kind: u32, held: u32, least: u64) -> bool
    ensures { Tells result (kind ≡ playing → least ≤ held) }
{
    match kind {
        PLAYING => least <= (held as u64),
        _ => true,
    }
}

// Does each playing slot of the first n hold at least the low-water mark (01: the floor), given in two-millionths of a byte? All are looked
// at, so that the compiler takes several at a time.
pub fn players_hold(desk: &[u8], streams: usize, mark: u64) -> bool
    requires { (streams ≤ max_streams) × (desk_size ≤ length desk.now) }
    ensures { let d = desk_in (words_of desk.now) in Tells result (PlayersHold streams d.kinds d.held mark) }
{
    let least = least_held(mark);
    let mut all = true;
    for i in 0..streams {
        all &= holds_least(kind_in(desk, i), held_in(desk, i), least);
    }
    all
}
