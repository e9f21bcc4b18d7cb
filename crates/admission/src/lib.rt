// The calls open, join and leave. A join and a leave are judged and written as one, a move.
#![tactic(auto)]

ghost use Rattle.std.specs.Prelude.{◌≡◌, map, ◌≤◌, ◌<◌, length};
ghost use Rattle.numbers.specs.Limits.{max_streams};
ghost use Rattle.card.specs.Card.{length_in};
ghost use Rattle.rules.specs.Order.{dropped};
ghost use Rattle.plan.specs.Scratch.{leads_by};
ghost use Rattle.desk.specs.Desk.{open_desk, join_desk, leave_desk};
ghost use Rattle.desk.specs.Scratch.{open_scratch, join_scratch, leave_scratch};
ghost use Rattle.words.specs.Words.{words_of};
ghost use Rattle.desk_layout.specs.Layout.{desk_in, desk_size};
ghost use Rattle.admission.specs.Moves.{join_of, leave_of, move_desk, move_scratch, state_verdict, kind_after, next_after};
ghost use Rattle.admission.specs.Places.{place_after, places_after, Placeless, Nameable, Movable};

use card::Verdict;
use desk::{Answer, Desk, answer_with, blank_desk, fresh_desk, verdict, with_slot};
use desk_columns::{all_places, asked_in, films_in, kind_in, length_in, phase_in, streams_in};
use desk_record::string_of;
use numbers::limits::{MAX_FILMS, NAME_STEP};
use numbers::refusals::{
    ACCEPTED, NO_SUCH_BLOCK, NO_SUCH_FILM, NO_SUCH_SLOT, NOT_SOUND, SLOT_STATE, TOO_SHORT,
    WRONG_PHASE,
};
use numbers::slots::{BETWEEN, FREE, WAITING};
use plan::{Plan, is_short};
use soundness::is_sound;

// Opens a desk with its lists, or with a scratch in the lead list's place.
fn opened(plan: Plan, positions: &[u8], leads: &[u8], listed: bool) -> Answer
    ensures { result ≡ open_desk plan positions.now (leads_by listed plan leads.now) }
{
    if !plan_check::is_plan(plan, positions, leads, listed) {
        return answer_with(blank_desk(), NOT_SOUND, 0);
    }
    answer_with(fresh_desk(plan), ACCEPTED, 0)
}

// Opens a desk: 14 where the record and the lists are not the plan of its figures; the new desk is then all zero.
pub fn open(plan: Plan, positions: &[u8], leads: &[u8]) -> Answer
    ensures { result ≡ open_desk plan positions.now leads.now }
{
    opened(plan, positions, leads, true)
}

// Opens a desk with a scratch: 13 where it is too short, then 14.
pub fn open_scratch(plan: Plan, positions: &[u8], scratch: &[u8]) -> Answer
    ensures { result ≡ open_scratch plan positions.now scratch.now }
{
    if is_short(scratch) {
        return answer_with(blank_desk(), TOO_SHORT, 0);
    }
    opened(plan, positions, scratch, false)
}

// A join of a slot at a start block of a film, or a leave of it.
#[derive(Clone, Copy)]
pub struct Move {
    pub joins: bool,
    pub slot: u32,
    pub block: u32,
    pub film: u32,
}

// A join.
pub fn join_of(slot: u32, block: u32, film: u32) -> Move
    ensures { result ≡ join_of slot block film }
{
    Move {
        joins: true,
        slot,
        block,
        film,
    }
}

// A leave.
pub fn leave_of(slot: u32) -> Move
    ensures { result ≡ leave_of slot }
{
    Move {
        joins: false,
        slot,
        block: 0,
        film: 0,
    }
}

// The kind that an accepted move gives its slot.
pub fn kind_after(step: Move) -> u32
    ensures { result ≡ kind_after step }
{
    if step.joins {
        return WAITING;
    }
    FREE
}

// And the word of its film and next block.
pub fn next_after(step: Move) -> u32
    requires { Nameable step }
    ensures { result ≡ next_after step }
{
    if step.joins {
        return NAME_STEP * step.film + step.block;
    }
    0
}

// The place that an accepted move gives its slot: a join stands behind all that ask, and who leaves has none.
pub fn place_after(desk: &[u8], step: Move) -> u32
    requires { (desk_size ≤ length desk.now) × ((desk_in (words_of desk.now)).plan.streams ≤ max_streams) }
    ensures { result ≡ place_after (desk_in (words_of desk.now)) step }
{
    if step.joins {
        let asked = asked_in(desk, streams_in(desk) as usize);
        return asked + 1;
    }
    0
}

// A place when the one at place `gone` no longer asks.
pub fn lowered(place: u32, gone: u32) -> u32
    ensures { result ≡ dropped gone place }
{
    if place == gone {
        return 0;
    }
    if place > gone {
        return place - 1;
    }
    place
}

// Lowers all places so, in place. The slots from `streams` on have none.
fn lower_places(places: &mut [u32; 256], streams: usize, gone: u32)
    requires { (length places.old ≡ max_streams) × (streams ≤ max_streams) × (0 < gone) × Placeless streams places.old }
    ensures { places.new ≡ map (dropped gone) places.old }
{
    for place in &mut places[..streams] {
        *place = lowered(*place, gone);
    }
}

// The places of a desk after an accepted move: where the slot had one, later ones drop by one.
pub fn places_after(desk: &[u8], step: Move) -> [u32; 256]
    requires { (desk_size ≤ length desk.now) × Movable (desk_in (words_of desk.now)) step }
    ensures { result ≡ places_after (desk_in (words_of desk.now)) step }
{
    let slot = step.slot as usize;
    let mut places = all_places(desk);
    let gone = places[slot];
    places[slot] = place_after(desk, step);
    if gone == 0 {
        return places;
    }
    lower_places(&mut places, streams_in(desk) as usize, gone);
    places
}

// The blocks of a film of the desk in a lent string, 0 where there is none.
fn blocks_of(desk: &[u8], film: u32) -> u32
    requires { desk_size ≤ length desk.now }
    ensures { result ≡ length_in (desk_in (words_of desk.now)).plan.figures film }
{
    if film < MAX_FILMS {
        return length_in(desk, film as usize);
    }
    0
}

// What a move is refused for by the kind of its slot, by its film of so many and by its block of so many: 17, 31, 18, or 0.
fn judge_state(kind: u32, films: u32, blocks: u32, step: Move) -> Verdict
    ensures { result ≡ state_verdict kind films blocks step }
{
    let slot = step.slot as usize;
    if step.joins {
        if kind != FREE {
            return verdict(SLOT_STATE, slot);
        }
        if step.film >= films {
            return verdict(NO_SUCH_FILM, slot);
        }
        if step.block >= blocks {
            return verdict(NO_SUCH_BLOCK, slot);
        }
        return verdict(ACCEPTED, 0);
    }
    if kind == FREE {
        return verdict(SLOT_STATE, slot);
    }
    verdict(ACCEPTED, 0)
}

// The refusal of a move of the desk in a lent string, 14 to 17, 31, 18, or 0.
pub fn judge_move(desk: &[u8], positions: &[u8], leads: &[u8], listed: bool, step: Move) -> Verdict
    requires { desk_size ≤ length desk.now }
    ensures { let d = desk_in (words_of desk.now) in
        result ≡ (move_desk d positions.now (leads_by listed d.plan leads.now) step).verdict }
{
    if !is_sound(desk, positions, leads, listed) {
        return verdict(NOT_SOUND, 0);
    }
    if phase_in(desk) != BETWEEN {
        return verdict(WRONG_PHASE, 0);
    }
    let slot = step.slot as usize;
    if slot >= streams_in(desk) as usize {
        return verdict(NO_SUCH_SLOT, slot);
    }
    judge_state(
        kind_in(desk, slot),
        films_in(desk),
        blocks_of(desk, step.film),
        step,
    )
}

// A desk after a move; a refused one answers the desk it was given.
fn moved(desk: Desk, positions: &[u8], leads: &[u8], listed: bool, step: Move) -> Answer
    ensures { result ≡ move_desk desk positions.now (leads_by listed desk.plan leads.now) step }
{
    let string = string_of(desk);
    let verdict = judge_move(&string, positions, leads, listed, step);
    if verdict.number != ACCEPTED {
        return Answer { verdict, desk };
    }
    let slot = step.slot as usize;
    let places = places_after(&string, step);
    answer_with(
        with_slot(desk, slot, kind_after(step), next_after(step), places),
        ACCEPTED,
        0,
    )
}

// A free slot becomes asked (rules: waiting), with its film and start block: 14 to 17, 31, 18. A refused call answers the desk it was given.
pub fn join(desk: Desk, positions: &[u8], leads: &[u8], slot: u32, block: u32, film: u32) -> Answer
    ensures { result ≡ join_desk desk positions.now leads.now slot block film }
{
    moved(desk, positions, leads, true, join_of(slot, block, film))
}

// An occupied slot becomes free, all zero: 14 to 17. A refused call answers the desk it was given.
pub fn leave(desk: Desk, positions: &[u8], leads: &[u8], slot: u32) -> Answer
    ensures { result ≡ leave_desk desk positions.now leads.now slot }
{
    moved(desk, positions, leads, true, leave_of(slot))
}

// A desk after a move with a scratch: 13 where it is too short, then 14 to 17, 31, 18.
fn moved_scratch(desk: Desk, positions: &[u8], scratch: &[u8], step: Move) -> Answer
    ensures { result ≡ move_scratch desk positions.now scratch.now step }
{
    if is_short(scratch) {
        return answer_with(desk, TOO_SHORT, 0);
    }
    moved(desk, positions, scratch, false, step)
}

// A join with a scratch: 13, then 14 to 17, 31, 18.
pub fn join_scratch(
    desk: Desk,
    positions: &[u8],
    scratch: &[u8],
    slot: u32,
    block: u32,
    film: u32,
) -> Answer
    ensures { result ≡ join_scratch desk positions.now scratch.now slot block film }
{
    moved_scratch(desk, positions, scratch, join_of(slot, block, film))
}

// A leave with a scratch: 13, then 14 to 17.
pub fn leave_scratch(desk: Desk, positions: &[u8], scratch: &[u8], slot: u32) -> Answer
    ensures { result ≡ leave_scratch desk positions.now scratch.now slot }
{
    moved_scratch(desk, positions, scratch, leave_of(slot))
}
