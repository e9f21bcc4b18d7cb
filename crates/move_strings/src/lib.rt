// Joins and leaves on lent byte strings: what the bytes say, judged, and written back. Strings lent to one call share no byte.
#![tactic(auto)]

pub mod scratch; // with a scratch in the lead list's place

ghost use Rattle.std.specs.Prelude.{◌≡◌, map, ◌≤◌, ◌<◌, length};
ghost use Rattle.numbers.specs.Limits.{max_streams};
ghost use Rattle.words.specs.Words.{words_of, with_words};
ghost use Rattle.rules.specs.Order.{dropped};
ghost use Rattle.desk.specs.Records.{with_slot};
ghost use Rattle.admission.specs.Moves.{kind_after, next_after};
ghost use Rattle.admission.specs.Places.{places_after, Placeless, Movable};
ghost use Rattle.desk_layout.specs.Layout.{desk_words, desk_in, desk_size, with_places};
ghost use Rattle.desk_calls.specs.Calls.{join_answer, join_string, leave_answer, leave_string};
ghost use Rattle.desk_calls.specs.Inner.{move_answer, move_string, desk_by};

use admission::{
    Move, join_of, judge_move, kind_after, leave_of, lowered, next_after, place_after,
};
use desk_calls::number_answer;
use desk_columns::{place_in, streams_in};
use desk_layout::{DESK_BYTES, offsets, put_slot};
use layout::{FilmdiskAnswer, verdict_answer};
use numbers::refusals::{ACCEPTED, NOT_SOUND};
use words::put_word;

// Lowers the places of a desk string when the one at place `gone` no longer asks. The slots from `streams` on have none.
fn lower_places(desk: &mut [u8], streams: usize, gone: u32)
    requires { (desk_size ≤ length desk.old) × (streams ≤ max_streams) × (0 < gone) × Placeless streams (desk_in (words_of desk.old)).places }
    ensures { let d = desk_in (words_of desk.old) in desk.new ≡ with_words desk.old 0
        (desk_words (with_places d (map (dropped gone) d.places))) }
{
    for i in 0..streams {
        let place = place_in(desk, i);
        put_word(desk, offsets::PLACES + i, lowered(place, gone));
    }
}

// Writes an accepted move: its slot, and all places where one that asked leaves.
fn write_move(desk: &mut [u8], step: Move)
    requires { (desk_size ≤ length desk.old) × Movable (desk_in (words_of desk.old)) step }
    ensures { let d = desk_in (words_of desk.old) in desk.new ≡ with_words desk.old 0
        (desk_words (with_slot d step.slot (kind_after step) (next_after step) (places_after d step))) }
{
    let slot = step.slot as usize;
    let kind = kind_after(step);
    let next = next_after(step);
    let streams = streams_in(desk) as usize;
    let gone = place_in(desk, slot);
    let place = place_after(desk, step);
    put_slot(desk, slot, kind, next, place);
    if gone == 0 {
        return;
    }
    lower_places(desk, streams, gone);
}

// Makes a move: 14 to 17, 31, 18. A refused one writes nothing.
pub fn make_move(
    desk: &mut [u8],
    positions: &[u8],
    leads: &[u8],
    listed: bool,
    step: Move,
) -> FilmdiskAnswer
    ensures { let ls = desk_by listed desk.old leads.now in
        (result ≡ move_answer desk.old positions.now ls step)
        × (desk.new ≡ move_string desk.old positions.now ls step) }
{
    if desk.len() != DESK_BYTES {
        return number_answer(NOT_SOUND);
    }
    let judged = judge_move(desk, positions, leads, listed, step);
    if judged.number != ACCEPTED {
        return verdict_answer(judged);
    }
    write_move(desk, step);
    verdict_answer(judged)
}

// A free slot becomes asked, behind all that ask: 14 to 17, 31, 18. A refused call writes nothing, another its slot alone.
pub fn join(
    desk: &mut [u8],
    positions: &[u8],
    leads: &[u8],
    slot: u32,
    block: u32,
    film: u32,
) -> FilmdiskAnswer
    ensures { (result ≡ join_answer desk.old positions.now leads.now slot block film)
        × (desk.new ≡ join_string desk.old positions.now leads.now slot block film) }
{
    make_move(desk, positions, leads, true, join_of(slot, block, film))
}

// An occupied slot becomes free: 14 to 17. A refused call writes nothing, another its slot, and where that one asked the places of all.
pub fn leave(desk: &mut [u8], positions: &[u8], leads: &[u8], slot: u32) -> FilmdiskAnswer
    ensures { (result ≡ leave_answer desk.old positions.now leads.now slot)
        × (desk.new ≡ leave_string desk.old positions.now leads.now slot) }
{
    make_move(desk, positions, leads, true, leave_of(slot))
}
