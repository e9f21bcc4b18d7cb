// Sweeps on lent byte strings: begins, ends and what a slot may draw. Strings lent to one call share no byte.
#![tactic(auto)]

pub mod scratch; // with a scratch in the lead list's place

ghost use Rattle.std.specs.Prelude.{◌≡◌, ◌≤◌, length};
ghost use Rattle.numbers.specs.Slots.{sweeping};
ghost use Rattle.words.specs.Words.{words_of, with_words};
ghost use Rattle.desk_layout.specs.Layout.{desk_words, desk_in, desk_size, with_kinds, with_places};
ghost use Rattle.entry_layout.specs.Entries.{rows};
ghost use Rattle.desk_calls.specs.Calls.{begin_answer, begin_string, fetch_string, end_answer, end_string, draw_limit_of};
ghost use Rattle.desk_calls.specs.Inner.{FetchesFit, swept_answer, desk_by};

use desk_calls::number_answer;
use desk_columns::{all_held, all_kinds, all_next, kind_in, rate_in};
use desk_layout::{DESK_BYTES, put_kinds, put_places, put_slots};
use draws::most_drawn;
use ends::end_slots;
use entry_layout::write_entries;
use layout::{FilmdiskAnswer, verdict_answer};
use numbers::limits::MAX_STREAMS;
use numbers::refusals::{ACCEPTED, NOT_SOUND};
use numbers::slots::{BETWEEN, SWEEPING};
use scheduler::{judge_begin, judge_end};
use sweep::Swept;

// Writes what an accepted begin changes: the fetches, the phase, the kinds and the places.
fn write_begun(desk: &mut [u8], fetches: &mut [u8], swept: Swept) -> FilmdiskAnswer
    requires { FetchesFit swept.fetches.count fetches.old × (desk_size ≤ length desk.old) }
    ensures { (result ≡ swept_answer swept)
        × (desk.new ≡ with_words desk.old 0
        (desk_words (with_places (with_kinds (desk_in (words_of desk.old)) sweeping swept.kinds) swept.places)))
        × (fetches.new ≡ with_words fetches.old 0 (rows 0 swept.fetches.count swept.fetches)) }
{
    let list = swept.fetches;
    write_entries(
        &list.positions,
        &list.slots,
        &list.blocks,
        list.count as usize,
        fetches,
    );
    put_kinds(desk, SWEEPING, &swept.kinds);
    put_places(desk, &swept.places);
    let verdict = swept.verdict;
    FilmdiskAnswer {
        number: verdict.number,
        place: verdict.place,
        count: list.count,
        bound: swept.bound,
    }
}

// Begins a sweep of a desk string of the right length. A refused call writes nothing.
fn begin_desk(
    desk: &mut [u8],
    positions: &[u8],
    leads: &[u8],
    listed: bool,
    fetches: &mut [u8],
) -> FilmdiskAnswer
    requires { length desk.old ≡ desk_size }
    ensures { let ls = desk_by listed desk.old leads.now in
        (result ≡ begin_answer desk.old positions.now ls fetches.old)
        × (desk.new ≡ begin_string desk.old positions.now ls fetches.old)
        × (fetches.new ≡ fetch_string desk.old positions.now ls fetches.old) }
{
    let room = words::entries(fetches) / 3;
    let swept = judge_begin(desk, positions, leads, listed, room);
    let judged = swept.verdict;
    if judged.number != ACCEPTED {
        return verdict_answer(judged);
    }
    write_begun(desk, fetches, swept)
}

// Begins a sweep with its lists, or with a scratch in the lead list's place.
pub fn begin_by(
    desk: &mut [u8],
    positions: &[u8],
    leads: &[u8],
    listed: bool,
    fetches: &mut [u8],
) -> FilmdiskAnswer
    ensures { let ls = desk_by listed desk.old leads.now in
        (result ≡ begin_answer desk.old positions.now ls fetches.old)
        × (desk.new ≡ begin_string desk.old positions.now ls fetches.old)
        × (fetches.new ≡ fetch_string desk.old positions.now ls fetches.old) }
{
    if desk.len() != DESK_BYTES {
        return number_answer(NOT_SOUND);
    }
    begin_desk(desk, positions, leads, listed, fetches)
}

// Begins a sweep: 14, 15, 13.
pub fn begin(desk: &mut [u8], positions: &[u8], leads: &[u8], fetches: &mut [u8]) -> FilmdiskAnswer
    ensures { (result ≡ begin_answer desk.old positions.now leads.now fetches.old)
        × (desk.new ≡ begin_string desk.old positions.now leads.now fetches.old)
        × (fetches.new ≡ fetch_string desk.old positions.now leads.now fetches.old) }
{
    begin_by(desk, positions, leads, true, fetches)
}

// Ends a sweep of a desk string of the right length. A refused call writes nothing.
fn end_desk(
    desk: &mut [u8],
    positions: &[u8],
    leads: &[u8],
    listed: bool,
    draws: &[u8],
) -> FilmdiskAnswer
    requires { length desk.old ≡ desk_size }
    ensures { let ls = desk_by listed desk.old leads.now in
        (result ≡ end_answer desk.old positions.now ls draws.now)
        × (desk.new ≡ end_string desk.old positions.now ls draws.now) }
{
    let judged = judge_end(desk, positions, leads, listed, draws);
    if judged.number != ACCEPTED {
        return verdict_answer(judged);
    }
    let mut kinds = all_kinds(desk);
    let mut next = all_next(desk);
    let mut held = all_held(desk);
    end_slots(desk, &mut kinds, &mut next, &mut held, draws);
    put_slots(desk, BETWEEN, &kinds, &next, &held);
    verdict_answer(judged)
}

// Ends a sweep with its lists, or with a scratch in the lead list's place.
pub fn end_by(
    desk: &mut [u8],
    positions: &[u8],
    leads: &[u8],
    listed: bool,
    draws: &[u8],
) -> FilmdiskAnswer
    ensures { let ls = desk_by listed desk.old leads.now in
        (result ≡ end_answer desk.old positions.now ls draws.now)
        × (desk.new ≡ end_string desk.old positions.now ls draws.now) }
{
    if desk.len() != DESK_BYTES {
        return number_answer(NOT_SOUND);
    }
    end_desk(desk, positions, leads, listed, draws)
}

// Ends a sweep: 14, 15, 19, 20, 21.
pub fn end(desk: &mut [u8], positions: &[u8], leads: &[u8], draws: &[u8]) -> FilmdiskAnswer
    ensures { (result ≡ end_answer desk.old positions.now leads.now draws.now)
        × (desk.new ≡ end_string desk.old positions.now leads.now draws.now) }
{
    end_by(desk, positions, leads, true, draws)
}

// What a slot may draw in a sweep of this bound, by the desk that its begin left: one that plays or is tail the most, others 0. A string of
// another length has no slots, and a desk has 256.
pub fn draw_limit(desk: &[u8], slot: u32, bound: u32) -> u64
    ensures { result ≡ draw_limit_of desk.now slot bound }
{
    if desk.len() != DESK_BYTES {
        return 0;
    }
    if slot >= MAX_STREAMS {
        return 0;
    }
    draws::draw_limit(
        kind_in(desk, slot as usize),
        most_drawn(rate_in(desk), bound),
    )
}
