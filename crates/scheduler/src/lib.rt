// Begin and end of a sweep. (Open, join and leave stand in crate admission.)
#![tactic(auto)]

ghost use Rattle.std.specs.Prelude.{◌≡◌, ◌*◌, ◌/◌, ◌≤◌, length};
ghost use Rattle.numbers.specs.Limits.{max_streams};
ghost use Rattle.words.specs.Words.{words_of, with_words};
ghost use Rattle.plan.specs.Scratch.{leads_by};
ghost use Rattle.desk.specs.Desk.{begin_desk, fetch_list_after, end_desk};
ghost use Rattle.desk.specs.Scratch.{begin_scratch, fetch_list_scratch, end_scratch};
ghost use Rattle.desk_layout.specs.Layout.{desk_in, desk_size};
ghost use Rattle.entry_layout.specs.Entries.{rows};
ghost use Rattle.sweep.specs.Steps.{swept_of};

use card::Verdict;
use desk::{Answer, Begun, Desk, Fetches, answer_with, not_begun, verdict, zeros};
use desk_columns::{
    all_held, all_kinds, buffer_in, bytes_in, overheads, phase_in, rate_in, streams_in, visits_in,
};
use desk_record::string_of;
use draws::{judge_draws, most_drawn};
use entry_layout::write_entries;
use fetches::sweep_bound;
use gather::gather;
use numbers::refusals::{ACCEPTED, NOT_SOUND, TOO_SHORT, WRONG_PHASE};
use numbers::slots::{BETWEEN, SWEEPING};
use plan::is_short;
use soundness::{is_sound, test_desk};
use sweep::{Swept, begin_sweep, end_sweep, not_swept};

// Judges a begin of the desk in a lent string, where the caller has room for so many fetch entries: 14, 15, 13. It answers what the begin
// changes, and not the desk.
pub fn judge_begin(desk: &[u8], positions: &[u8], leads: &[u8], listed: bool, room: usize) -> Swept
    requires { desk_size ≤ length desk.now }
    ensures { let d = desk_in (words_of desk.now) in
        result ≡ swept_of (begin_desk d positions.now (leads_by listed d.plan leads.now) room) }
{
    let test = test_desk(desk, positions, leads, listed);
    if !test.sound {
        return not_swept(desk, NOT_SOUND);
    }
    if phase_in(desk) != BETWEEN {
        return not_swept(desk, WRONG_PHASE);
    }
    if room < (visits_in(desk) * streams_in(desk)) as usize {
        return not_swept(desk, TOO_SHORT);
    }
    begin_sweep(desk, positions, leads, listed, test.leads)
}

// A begin with its lists, or with a scratch in the lead list's place.
fn begun(desk: Desk, positions: &[u8], leads: &[u8], listed: bool, room: usize) -> Begun
    ensures { result ≡ begin_desk desk positions.now (leads_by listed desk.plan leads.now) room }
{
    let string = string_of(desk);
    let swept = judge_begin(&string, positions, leads, listed, room);
    let verdict = swept.verdict;
    if verdict.number != ACCEPTED {
        return not_begun(desk, verdict.number);
    }
    let kinds = swept.kinds;
    let places = swept.places;
    let fetches = swept.fetches;
    let mut begun = desk;
    begun.phase = SWEEPING;
    begun.kinds = kinds;
    begun.places = places;
    Begun {
        verdict,
        desk: begun,
        bound: swept.bound,
        fetches,
    }
}

// Begins a sweep, where the caller has room for so many fetch entries: 14, 15, 13.
pub fn begin(desk: Desk, positions: &[u8], leads: &[u8], room: usize) -> Begun
    ensures { result ≡ begin_desk desk positions.now leads.now room }
{
    begun(desk, positions, leads, true, room)
}

// A begin with a scratch: 13 where it is too short, then 14, 15, 13.
pub fn begin_scratch(desk: Desk, positions: &[u8], scratch: &[u8], room: usize) -> Begun
    ensures { result ≡ begin_scratch desk positions.now scratch.now room }
{
    if is_short(scratch) {
        return not_begun(desk, TOO_SHORT);
    }
    begun(desk, positions, scratch, false, room)
}

// Writes the fetches of a begin into a lent byte string, twelve bytes an entry: position, slot, block.
fn put_fetches(list: Fetches, fetches: &mut [u8])
    requires { (list.count ≤ max_streams) × (3 * list.count ≤ length (words_of fetches.old)) }
    ensures { fetches.new ≡ with_words fetches.old 0 (rows 0 list.count list) }
{
    write_entries(
        &list.positions,
        &list.slots,
        &list.blocks,
        list.count as usize,
        fetches,
    );
}

// A begin with its lists, or with a scratch in the lead list's place, whose fetches are written into a lent byte string.
fn begun_into(desk: Desk, positions: &[u8], leads: &[u8], listed: bool, fetches: &mut [u8]) -> Begun
    ensures { let ls = leads_by listed desk.plan leads.now in let room = length (words_of fetches.old) / 3 in
        (result ≡ begin_desk desk positions.now ls room) × (fetches.new ≡ fetch_list_after desk positions.now ls room fetches.old) }
{
    let room = words::entries(fetches) / 3;
    let answer = begun(desk, positions, leads, listed, room);
    put_fetches(answer.fetches, fetches);
    answer
}

// Begins a sweep and writes its fetches into a lent byte string.
pub fn begin_into(desk: Desk, positions: &[u8], leads: &[u8], fetches: &mut [u8]) -> Begun
    ensures { (result ≡ begin_desk desk positions.now leads.now (length (words_of fetches.old) / 3))
        × (fetches.new ≡ fetch_list_after desk positions.now leads.now (length (words_of fetches.old) / 3)
        fetches.old) }
{
    begun_into(desk, positions, leads, true, fetches)
}

// The same with a scratch.
pub fn begin_into_scratch(desk: Desk, positions: &[u8], scratch: &[u8], fetches: &mut [u8]) -> Begun
    ensures { let room = length (words_of fetches.old) / 3 in
        (result ≡ begin_scratch desk positions.now scratch.now room)
        × (fetches.new ≡ fetch_list_scratch desk positions.now scratch.now room fetches.old) }
{
    if is_short(scratch) {
        not_begun(desk, TOO_SHORT)
    } else {
        begun_into(desk, positions, scratch, false, fetches)
    }
}

// Judges an end of the desk in a lent string, with a draw for each of the n slots: 14, 15, 19, 20, 21.
pub fn judge_end(desk: &[u8], positions: &[u8], leads: &[u8], listed: bool, draws: &[u8]) -> Verdict
    requires { desk_size ≤ length desk.now }
    ensures { let d = desk_in (words_of desk.now) in
        result ≡ (end_desk d positions.now (leads_by listed d.plan leads.now) draws.now).verdict }
{
    if !is_sound(desk, positions, leads, listed) {
        return verdict(NOT_SOUND, 0);
    }
    if phase_in(desk) != SWEEPING {
        return verdict(WRONG_PHASE, 0);
    }
    let bytes = bytes_in(desk);
    let rate = rate_in(desk);
    let streams = streams_in(desk) as usize;
    let room = buffer_in(desk) - bytes;
    let table = overheads(desk);
    let held = all_held(desk);
    let kinds = all_kinds(desk);
    let visits = visits_in(desk);
    let mut times = zeros();
    let mut spots = zeros();
    let mut others = zeros();
    gather(
        desk,
        &kinds,
        positions,
        streams,
        visits,
        &mut times,
        &mut spots,
        &mut others,
    );
    let bound = sweep_bound(&kinds, &held, &times, streams, room, visits, &table);
    judge_draws(&kinds, &held, streams, most_drawn(rate, bound), draws)
}

// An end with its lists, or with a scratch in the lead list's place.
fn ended(desk: Desk, positions: &[u8], leads: &[u8], listed: bool, draws: &[u8]) -> Answer
    ensures { result ≡ end_desk desk positions.now (leads_by listed desk.plan leads.now) draws.now }
{
    let string = string_of(desk);
    let verdict = judge_end(&string, positions, leads, listed, draws);
    if verdict.number != ACCEPTED {
        return Answer { verdict, desk };
    }
    answer_with(end_sweep(desk, draws), ACCEPTED, 0)
}

// Ends a sweep with a draw for each of the n slots: 14, 15, 19, 20, 21.
pub fn end(desk: Desk, positions: &[u8], leads: &[u8], draws: &[u8]) -> Answer
    ensures { result ≡ end_desk desk positions.now leads.now draws.now }
{
    ended(desk, positions, leads, true, draws)
}

// An end with a scratch: 13 where it is too short, then 14, 15, 19, 20, 21.
pub fn end_scratch(desk: Desk, positions: &[u8], scratch: &[u8], draws: &[u8]) -> Answer
    ensures { result ≡ end_scratch desk positions.now scratch.now draws.now }
{
    if is_short(scratch) {
        return answer_with(desk, TOO_SHORT, 0);
    }
    ended(desk, positions, scratch, false, draws)
}
