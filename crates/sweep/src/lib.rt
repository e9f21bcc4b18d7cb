// The steps of a begin and of an end, on a desk that is known to be sound and on what was gathered for its slots.
#![tactic(auto)]

ghost use Rattle.std.specs.Prelude.{◌≡◌, ◌≤◌, length};
ghost use Rattle.words.specs.Words.{words_of};
ghost use Rattle.desk.specs.Ready.{Ready};
ghost use Rattle.desk_layout.specs.Layout.{desk_in, desk_size};
ghost use Rattle.ends.specs.Ends.{Drawn};
ghost use Rattle.sweep.specs.Steps.{begun_desk, swept_of, not_swept, ended_desk};
ghost use Rattle.sweep.specs.Begins as begins;
ghost use Rattle.sweep.specs.Begins.{Serves, Begins};

use card::Verdict;
use desk::{Desk, Fetches, no_fetches, verdict, zeros};
use desk_columns::{
    all_held, all_kinds, all_next, all_places, buffer_in, bytes_in, overheads, rate_in, streams_in,
    visits_in,
};
use desk_record::string_of;
use ends::end_slots;
use fetches::{list_fetches, sweep_bound};
use floor::{least_level, low_water};
use gather::gather;
use grants::{drop_places, eldest_lead, empty_line, grant_asked, line_up, start_playing};
use numbers::refusals::ACCEPTED;
use numbers::slots::BETWEEN;

// What a begin answers of itself and changes of the desk; the rest of the desk stays, but for the phase.
#[derive(Clone, Copy)]
pub struct Swept {
    pub verdict: Verdict,
    pub kinds: [u32; 256],
    pub places: [u32; 256],
    pub bound: u32,
    pub fetches: Fetches,
}

// A refused begin of the desk in a lent string: its kinds and places, no fetches and no bound.
pub fn not_swept(desk: &[u8], number: u32) -> Swept
    requires { desk_size ≤ length desk.now }
    ensures { result ≡ not_swept (desk_in (words_of desk.now)) number }
{
    Swept {
        verdict: Verdict { number, place: 0 },
        kinds: all_kinds(desk),
        places: all_places(desk),
        bound: 0,
        fetches: no_fetches(),
    }
}

// The kinds and places that a begin leaves.
#[derive(Clone, Copy)]
struct Served {
    kinds: [u32; 256],
    places: [u32; 256],
}

// What a begin makes of the slots of the desk in a lent string: while a request waits a filling slot starts to play only with the eldest's lead
// added to the floor, then asked slots are granted, eldest first. `sum` is what the leads of filling and playing slots add up to.
fn serve(
    desk: &[u8],
    held: &[u32; 256],
    positions: &[u8],
    leads: &[u8],
    listed: bool,
    sum: u32,
) -> Served
    requires { (desk_size ≤ length desk.now) × Serves (desk_in (words_of desk.now)) listed held.now positions.now leads.now sum }
    ensures { begins.Served (desk_in (words_of desk.now)) result.kinds result.places }
{
    let bytes = bytes_in(desk);
    let rate = rate_in(desk);
    let streams = streams_in(desk) as usize;
    let mut kinds = all_kinds(desk);
    let mut places = all_places(desk);
    let mut line = empty_line();
    let count = line_up(&places, streams, &mut line);
    let eldest = eldest_lead(desk, &line, count, positions, leads, listed);
    let mark = low_water(bytes, rate, sum + eldest);
    start_playing(&mut kinds, held, streams, mark);
    let level = least_level(&kinds, held, streams);
    let floor = low_water(bytes, rate, sum);
    let granted = grant_asked(
        desk, &mut kinds, &line, count, positions, leads, listed, floor, level,
    );
    drop_places(&mut places, streams, granted);
    Served { kinds, places }
}

// A begin of the desk in a lent string: filling slots start to play, asked slots are granted, and the sweep's fetches are listed; `sum` is what
// the leads of filling and playing slots add up to. The next blocks are gathered once it is known which slots read.
pub fn begin_sweep(desk: &[u8], positions: &[u8], leads: &[u8], listed: bool, sum: u32) -> Swept
    requires { (desk_size ≤ length desk.now) × Begins (desk_in (words_of desk.now)) listed positions.now leads.now sum }
    ensures { result ≡ swept_of (begun_desk (desk_in (words_of desk.now))) }
{
    let visits = visits_in(desk);
    let streams = streams_in(desk) as usize;
    let room = buffer_in(desk) - bytes_in(desk);
    let table = overheads(desk);
    let next = all_next(desk);
    let held = all_held(desk);
    let served = serve(desk, &held, positions, leads, listed, sum);
    let kinds = served.kinds;
    let places = served.places;
    let mut times = zeros();
    let mut spots = zeros();
    let mut others = zeros();
    gather(
        desk,
        &kinds,
        positions,
        streams,
        visits,
        &mut times,
        &mut spots,
        &mut others,
    );
    let bound = sweep_bound(&kinds, &held, &times, streams, room, visits, &table);
    let fetches = list_fetches(&kinds, &next, &held, &spots, &others, streams, room, visits);
    Swept {
        verdict: verdict(ACCEPTED, 0),
        kinds,
        places,
        bound,
        fetches,
    }
}

// An end with draws that nothing turns down.
pub fn end_sweep(desk: Desk, draws: &[u8]) -> Desk
    requires { (Ready desk) × (Drawn desk (words_of draws.now)) }
    ensures { result ≡ ended_desk desk (words_of draws.now) }
{
    let string = string_of(desk);
    let mut kinds = desk.kinds;
    let mut next = desk.next;
    let mut held = desk.held;
    end_slots(&string, &mut kinds, &mut next, &mut held, draws);
    let mut ended = desk;
    ended.phase = BETWEEN;
    ended.kinds = kinds;
    ended.next = next;
    ended.held = held;
    ended
}
