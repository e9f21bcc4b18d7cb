// Begin: filling slots start to play, then asked slots are granted in the order of asking, none behind one that has to wait.
#![tactic(auto)]

ghost use Rattle.std.specs.Prelude.{◌≡◌, List, ℕ, ◌-◌, ◌≤◌, ◌<◌, length, get_or};
ghost use Rattle.words.specs.Words.{words_of};
ghost use Rattle.numbers.specs.Limits.{max_rate, max_streams};
ghost use Rattle.rules.specs.Supply.{Supply};
ghost use Rattle.rules.specs.Scheduler.{started_slot, started};
ghost use Rattle.rules.specs.Order.{eldest_lead, served};
ghost use Rattle.rules.specs.Arrays.{slot_of, slots_of};
ghost use Rattle.turns.specs.Served.{dropped_by};
ghost use Rattle.desk.specs.Shown.{Slots};
ghost use Rattle.desk_layout.specs.Layout.{desk_in, desk_size};
ghost use Rattle.floor.specs.Floor.{most_lead};
ghost use Rattle.grants.specs.Grants.{most_floor, leads_by_slot, InLine, Asked, Asks, served_to};
ghost use Rattle.grants.specs.Line.{taken, Queued, Lined};

use desk_columns::{film_starts, rate_in, zone_sizes, zone_times};
use floor::next_lead;
use numbers::slots::{FILLING, PLAYING};
use numbers::units::PARTS;
use streams::product;

// The kind of a slot after it was tested against the mark: a filling one that holds it plays.
fn started_kind(kind: u32, held: u32, mark: u64) -> u32
    ensures { (p : Supply ℕ) (b : ℕ) → slot_of p result b held ≡ started_slot p mark (slot_of p kind b held) }
{
    match kind {
        FILLING => {
            if mark <= product(PARTS, held) {
                return PLAYING;
            }
            FILLING
        }
        _ => kind,
    }
}

// Each filling slot that holds the mark becomes playing. The slots from `streams` on are free.
pub fn start_playing(kinds: &mut [u32; 256], held: &[u32; 256], streams: usize, mark: u64)
    requires { (streams ≤ max_streams) × (length kinds.old ≡ 256) }
    ensures { (p : Supply ℕ) (xs : List ℕ) → Slots p streams kinds.old xs held.now
        → slots_of p kinds.new xs held.now ≡ started p mark (slots_of p kinds.old xs held.now) }
{
    for i in 0..streams {
        kinds[i] = started_kind(kinds[i], held[i], mark);
    }
}

// A line in which nobody stands.
pub fn empty_line() -> [u8; 257]
    ensures { length result ≡ 257 }
{
    [0u8; 257]
}

// One where a place is taken, and 0 for a slot that does not ask.
fn asks(place: u32) -> usize
    ensures { result ≡ taken place }
{
    if place > 0 {
        return 1;
    }
    0
}

// Puts the slot at each place, from 1 on, into a list, and answers how many ask. Entry 0 is for slots that do not; those from `streams` on are
// such.
pub fn line_up(places: &[u32; 256], streams: usize, line: &mut [u8; 257]) -> usize
    requires { (streams ≤ max_streams) × (Queued places.now streams) × (length line.old ≡ 257) }
    ensures { Lined places.now line.new result }
{
    let mut count = 0;
    for (i, &place) in places[..streams].iter().enumerate() {
        line[place as usize] = i as u8;
        count += asks(place);
    }
    count
}

// A slot as it stands in the line.
fn wide(slot: u8) -> usize
    ensures { (result ≡ slot) × (result < max_streams) }
{
    slot as usize
}

// The slot at a place of the line.
fn slot_at(line: &[u8; 257], place: usize) -> usize
    requires { place ≤ max_streams }
    ensures { (result ≡ get_or line.now place 0) × (result < max_streams) }
{
    wide(line[place])
}

// The lead of the eldest of so many requests to a desk, 0 where none asks. It is found here, by the list or without one.
pub fn eldest_lead(
    desk: &[u8],
    line: &[u8; 257],
    count: usize,
    positions: &[u8],
    leads: &[u8],
    listed: bool,
) -> u32
    requires { (desk_size ≤ length desk.now) × (count ≤ max_streams)
        × InLine listed (desk_in (words_of desk.now)) positions.now leads.now line.now count }
    ensures lead { let g = leads_by_slot listed (desk_in (words_of desk.now)) positions.now leads.now in
        (p : Supply ℕ) (n : ℕ) (ks xs hs qs : List ℕ) → Slots p n ks xs hs → Asked p g ks xs hs qs
        → Lined qs line.now count → result ≡ eldest_lead p (slots_of p ks xs hs) qs }
    ensures most { result ≤ most_lead }
{
    if count == 0 {
        return 0;
    }
    let sizes = zone_sizes(desk);
    let times = zone_times(desk);
    let starts = film_starts(desk);
    let slot = slot_at(line, 1);
    next_lead(
        desk, slot, &sizes, &times, &starts, positions, leads, listed,
    )
}

// So many asked slots of a desk become filling in their line, eldest first, up to the first that has to wait; the answer is how many do. The lead
// of each is found as it is tried. `floor` is the low-water mark of the leads before, and `level` the least that a playing slot holds.
pub fn grant_asked(
    desk: &[u8],
    kinds: &mut [u32; 256],
    line: &[u8; 257],
    count: usize,
    positions: &[u8],
    leads: &[u8],
    listed: bool,
    floor: u64,
    level: u64,
) -> u32
    requires { (desk_size ≤ length desk.now) × (length kinds.old ≡ 256) × (count ≤ max_streams)
        × InLine listed (desk_in (words_of desk.now)) positions.now leads.now line.now count
        × ((desk_in (words_of desk.now)).plan.figures.rate ≤ max_rate) × (floor ≤ most_floor) }
    ensures { let d = desk_in (words_of desk.now) in (let g = leads_by_slot listed d positions.now leads.now in
        (p : Supply ℕ) (n : ℕ) (xs hs qs : List ℕ) → Slots p n kinds.old xs hs
        → Asks p d.plan.figures.rate floor level g kinds.old xs hs qs → Lined qs line.now count
        → served p 256 (slots_of p kinds.old xs hs) qs ≡ served_to (slots_of p kinds.new xs hs) (dropped_by result qs)) }
{
    if count == 0 {
        return 0;
    }
    let rate = rate_in(desk);
    let sizes = zone_sizes(desk);
    let times = zone_times(desk);
    let starts = film_starts(desk);
    let mut mark = floor;
    for granted in 0..count {
        let slot = slot_at(line, granted + 1);
        let lead = next_lead(
            desk, slot, &sizes, &times, &starts, positions, leads, listed,
        );
        mark += product(rate, lead);
        if level < mark {
            return granted as u32;
        }
        kinds[slot] = FILLING;
    }
    count as u32
}

// A place after so many were granted: theirs are 0.
fn dropped(place: u32, granted: u32) -> u32
    ensures { result ≡ place - granted }
{
    place.saturating_sub(granted)
}

// Drops every place by the number of grants. The slots from `streams` on have none.
pub fn drop_places(places: &mut [u32; 256], streams: usize, granted: u32)
    requires { (streams ≤ max_streams) × (length places.old ≡ 256) × ((i : ℕ) → streams ≤ i → get_or places.old i 0 ≡ 0) }
    ensures { places.new ≡ dropped_by granted places.old }
{
    for i in 0..streams {
        places[i] = dropped(places[i], granted);
    }
}
