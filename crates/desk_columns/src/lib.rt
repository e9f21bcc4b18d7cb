// A desk where it lies in a lent byte string: one reader for each number, and for each array one of an entry or of all; how many slots ask.
#![tactic(auto, using(words::specs::Laws::words_length), unfolding(desk_layout::specs::Layout::desk_in))]

ghost use Rattle.std.specs.Prelude.{◌≡◌, ◌≤◌, ◌<◌, length, get_or, take, eqb};
ghost use Rattle.laws.specs.Bools.{bit};
ghost use Rattle.numbers.specs.Limits.{max_films, max_streams};
ghost use Rattle.numbers.specs.Slots.{waiting};
ghost use Rattle.words.specs.Words.{words_of};
ghost use Rattle.card.specs.Card.{length_in};
ghost use Rattle.pacing.specs.Shelf.{film_in};
ghost use Rattle.desk.specs.Desk.{visits_in};
ghost use Rattle.desk.specs.Asked.{asked_count};
ghost use Rattle.desk_layout.specs.Layout.{desk_in, desk_size};
ghost use Rattle.desk_columns.specs.Films.{ShelfSmall, StartsOf, HasStart, entry_of};

use desk_layout::offsets;
use numbers::limits::{MAX_FILMS, NAME_STEP};
use numbers::slots::WAITING;
use plan::visits_of;
use plan_layout::offsets as plan_offsets;
use words::{read_array, word_at};

// The zones of the disk.
pub fn zones_in(desk: &[u8]) -> u32
    requires { desk_size ≤ length desk.now }
    ensures { result ≡ (desk_in (words_of desk.now)).plan.figures.zones }
{
    word_at(desk, plan_offsets::ZONES)
}

// How many films the shelf has.
pub fn films_in(desk: &[u8]) -> u32
    requires { desk_size ≤ length desk.now }
    ensures { result ≡ (desk_in (words_of desk.now)).plan.figures.films }
{
    word_at(desk, plan_offsets::FILMS)
}

// N of film i.
pub fn length_in(desk: &[u8], i: usize) -> u32
    requires { (i < max_films) × (desk_size ≤ length desk.now) }
    ensures { result ≡ length_in (desk_in (words_of desk.now)).plan.figures i }
{
    word_at(desk, plan_offsets::BLOCKS + i)
}

// N of the film that a slot's word names, 0 where there is none.
pub fn film_length(desk: &[u8], name: u32) -> u32
    requires { desk_size ≤ length desk.now }
    ensures { result ≡ length_in (desk_in (words_of desk.now)).plan.figures (film_in name) }
{
    let film = (name / NAME_STEP) as usize;
    if film < MAX_FILMS as usize {
        return length_in(desk, film);
    }
    0
}

// N of each film.
pub fn all_lengths(desk: &[u8]) -> [u32; 16]
    requires { desk_size ≤ length desk.now }
    ensures { result ≡ (desk_in (words_of desk.now)).plan.figures.blocks }
{
    read_array(desk, plan_offsets::BLOCKS)
}

// Where each film begins in the lists, behind the blocks of those before it.
pub fn film_starts(desk: &[u8]) -> [u32; 16]
    requires { (desk_size ≤ length desk.now) × ShelfSmall (desk_in (words_of desk.now)).plan.figures }
    ensures { StartsOf (desk_in (words_of desk.now)).plan.figures result }
{
    let films = films_in(desk) as usize;
    let mut starts = [0u32; 16];
    let mut sum: u32 = 0;
    for i in 0..films {
        starts[i] = sum;
        sum += length_in(desk, i);
    }
    starts
}

// The number through the lists of the block that a slot's word names.
pub fn entry_of(starts: &[u32; 16], name: u32) -> u32
    requires { HasStart starts.now name }
    ensures { result ≡ entry_of starts.now name }
{
    let film = (name / NAME_STEP) as usize;
    starts[film] + name % NAME_STEP
}

// worst2.
pub fn worst2_in(desk: &[u8]) -> u32
    requires { desk_size ≤ length desk.now }
    ensures { result ≡ (desk_in (words_of desk.now)).plan.worst2 }
{
    word_at(desk, plan_offsets::WORST2)
}

// B, the bytes of a block.
pub fn bytes_in(desk: &[u8]) -> u32
    requires { desk_size ≤ length desk.now }
    ensures { result ≡ (desk_in (words_of desk.now)).plan.figures.bytes }
{
    word_at(desk, plan_offsets::BYTES)
}

// c.
pub fn rate_in(desk: &[u8]) -> u32
    requires { desk_size ≤ length desk.now }
    ensures { result ≡ (desk_in (words_of desk.now)).plan.figures.rate }
{
    word_at(desk, plan_offsets::RATE)
}

// n.
pub fn streams_in(desk: &[u8]) -> u32
    requires { desk_size ≤ length desk.now }
    ensures { result ≡ (desk_in (words_of desk.now)).plan.streams }
{
    word_at(desk, plan_offsets::STREAMS)
}

// The buffer of a slot.
pub fn buffer_in(desk: &[u8]) -> u32
    requires { desk_size ≤ length desk.now }
    ensures { result ≡ (desk_in (words_of desk.now)).plan.buffer }
{
    word_at(desk, plan_offsets::BUFFER)
}

// The word of the showing.
pub fn showing_in(desk: &[u8]) -> u32
    requires { desk_size ≤ length desk.now }
    ensures { result ≡ (desk_in (words_of desk.now)).plan.showing }
{
    word_at(desk, plan_offsets::SHOWING)
}

// How many visits to the disk a block takes: two of half blocks.
pub fn visits_in(desk: &[u8]) -> u32
    requires { desk_size ≤ length desk.now }
    ensures { result ≡ visits_in (desk_in (words_of desk.now)).plan }
{
    visits_of(showing_in(desk))
}

// The phase.
pub fn phase_in(desk: &[u8]) -> u32
    requires { desk_size ≤ length desk.now }
    ensures { result ≡ (desk_in (words_of desk.now)).phase }
{
    word_at(desk, offsets::PHASE)
}

// The kind of slot i.
pub fn kind_in(desk: &[u8], i: usize) -> u32
    requires { (i < max_streams) × (desk_size ≤ length desk.now) }
    ensures { result ≡ get_or (desk_in (words_of desk.now)).kinds i 0 }
{
    word_at(desk, offsets::KINDS + i)
}

// The film and the next block of slot i.
pub fn next_in(desk: &[u8], i: usize) -> u32
    requires { (i < max_streams) × (desk_size ≤ length desk.now) }
    ensures { result ≡ get_or (desk_in (words_of desk.now)).next i 0 }
{
    word_at(desk, offsets::NEXT + i)
}

// The bytes that slot i holds.
pub fn held_in(desk: &[u8], i: usize) -> u32
    requires { (i < max_streams) × (desk_size ≤ length desk.now) }
    ensures { result ≡ get_or (desk_in (words_of desk.now)).held i 0 }
{
    word_at(desk, offsets::HELD + i)
}

// The place of slot i.
pub fn place_in(desk: &[u8], i: usize) -> u32
    requires { (i < max_streams) × (desk_size ≤ length desk.now) }
    ensures { result ≡ get_or (desk_in (words_of desk.now)).places i 0 }
{
    word_at(desk, offsets::PLACES + i)
}

// The kinds of all slots.
pub fn all_kinds(desk: &[u8]) -> [u32; 256]
    requires { desk_size ≤ length desk.now }
    ensures { result ≡ (desk_in (words_of desk.now)).kinds }
{
    read_array(desk, offsets::KINDS)
}

// The next blocks of all slots.
pub fn all_next(desk: &[u8]) -> [u32; 256]
    requires { desk_size ≤ length desk.now }
    ensures { result ≡ (desk_in (words_of desk.now)).next }
{
    read_array(desk, offsets::NEXT)
}

// The held bytes of all slots.
pub fn all_held(desk: &[u8]) -> [u32; 256]
    requires { desk_size ≤ length desk.now }
    ensures { result ≡ (desk_in (words_of desk.now)).held }
{
    read_array(desk, offsets::HELD)
}

// The places of all slots.
pub fn all_places(desk: &[u8]) -> [u32; 256]
    requires { desk_size ≤ length desk.now }
    ensures { result ≡ (desk_in (words_of desk.now)).places }
{
    read_array(desk, offsets::PLACES)
}

// What a slot of this kind adds to the number that ask.
pub fn asking(kind: u32) -> u32
    ensures { (result ≡ bit (eqb kind waiting)) × (result ≤ 1) }
{
    u32::from(kind == WAITING)
}

// How many of the first `streams` slots ask.
pub fn asked_in(desk: &[u8], streams: usize) -> u32
    requires { (streams ≤ max_streams) × (desk_size ≤ length desk.now) }
    ensures { (result ≡ asked_count (take streams (desk_in (words_of desk.now)).kinds)) × (result ≤ streams) }
{
    let mut asked: u32 = 0;
    for i in 0..streams {
        asked += asking(kind_in(desk, i));
    }
    asked
}

// The positions of the zones.
pub fn zone_sizes(desk: &[u8]) -> [u32; 64]
    requires { desk_size ≤ length desk.now }
    ensures { result ≡ (desk_in (words_of desk.now)).plan.figures.positions }
{
    read_array(desk, plan_offsets::POSITIONS)
}

// The times of the zones.
pub fn zone_times(desk: &[u8]) -> [u32; 64]
    requires { desk_size ≤ length desk.now }
    ensures { result ≡ (desk_in (words_of desk.now)).plan.figures.times }
{
    read_array(desk, plan_offsets::TIMES)
}

// The table of overheads.
pub fn overheads(desk: &[u8]) -> [u32; 257]
    requires { desk_size ≤ length desk.now }
    ensures { result ≡ (desk_in (words_of desk.now)).plan.figures.table }
{
    read_array(desk, plan_offsets::TABLE)
}
