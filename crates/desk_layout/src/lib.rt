// A desk in a lent byte string: its plan, then the phase and the slots, as 32-bit words.
#![tactic(auto)]

pub mod offsets; // the word at which each field starts

ghost use Rattle.std.specs.Prelude.{◌≡◌, ◌≤◌, ◌<◌, length, set};
ghost use Rattle.numbers.specs.Limits.{max_streams};
ghost use Rattle.words.specs.Words.{words_of, with_words};
ghost use Rattle.plan.specs.Plan.{lent_plan};
ghost use Rattle.desk.specs.Desk.{fresh_desk, blank_desk};
ghost use Rattle.desk.specs.Records.{record_of, with_slot};
ghost use Rattle.desk_layout.specs.Layout.{desk_words, desk_in, desk_size, with_kinds, with_places};

use card::Scalars;
use plan::Numbers;
use plan_layout::write_parts;
use words::{clear_words, write_array, write_words};

// Bytes of a desk.
pub const DESK_BYTES: usize = 4 * offsets::DESK_WORDS;

// Writes the new desk of a plan, its arrays lent, at the front of a string.
pub fn write_fresh<'a>(
    list: &mut [u8],
    figures: Scalars,
    sizes: &'a [u32; 64],
    times: &'a [u32; 64],
    table: &'a [u32; 257],
    plan: Numbers,
)
    requires { desk_size ≤ length list.old }
    ensures { list.new ≡ with_words list.old 0
        (desk_words (fresh_desk (lent_plan figures sizes.now times.now table.now plan))) }
{
    write_parts(list, figures, sizes, times, table, plan);
    clear_words(list, offsets::PHASE, offsets::SLOT_WORDS);
}

// Writes the desk that is all zero at the front of a string.
pub fn clear_desk(list: &mut [u8])
    requires { desk_size ≤ length list.old }
    ensures { list.new ≡ with_words list.old 0 (desk_words blank_desk) }
{
    clear_words(list, 0, offsets::DESK_WORDS);
}

// Writes slot i of the desk at the front of a string: a kind, a next block, nothing held, and a place.
pub fn put_slot(list: &mut [u8], i: usize, kind: u32, next: u32, place: u32)
    requires { (i < max_streams) × (desk_size ≤ length list.old) }
    ensures { let d = desk_in (words_of list.old) in
        list.new ≡ with_words list.old 0 (desk_words (with_slot d i kind next (set d.places i place))) }
{
    write_words(list, offsets::KINDS + i, &[kind]);
    write_words(list, offsets::NEXT + i, &[next]);
    write_words(list, offsets::HELD + i, &[0]);
    write_words(list, offsets::PLACES + i, &[place]);
}

// Writes the phase and the kinds of the desk at the front of a string.
pub fn put_kinds(list: &mut [u8], phase: u32, kinds: &[u32; 256])
    requires { desk_size ≤ length list.old }
    ensures { (list.new ≡ with_words list.old 0
        (desk_words (with_kinds (desk_in (words_of list.old)) phase kinds.now)))
        × (length kinds.now ≡ max_streams) }
{
    write_words(list, offsets::PHASE, &[phase]);
    write_array(list, offsets::KINDS, kinds);
}

// Writes the phase and all slots of the desk at the front of a string. Their places stay.
pub fn put_slots<'a>(
    list: &mut [u8],
    phase: u32,
    kinds: &'a [u32; 256],
    next: &'a [u32; 256],
    held: &'a [u32; 256],
)
    requires { desk_size ≤ length list.old }
    ensures { let d = desk_in (words_of list.old) in list.new ≡ with_words list.old 0
        (desk_words (record_of d.plan phase kinds.now next.now held.now d.places)) }
{
    put_kinds(list, phase, kinds);
    write_array(list, offsets::NEXT, next);
    write_array(list, offsets::HELD, held);
}

// Writes the places of the desk at the front of a string.
pub fn put_places(list: &mut [u8], places: &[u32; 256])
    requires { desk_size ≤ length list.old }
    ensures { (list.new ≡ with_words list.old 0
        (desk_words (with_places (desk_in (words_of list.old)) places.now)))
        × (length places.now ≡ max_streams) }
{
    write_array(list, offsets::PLACES, places);
}
