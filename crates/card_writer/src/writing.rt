// The numbers of a card, put into a lent buffer or only counted.
ghost use Rattle.std.specs.Prelude.{◌≡◌, ◌≤◌, length};
ghost use Rattle.numbers.specs.Limits.{max_zones, max_films, table_length};
ghost use Rattle.leb128.specs.Number.{groups};
ghost use Rattle.card_table.specs.Table.{table_numbers};
ghost use Rattle.card.specs.Card.{measure_numbers, film_numbers, zone_numbers, bytes_of, card_of, not_written};
ghost use Rattle.card_writer.specs.Put.{Room, Puts};

use card::{CardWritten, Figures, Verdict};
use card_table::hop_in;
use leb128::{number_length, write_number};
use numbers::limits::STRAIGHT;

// A card that is not written.
pub fn not_written(number: u32) -> CardWritten
    ensures { result ≡ not_written number }
{
    CardWritten {
        verdict: Verdict { number, place: 0 },
        length: 0,
    }
}

// A number at an offset; answers the offset after it.
fn put_number(out: &mut [u8], at: usize, v: u32, write: bool) -> usize
    requires { Room write out.old at (groups v) }
    ensures { Puts write out.old at (groups v) result out.new }
{
    if write {
        return write_number(out, at, v);
    }
    at + number_length(v)
}

// A whole table from an offset on.
fn put_entries(table: &[u32; 257], out: &mut [u8], start: usize, write: bool) -> usize
    requires { (length table.now ≡ table_length) × Room write out.old start (bytes_of table.now) }
    ensures { Puts write out.old start (bytes_of table.now) result out.new }
{
    let mut at = start;
    for &entry in table {
        at = put_number(out, at, entry, write);
    }
    at
}

// The overheads from an offset on: hop and return, or the whole table.
fn put_table(kind: u32, table: &[u32; 257], out: &mut [u8], start: usize, write: bool) -> usize
    requires { (length table.now ≡ table_length) × Room write out.old start (bytes_of (table_numbers kind table.now)) }
    ensures { Puts write out.old start (bytes_of (table_numbers kind table.now)) result out.new }
{
    if kind == STRAIGHT {
        let at = put_number(out, start, hop_in(table), write);
        return put_number(out, at, table[0], write);
    }
    put_entries(table, out, start, write)
}

// B, c and the overheads from an offset on.
fn put_measures(figures: Figures, out: &mut [u8], start: usize, write: bool) -> usize
    requires { Room write out.old start (bytes_of (measure_numbers figures)) }
    ensures { Puts write out.old start (bytes_of (measure_numbers figures)) result out.new }
{
    let mut at = put_number(out, start, figures.bytes, write);
    at = put_number(out, at, figures.rate, write);
    put_table(figures.kind, &figures.table, out, at, write)
}

// The films, how many and N of each, then B, c and the overheads from an offset on.
fn put_films(figures: Figures, out: &mut [u8], start: usize, write: bool) -> usize
    requires { (figures.films ≤ max_films) × Room write out.old start (bytes_of (film_numbers figures)) }
    ensures { Puts write out.old start (bytes_of (film_numbers figures)) result out.new }
{
    let films = figures.films as usize;
    let mut at = put_number(out, start, figures.films, write);
    for i in 0..films {
        at = put_number(out, at, figures.blocks[i], write);
    }
    put_measures(figures, out, at, write)
}

// The zones and the films from an offset on.
fn put_zones(figures: Figures, out: &mut [u8], start: usize, write: bool) -> usize
    requires { (figures.zones ≤ max_zones) × (figures.films ≤ max_films)
        × Room write out.old start (bytes_of (zone_numbers figures.zones 0 figures)) }
    ensures { Puts write out.old start (bytes_of (zone_numbers figures.zones 0 figures)) result out.new }
{
    let zones = figures.zones as usize;
    let mut at = start;
    for i in 0..zones {
        at = put_number(out, at, figures.positions[i], write);
        at = put_number(out, at, figures.times[i], write);
    }
    put_films(figures, out, at, write)
}

// The whole card, from the front of the buffer, or only its length; answers that.
pub fn put_card(figures: Figures, out: &mut [u8], write: bool) -> usize
    requires { (figures.zones ≤ max_zones) × (figures.films ≤ max_films) × Room write out.old 0 (card_of figures) }
    ensures { Puts write out.old 0 (card_of figures) result out.new }
{
    let first = put_number(out, 0, figures.kind, write);
    let second = put_number(out, first, figures.zones, write);
    put_zones(figures, out, second, write)
}
