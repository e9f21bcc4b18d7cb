// A desk that is handed over by value, as the byte string in which the calls read it.
#![tactic(auto)]

ghost use Rattle.std.specs.Prelude.{◌≡◌, length};
ghost use Rattle.words.specs.Words.{words_of};
ghost use Rattle.desk_layout.specs.Layout.{desk_in, desk_size};

use desk::Desk;
use desk_layout::{put_places, put_slots};
use plan::{numbers_in, scalars_in};
use plan_layout::write_parts;

// Room for a desk.
fn blank() -> [u8; 5748] {
    [0u8; 5748]
}

// The string that says a desk.
pub fn string_of(desk: Desk) -> [u8; 5748]
    ensures { (desk_in (words_of result) ≡ desk) × (length result ≡ desk_size) }
{
    let mut string = blank();
    let figures = scalars_in(desk.plan);
    let numbers = numbers_in(desk.plan);
    write_parts(
        &mut string,
        figures,
        &desk.plan.figures.positions,
        &desk.plan.figures.times,
        &desk.plan.figures.table,
        numbers,
    );
    put_slots(&mut string, desk.phase, &desk.kinds, &desk.next, &desk.held);
    put_places(&mut string, &desk.places);
    string
}
