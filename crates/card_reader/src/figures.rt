// The numbers of a card, in their order; the first fault ends it.
ghost use Rattle.std.specs.Prelude.{◌≡◌, ℕ, ◌≤◌, List, Err, IsErr, IfErr};
ghost use Rattle.numbers.specs.Limits.{max_zones, max_time};
ghost use Rattle.card.specs.Read.{blank_films, blank_table, zones_from, after_zones};
ghost use Rattle.card.specs.declared.CardRead.{CardRead};
ghost use Rattle.card_field.specs.Figure.{field_in};
ghost use Rattle.card_reader.specs.Told.{told_in, told_card, zones_with};

use crate::shelf::read_shelf;
use crate::table::read_table;
use card_field::{Rule, read_field, read_time};
use numbers::limits::{MAX_BYTES, MAX_RATE, MAX_TIME};
use numbers::refusals::{Refusal, Refused};

// What a refused number makes of the card.
pub fn refused(number: Result<(u32, usize), Refused>) -> Result<(u32, u32, u32, u32, u32), Refused>
    requires { IsErr number }
    ensures { IfErr number (λ e. result ≡ Err e) }
{
    match number {
        Err(refused) => Err(refused),
        Ok(_) => unreachable!(),
    }
}

// The films, each block on so many positions, B, c, and the overheads into a table; after the last of these no byte is left over. Kind and
// zones are those of the card.
pub fn read_film(
    card: &[u8],
    at: usize,
    visits: u32,
    total: u32,
    kind: u32,
    zones: u32,
    blocks: &mut [u32; 16],
    table: &mut [u32; 257],
) -> Result<(u32, u32, u32, u32, u32), Refused>
    requires { (blocks.old ≡ blank_films) × (table.old ≡ blank_table) }
    ensures { (ps ts : List ℕ) → told_card ps ts blocks.new table.new (told_in result)
        ≡ after_zones visits card.now kind zones ps ts total at }
{
    let first = read_shelf(card, at, visits, total, blocks);
    let Ok((films, at1)) = first else {
        return refused(first);
    };
    let second = read_field(card, at1, Rule::Measure, MAX_BYTES);
    let Ok((bytes, at2)) = second else {
        return refused(second);
    };
    let third = read_field(card, at2, Rule::Measure, MAX_RATE);
    let Ok((rate, at3)) = third else {
        return refused(third);
    };
    let last = read_table(card, at3, kind, table);
    let Ok((_, end)) = last else {
        return refused(last);
    };
    if end < card.len() {
        return Err(Refused {
            refusal: Refusal::CardGoesOn,
            place: end,
        });
    }
    Ok((kind, zones, films, bytes, rate))
}

// The zones, innermost first, each its positions and its time; answers all their positions, with the offset after them.
pub fn read_zones(
    card: &[u8],
    start: usize,
    zones: u32,
    sizes: &mut [u32; 64],
    times: &mut [u32; 64],
) -> Result<(u32, usize), Refused>
    requires { zones ≤ max_zones }
    ensures { (go : List ℕ → List ℕ → ℕ → ℕ → CardRead) → zones_with sizes.new times.new (field_in result) go
        ≡ zones_from zones card.now start 0 sizes.old times.old 0 max_time go }
{
    let mut at = start;
    let mut total: u32 = 0;
    let mut before: u32 = MAX_TIME;
    for i in 0..zones as usize {
        let first = read_field(card, at, Rule::Positions, total);
        let Ok((positions, middle)) = first else {
            return first;
        };
        let innermost = times[0];
        let second = read_time(card, middle, innermost, before);
        let Ok((time, next)) = second else {
            return second;
        };
        sizes[i] = positions;
        times[i] = time;
        total += positions;
        before = time;
        at = next;
    }
    Ok((total, at))
}
