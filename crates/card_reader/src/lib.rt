// The card's reader: bytes to figures, number by number, the first fault ends it.
#![tactic(auto)]

mod figures; // the zones, and the figures of the films
mod shelf; // the films
mod table; // the overheads

ghost use Rattle.std.specs.Prelude.{◌≡◌};
ghost use Rattle.card.specs.Read.{blank_zones, blank_films, blank_table, refused_card, read_card};
ghost use Rattle.card_reader.specs.Told.{told_in, told_card};

use card::{CardRead, Figures, Verdict};
use card_field::{Rule, read_field};
use numbers::refusals::{ACCEPTED, Refused};

// What a card tells beside its arrays: kind, zones, films, B and c, or the refusal's number with its offset.
#[derive(Clone, Copy)]
pub enum Told {
    Figures(u32, u32, u32, u32, u32),
    Refused(u32, usize),
}

// The parts of a card, in their order, into lent arrays that are all zero.
fn read_parts(
    card: &[u8],
    sizes: &mut [u32; 64],
    times: &mut [u32; 64],
    blocks: &mut [u32; 16],
    table: &mut [u32; 257],
    visits: u32,
) -> Result<(u32, u32, u32, u32, u32), Refused>
    requires { (sizes.old ≡ blank_zones) × (times.old ≡ blank_zones) × (blocks.old ≡ blank_films) × (table.old ≡ blank_table) }
    ensures { told_card sizes.new times.new blocks.new table.new (told_in result) ≡ read_card visits card.now }
{
    let first = read_field(card, 0, Rule::Kind, 0);
    let Ok((kind, at)) = first else {
        return figures::refused(first);
    };
    let second = read_field(card, at, Rule::Zones, 0);
    let Ok((zones, start)) = second else {
        return figures::refused(second);
    };
    let third = figures::read_zones(card, start, zones, sizes, times);
    let Ok((total, next)) = third else {
        return figures::refused(third);
    };
    figures::read_film(card, next, visits, total, kind, zones, blocks, table)
}

// Reads a card, of which each block takes so many positions, into lent arrays that are all zero: refusals 1 to 11, 26 right after 7, 30
// before 8 and right after it, 25 for the overheads of kind 2, and 28 in place of 9 for half blocks. Refused, they hold what was read before the fault.
pub fn read_into(
    card: &[u8],
    sizes: &mut [u32; 64],
    times: &mut [u32; 64],
    blocks: &mut [u32; 16],
    table: &mut [u32; 257],
    visits: u32,
) -> Told
    requires { (sizes.old ≡ blank_zones) × (times.old ≡ blank_zones) × (blocks.old ≡ blank_films) × (table.old ≡ blank_table) }
    ensures { told_card sizes.new times.new blocks.new table.new result ≡ read_card visits card.now }
{
    match read_parts(card, sizes, times, blocks, table, visits) {
        Ok((kind, zones, films, bytes, rate)) => Told::Figures(kind, zones, films, bytes, rate),
        Err(refused) => Told::Refused(refused.refusal.number(), refused.place),
    }
}

// A refused card.
fn refused_card(number: u32, place: usize) -> CardRead
    ensures { result ≡ refused_card number place }
{
    let none = [0u32; 64];
    CardRead {
        verdict: Verdict { number, place },
        figures: Figures {
            kind: 0,
            zones: 0,
            positions: none,
            times: none,
            films: 0,
            blocks: [0u32; 16],
            bytes: 0,
            rate: 0,
            table: [0u32; 257],
        },
    }
}

// Reads a card.
pub fn read_card(card: &[u8]) -> CardRead
    ensures { result ≡ read_card 1 card.now }
{
    read_card_of(card, 1)
}

// Reads a card of which each block takes so many positions: 2 for half blocks.
pub fn read_card_of(card: &[u8], visits: u32) -> CardRead
    ensures { result ≡ read_card visits card.now }
{
    let mut sizes = [0u32; 64];
    let mut times = [0u32; 64];
    let mut blocks = [0u32; 16];
    let mut table = [0u32; 257];
    let told = read_into(
        card,
        &mut sizes,
        &mut times,
        &mut blocks,
        &mut table,
        visits,
    );
    match told {
        Told::Refused(number, place) => refused_card(number, place),
        Told::Figures(kind, zones, films, bytes, rate) => CardRead {
            verdict: Verdict {
                number: ACCEPTED,
                place: 0,
            },
            figures: Figures {
                kind,
                zones,
                positions: sizes,
                times,
                films,
                blocks,
                bytes,
                rate,
                table,
            },
        },
    }
}
