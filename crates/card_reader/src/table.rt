// The overheads of a card, into a lent table: the last number with the offset after it, or the refusal.
ghost use Rattle.std.specs.Prelude.{◌≡◌, ℕ, List, length};
ghost use Rattle.numbers.specs.Limits.{table_length};
ghost use Rattle.card.specs.declared.CardRead.{CardRead};
ghost use Rattle.card.specs.Read.{blank_table, moves_from, entries_from, table_from};
ghost use Rattle.card_field.specs.Figure.{field_in};
ghost use Rattle.card_reader.specs.Told.{row_with};

use card_field::{Rule, read_field};
use card_table::fill_straight;
use numbers::limits::{MAX_MOVE, STRAIGHT, TABLE_LENGTH};
use numbers::refusals::Refused;

// Hop and return, and the table that they make.
fn read_moves(card: &[u8], at: usize, table: &mut [u32; 257]) -> Result<(u32, usize), Refused>
    requires { length table.old ≡ table_length }
    ensures { (go : List ℕ → ℕ → CardRead) → row_with table.new (field_in result) go ≡ moves_from card.now at go }
{
    let first = read_field(card, at, Rule::Measure, MAX_MOVE);
    let Ok((hop, middle)) = first else {
        return first;
    };
    let second = read_field(card, middle, Rule::Measure, MAX_MOVE);
    let Ok((back, _)) = second else {
        return second;
    };
    fill_straight(table, hop, back);
    second
}

// The table entry by entry.
fn read_entries(card: &[u8], start: usize, table: &mut [u32; 257]) -> Result<(u32, usize), Refused>
    requires { table.old ≡ blank_table }
    ensures { (go : List ℕ → ℕ → CardRead) → row_with table.new (field_in result) go ≡ entries_from card.now start go }
{
    let mut at = start;
    let mut before: u32 = 0;
    for k in 0..TABLE_LENGTH as usize {
        let number = read_field(card, at, Rule::Overhead, before);
        let Ok((overhead, next)) = number else {
            return number;
        };
        table[k] = overhead;
        before = overhead;
        at = next;
    }
    Ok((before, at))
}

// By the kind of the card.
pub fn read_table(
    card: &[u8],
    at: usize,
    kind: u32,
    table: &mut [u32; 257],
) -> Result<(u32, usize), Refused>
    requires { table.old ≡ blank_table }
    ensures { (go : List ℕ → ℕ → CardRead) → row_with table.new (field_in result) go ≡ table_from kind card.now at go }
{
    if kind == STRAIGHT {
        return read_moves(card, at, table);
    }
    read_entries(card, at, table)
}
