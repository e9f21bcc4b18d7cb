// The films of a card (document 02, ticket 14), into a lent list of their N: their number with the offset after them, or the refusal.
ghost use Rattle.std.specs.Prelude.{◌≡◌, ℕ, ◌+◌, ◌≤◌, List};
ghost use Rattle.numbers.specs.Limits.{max_films};
ghost use Rattle.card_field.specs.Ranges.{blocks_fault};
ghost use Rattle.card.specs.declared.CardRead.{CardRead};
ghost use Rattle.card.specs.Read.{blank_films, row_from, shelf_from};
ghost use Rattle.card_field.specs.Figure.{field_in};
ghost use Rattle.card_reader.specs.Told.{row_with, shelf_with};

use card_field::{Rule, read_blocks, read_field};
use numbers::refusals::Refused;

// N of each film, of which each block takes so many positions; answers the blocks of all.
fn read_lengths(
    card: &[u8],
    start: usize,
    visits: u32,
    total: u32,
    films: u32,
    blocks: &mut [u32; 16],
) -> Result<(u32, usize), Refused>
    requires { films ≤ max_films }
    ensures { (go : List ℕ → ℕ → CardRead) → row_with blocks.new (field_in result) go
        ≡ row_from (blocks_fault visits total) ◌+◌ films card.now start 0 0 blocks.old go }
{
    let mut at = start;
    let mut sofar: u32 = 0;
    for i in 0..films as usize {
        let film = read_blocks(card, at, visits, total, sofar);
        let Ok((n, next)) = film else {
            return film;
        };
        blocks[i] = n;
        sofar += n;
        at = next;
    }
    Ok((sofar, at))
}

// The number of films, then N of each.
pub fn read_shelf(
    card: &[u8],
    at: usize,
    visits: u32,
    total: u32,
    blocks: &mut [u32; 16],
) -> Result<(u32, usize), Refused>
    requires { blocks.old ≡ blank_films }
    ensures { (go : ℕ → List ℕ → ℕ → CardRead) → shelf_with blocks.new (field_in result) go ≡ shelf_from visits card.now at total go }
{
    let first = read_field(card, at, Rule::Films, 0);
    let Ok((films, next)) = first else {
        return first;
    };
    let last = read_lengths(card, next, visits, total, films, blocks);
    let Ok((_, end)) = last else {
        return last;
    };
    Ok((films, end))
}
