// The small cards one after the other: the first, the one after a card, and a card's figures.
#![tactic(auto)]

ghost use Rattle.std.specs.Prelude.{◌≡◌, true, false, ℕ, ◌≤◌, ◌<◌, get_or};
ghost use Rattle.laws.specs.Each.{Each};
ghost use Rattle.card.specs.Read.{blank_table};
ghost use Rattle.card_table.specs.Table.{straight};
ghost use Rattle.small_cards.specs.Cards.{entered};
ghost use Rattle.small_cards.specs.Next.{figures_of, limit_of, risen, most_blocks, zone_more, positions_more, times_more, next_card, first_card};
ghost use Rattle.small_cards.specs.Steps.{Stepped};

use card::{Figures, one_film};
use card_table::fill_straight;
use numbers::limits::{MAX_TRIED, MIN_BLOCKS, STRAIGHT};
use small_cards::SmallCard;

// The first card: one zone of two positions, since one position has no room for a film.
pub fn first_card() -> SmallCard
    ensures { result ≡ first_card }
{
    SmallCard {
        zones: 1,
        positions: [2, 0, 0],
        times: [1, 0, 0],
        blocks: MIN_BLOCKS,
    }
}

// The most that entry i may be: 3, and where entries must not rise, the one before.
fn limit(entries: [u32; 3], i: usize, falls: bool) -> u32
    requires { i < 3 }
    ensures { result ≡ limit_of falls entries i }
{
    if i == 0 {
        return 3;
    }
    if falls {
        return entries[i - 1];
    }
    3
}

// The last of the first `count` entries that may rise does; those after it start again from 1. An error where none may: all start again.
fn rise(entries: [u32; 3], count: u32, falls: bool) -> Result<[u32; 3], [u32; 3]>
    requires { count ≤ 3 }
    ensures { result ≡ risen falls count entries }
{
    let mut next = entries;
    for i in (0..count as usize).rev() {
        let entry = next[i];
        if entry < limit(next, i, falls) {
            next[i] = entry + 1;
            return Ok(next);
        }
        next[i] = 1;
    }
    Err(next)
}

// A zone more, with one position of time 1; past the third only the count.
fn next_zone(card: SmallCard, positions: [u32; 3], times: [u32; 3]) -> SmallCard
    requires { card.zones ≤ 3 }
    ensures { result ≡ zone_more card positions times }
{
    let at = card.zones as usize;
    if 3 <= at {
        return SmallCard {
            zones: card.zones + 1,
            positions,
            times,
            blocks: MIN_BLOCKS,
        };
    }
    let mut sizes = positions;
    let mut speeds = times;
    sizes[at] = 1;
    speeds[at] = 1;
    SmallCard {
        zones: card.zones + 1,
        positions: sizes,
        times: speeds,
        blocks: MIN_BLOCKS,
    }
}

// The next positions, with these times; else a zone more.
fn next_positions(card: SmallCard, times: [u32; 3]) -> SmallCard
    requires { card.zones ≤ 3 }
    ensures { result ≡ positions_more card times (risen false card.zones card.positions) }
{
    match rise(card.positions, card.zones, false) {
        Ok(positions) => SmallCard {
            zones: card.zones,
            positions,
            times,
            blocks: MIN_BLOCKS,
        },
        Err(positions) => next_zone(card, positions, times),
    }
}

// The next times; else the next positions.
fn next_times(card: SmallCard) -> SmallCard
    requires { card.zones ≤ 3 }
    ensures { result ≡ times_more card (risen true card.zones card.times) }
{
    match rise(card.times, card.zones, true) {
        Ok(times) => SmallCard {
            times,
            blocks: MIN_BLOCKS,
            ..card
        },
        Err(times) => next_positions(card, times),
    }
}

// The most blocks that these positions have room for.
fn most_blocks(positions: [u32; 3]) -> u32
    requires { Each (λ (p : ℕ). p ≤ 3) positions }
    ensures { result ≡ most_blocks positions }
{
    (positions[0] + positions[1] + positions[2]).min(MAX_TRIED)
}

// The card after this one: a block more, else the next times.
pub fn next_card(card: SmallCard) -> SmallCard
    requires { Stepped card }
    ensures { result ≡ next_card card }
{
    if card.blocks < most_blocks(card.positions) {
        return SmallCard {
            blocks: card.blocks + 1,
            ..card
        };
    }
    next_times(card)
}

// The entries of a record's array.
fn enter(entries: [u32; 3]) -> [u32; 64]
    ensures { result ≡ entered entries }
{
    let mut all = [0u32; 64];
    all[..3].copy_from_slice(&entries);
    all
}

fn no_table() -> [u32; 257]
    ensures { result ≡ blank_table }
{
    [0u32; 257]
}

// The overheads of hop 1 and return 1.
fn overheads() -> [u32; 257]
    ensures { result ≡ straight 1 1 }
{
    let mut table = no_table();
    fill_straight(&mut table, 1, 1);
    table
}

// The figures of a card, with the measures that every small card has.
pub fn figures_of(card: SmallCard) -> Figures
    ensures { result ≡ figures_of card }
{
    Figures {
        kind: STRAIGHT,
        zones: card.zones,
        positions: enter(card.positions),
        times: enter(card.times),
        films: 1,
        blocks: one_film(card.blocks),
        bytes: 1000,
        rate: 1000,
        table: overheads(),
    }
}
