// The figures of a record, judged in the card's order.
ghost use Rattle.std.specs.Prelude.{◌≡◌, ℕ, ◌+◌, ◌≤◌, cond, List, [], length};
ghost use Rattle.numbers.specs.Limits.{max_zones, max_time, max_films, table_length};
ghost use Rattle.numbers.specs.Refusals.{wrong_zones, wrong_films};
ghost use Rattle.numbers.specs.Numbered.{fault_in};
ghost use Rattle.card_field.specs.Ranges.{blocks_fault};
ghost use Rattle.card_field.specs.Row.{row_fault};
ghost use Rattle.card.specs.declared.Scalars.{Scalars};
ghost use Rattle.card.specs.Card.{zeros, shelf_fault, film_fault, zone_faults, fault_with, zeros_from, record_fault};
ghost use Rattle.card.specs.Read.{figures_from};

use crate::{Figures, Scalars};
use card_field::{Rule, fault, fault_of_blocks, fault_of_time};
use card_table::fault_of_table;
use numbers::limits::{MAX_BYTES, MAX_RATE, MAX_TIME};
use numbers::refusals::{ACCEPTED, Refusal};

// Whether each number of a list is zero.
fn all_zero(list: &[u32]) -> bool
    ensures { result ≡ zeros 0 list.now }
{
    list.iter().all(|&v| v == 0)
}

// Refuses an entry past the films that is not zero.
fn fault_of_idle(films: u32, blocks: &[u32; 16]) -> Result<(), Refusal>
    requires { (films ≤ max_films) × (length blocks.now ≡ max_films) }
    ensures { fault_in result ≡ cond (zeros films blocks.now) 0 wrong_films }
{
    if all_zero(&blocks[films as usize..]) {
        return Ok(());
    }
    Err(Refusal::WrongFilms)
}

// N of each film, of which each block takes so many positions.
fn fault_of_lengths(visits: u32, total: u32, films: u32, blocks: &[u32; 16]) -> Result<(), Refusal>
    requires { films ≤ max_films }
    ensures { fault_in result ≡ row_fault (blocks_fault visits total) ◌+◌ films 0 0 blocks.now }
{
    let mut sofar: u32 = 0;
    for &n in &blocks[..films as usize] {
        fault_of_blocks(visits, total, sofar, n)?;
        sofar += n;
    }
    Ok(())
}

// The number of films, the entries past them, then N of each.
fn fault_of_shelf(visits: u32, total: u32, films: u32, blocks: &[u32; 16]) -> Result<(), Refusal>
    requires { length blocks.now ≡ max_films }
    ensures { fault_in result ≡ shelf_fault visits total films blocks.now }
{
    fault(Rule::Films, 0, films)?;
    fault_of_idle(films, blocks)?;
    fault_of_lengths(visits, total, films, blocks)
}

// The shelf, of which each block takes so many positions, B, c, then the overheads.
fn fault_of_film(
    visits: u32,
    total: u32,
    figures: Scalars,
    table: &[u32; 257],
) -> Result<(), Refusal>
    ensures { fault_in result ≡ film_fault visits (figures_from figures [] [] table.now) total }
{
    fault_of_shelf(visits, total, figures.films, &figures.blocks)?;
    fault(Rule::Measure, MAX_BYTES, figures.bytes)?;
    fault(Rule::Measure, MAX_RATE, figures.rate)?;
    fault_of_table(figures.kind, table)
}

// Each zone's positions, then its time; answers P, the positions of all zones.
fn fault_of_zones<'a>(
    zones: u32,
    positions: &'a [u32; 64],
    times: &'a [u32; 64],
) -> Result<u32, Refusal>
    requires { zones ≤ max_zones }
    ensures { (k : ℕ) (x : Scalars) (os : List ℕ) → fault_with k (figures_from x positions.now times.now os) result
        ≡ zone_faults k zones 0 (figures_from x positions.now times.now os) 0 max_time }
{
    let innermost = times[0];
    let mut total: u32 = 0;
    let mut before: u32 = MAX_TIME;
    for (&count, &time) in positions[..zones as usize].iter().zip(times) {
        fault(Rule::Positions, total, count)?;
        fault_of_time(innermost, before, time)?;
        total += count;
        before = time;
    }
    Ok(total)
}

// Refuses an entry past the zone count that is not zero.
fn fault_of_unused<'a>(
    zones: u32,
    positions: &'a [u32; 64],
    times: &'a [u32; 64],
) -> Result<(), Refusal>
    requires { (zones ≤ max_zones) × (length positions.now ≡ max_zones) × (length times.now ≡ max_zones) }
    ensures { fault_in result ≡ cond (zeros_from zones positions.now times.now) 0 wrong_zones }
{
    let zones = zones as usize;
    if all_zero(&positions[zones..]) && all_zero(&times[zones..]) {
        return Ok(());
    }
    Err(Refusal::WrongZones)
}

// Judges figures whose arrays are lent; each block takes so many positions.
fn judge_lent<'a>(
    visits: u32,
    figures: Scalars,
    positions: &'a [u32; 64],
    times: &'a [u32; 64],
    table: &'a [u32; 257],
) -> Result<(), Refusal>
    requires { (length positions.now ≡ max_zones) × (length times.now ≡ max_zones) × (length table.now ≡ table_length) }
    ensures { fault_in result ≡ record_fault visits (figures_from figures positions.now times.now table.now) }
{
    fault(Rule::Kind, 0, figures.kind)?;
    fault(Rule::Zones, 0, figures.zones)?;
    fault_of_unused(figures.zones, positions, times)?;
    let total = fault_of_zones(figures.zones, positions, times)?;
    fault_of_film(visits, total, figures, table)
}

// The refusal's number of a judgement, 0 where there is none.
fn number_in(judged: Result<(), Refusal>) -> u32
    ensures { result ≡ fault_in judged }
{
    match judged {
        Ok(()) => ACCEPTED,
        Err(refusal) => refusal.number(),
    }
}

// The refusal of figures whose arrays are lent, 0 where they are legal; each block takes so many positions.
pub fn fault_of_figures<'a>(
    visits: u32,
    figures: Scalars,
    positions: &'a [u32; 64],
    times: &'a [u32; 64],
    table: &'a [u32; 257],
) -> u32
    requires { (length positions.now ≡ max_zones) × (length times.now ≡ max_zones) × (length table.now ≡ table_length) }
    ensures { result ≡ record_fault visits (figures_from figures positions.now times.now table.now) }
{
    number_in(judge_lent(visits, figures, positions, times, table))
}

// The refusal of a record, 0 where it is legal.
pub fn fault_of_record(visits: u32, figures: Figures) -> u32
    ensures { result ≡ record_fault visits figures }
{
    fault_of_figures(
        visits,
        Scalars {
            kind: figures.kind,
            zones: figures.zones,
            films: figures.films,
            blocks: figures.blocks,
            bytes: figures.bytes,
            rate: figures.rate,
        },
        &figures.positions,
        &figures.times,
        &figures.table,
    )
}
