// One figure of a card: its form, then its range.
#![tactic(auto)]

ghost use Rattle.std.specs.Prelude.{◌≡◌};
ghost use Rattle.numbers.specs.Numbered.{number_of, fault_in};
ghost use Rattle.card_field.specs.Ranges.{above, below, outside, fault_of, time_fault, room_fault, blocks_fault};
ghost use Rattle.card_field.specs.Figure.{field_in, field_at, on_fault};

use leb128::Number;
use numbers::limits::{
    MAX_BLOCKS, MAX_FILMS, MAX_NUMBER, MAX_OVERHEAD, MAX_POSITIONS, MAX_TIME, MAX_ZONES, MEASURED,
    MIN_BLOCKS, STRAIGHT, TIMES_AS_FAST,
};
use numbers::refusals::{Refusal, Refused};

// Which figure is judged, and what its bound is.
#[derive(Clone, Copy)]
pub enum Rule {
    // The kind of the card.
    Kind,
    // The number of zones.
    Zones,
    // A zone's positions; bound: the positions of the zones before it.
    Positions,
    // The number of films.
    Films,
    // B, c, hop or return; bound: its greatest value.
    Measure,
    // An overhead of kind 2; bound: the one before, 0 for the first.
    Overhead,
}

// Refuses v below least.
fn below(least: u32, refusal: Refusal, v: u32) -> Result<(), Refusal>
    ensures { fault_in result ≡ below least (number_of refusal) v }
{
    if v < least {
        return Err(refusal);
    }
    Ok(())
}

// Refuses v above most.
fn above(most: u64, refusal: Refusal, v: u64) -> Result<(), Refusal>
    ensures { fault_in result ≡ above most (number_of refusal) v }
{
    if most < v {
        return Err(refusal);
    }
    Ok(())
}

// Refuses v where it is not from least to most.
fn outside(least: u32, most: u32, refusal: Refusal, v: u32) -> Result<(), Refusal>
    ensures { fault_in result ≡ outside least most (number_of refusal) v }
{
    if v < least {
        return Err(refusal);
    }
    if most < v {
        return Err(refusal);
    }
    Ok(())
}

// Refuses a zone's time: its range, then the time of the zone before (the greatest time for the first), then the first zone's
// (0 where that one is still to be read).
pub fn fault_of_time(innermost: u32, before: u32, v: u32) -> Result<(), Refusal>
    ensures { fault_in result ≡ time_fault innermost before v }
{
    outside(1, MAX_TIME, Refusal::WrongTime, v)?;
    if before < v {
        return Err(Refusal::RisingTime);
    }
    // A time in its range, times three, is a u32: law `thrice_fits`.
    if TIMES_AS_FAST * v < innermost {
        return Err(Refusal::HalfDeadTime);
    }
    Ok(())
}

// The refusal of a film without room, of which each block takes so many positions: 9, for half blocks 28.
fn room_fault(visits: u32) -> Refusal
    ensures { number_of result ≡ room_fault visits }
{
    if visits <= 1 {
        return Refusal::BlocksAbovePositions;
    }
    Refusal::HalvesAbovePositions
}

// Refuses a film's N after films of so many blocks: its range, then the blocks of all of them, then the positions that are left, of
// which each block takes so many: they are too few where all positions, shared out to all blocks, are.
pub fn fault_of_blocks(visits: u32, total: u32, sofar: u32, v: u32) -> Result<(), Refusal>
    ensures { fault_in result ≡ blocks_fault visits total sofar v }
{
    outside(MIN_BLOCKS, MAX_BLOCKS, Refusal::WrongBlocks, v)?;
    if MAX_BLOCKS - v < sofar {
        return Err(Refusal::WrongFilms);
    }
    if total / (sofar + v) < visits {
        return Err(room_fault(visits));
    }
    Ok(())
}

// Refuses the value v of any other figure where it is out of range.
pub fn fault(rule: Rule, bound: u32, v: u32) -> Result<(), Refusal>
    ensures { fault_in result ≡ fault_of rule bound v }
{
    match rule {
        Rule::Kind => outside(STRAIGHT, MEASURED, Refusal::WrongKind, v),
        Rule::Zones => outside(1, MAX_ZONES, Refusal::WrongZones, v),
        Rule::Positions => {
            outside(1, MAX_NUMBER, Refusal::WrongPositions, v)?;
            above(
                MAX_POSITIONS as u64,
                Refusal::WrongPositions,
                bound as u64 + v as u64,
            )
        }
        Rule::Films => outside(1, MAX_FILMS, Refusal::WrongFilms, v),
        Rule::Measure => outside(1, bound, Refusal::WrongMeasure, v),
        Rule::Overhead => {
            outside(1, MAX_OVERHEAD, Refusal::WrongOverhead, v)?;
            below(bound, Refusal::WrongOverhead, v)
        }
    }
}

// The number at an offset of a card, with the offset after it.
fn number_at(card: &[u8], at: usize) -> Result<(u32, usize), Refused>
    ensures { field_in result ≡ field_at (λ v. 0) card.now at }
{
    match leb128::read_number(card, at) {
        Number::Value(v, next) => Ok((v, next)),
        Number::CutOff(size) => Err(Refused {
            refusal: Refusal::CardEnds,
            place: size,
        }),
        Number::Malformed(start) => Err(Refused {
            refusal: Refusal::NumberForm,
            place: start,
        }),
    }
}

// A figure whose form is right: its refusal, or its value.
fn judged(
    fault: Result<(), Refusal>,
    v: u32,
    at: usize,
    next: usize,
) -> Result<(u32, usize), Refused>
    ensures { field_in result ≡ on_fault (fault_in fault) at v next }
{
    match fault {
        Ok(()) => Ok((v, next)),
        Err(refusal) => Err(Refused { refusal, place: at }),
    }
}

// The figure at an offset of a card, with the offset after it: its form, then its range.
pub fn read_field(card: &[u8], at: usize, rule: Rule, bound: u32) -> Result<(u32, usize), Refused>
    ensures { field_in result ≡ field_at (fault_of rule bound) card.now at }
{
    let (v, next) = number_at(card, at)?;
    judged(fault(rule, bound, v), v, at, next)
}

// The zone's time at an offset of a card.
pub fn read_time(
    card: &[u8],
    at: usize,
    innermost: u32,
    before: u32,
) -> Result<(u32, usize), Refused>
    ensures { field_in result ≡ field_at (time_fault innermost before) card.now at }
{
    let (v, next) = number_at(card, at)?;
    judged(fault_of_time(innermost, before, v), v, at, next)
}

// A film's N at an offset of a card, after films of so many blocks; each block takes so many positions.
pub fn read_blocks(
    card: &[u8],
    at: usize,
    visits: u32,
    total: u32,
    sofar: u32,
) -> Result<(u32, usize), Refused>
    ensures { field_in result ≡ field_at (blocks_fault visits total sofar) card.now at }
{
    let (v, next) = number_at(card, at)?;
    judged(fault_of_blocks(visits, total, sofar, v), v, at, next)
}
