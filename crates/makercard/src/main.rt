// Reads a maker's text from standard input, with N, c, hop and return as arguments, and writes the card of its figures to standard output.
#![tactic(auto)]

ghost use Rattle.std.specs.Prelude.{◌≡◌, length};

use card::{Figures, Verdict};
use numbers::refusals::{
    HALF_DEAD_TIME, LINE_FORM, RISING_TIME, WRONG_HEADING, WRONG_ROW, WRONG_ZONES,
};
use program_io::read_full;
use program_io::refused::{Refused, common_cause};
use std::env::{Env, FillError};
use std::io;

// The bytes that are read of a text. An accepted one has at most 1,301; in a longer one every line still counts, so it is read whole.
const MOST: usize = 1048576;

// N, c, hop and return.
#[derive(Clone, Copy)]
struct Arguments {
    blocks: u32,
    rate: u32,
    hop: u32,
    back: u32,
}

fn text_buffer() -> [u8; MOST]
    ensures { 1048576 ≡ length result }
{
    [0; MOST]
}

// The i-th argument as a number in decimal without leading zeros.
fn read_argument(rt: &impl Env, i: usize) -> Option<u32> {
    let mut word = [0u8; 4096];
    let length = rt.arg(i, &mut word).ok()?;
    let (value, next) = decimal::read_number(&word[..length], 0)?;
    if next != length {
        return None;
    }
    u32::try_from(value).ok()
}

// The arguments, where there are just four, each a number.
fn read_arguments(rt: &impl Env) -> Option<Arguments> {
    let Err(FillError::NotPresent) = rt.arg(5, &mut []) else {
        return None;
    };
    Some(Arguments {
        blocks: read_argument(rt, 1)?,
        rate: read_argument(rt, 2)?,
        hop: read_argument(rt, 3)?,
        back: read_argument(rt, 4)?,
    })
}

// The cause of a refusal: 22 to 24 of the text, then 4 to 10 of document 01, or 26 of document 02.
fn cause(number: u32) -> &'static str {
    match number {
        LINE_FORM => "not a line of numbers with one space between and a line feed after them",
        WRONG_HEADING => "turns, track switch time, heads or sectors in a block out of range",
        WRONG_ROW => "row out of range, or not following on the cylinder before",
        WRONG_ZONES => "no zone, or over 64",
        RISING_TIME => "zone time above that of the next zone inward",
        HALF_DEAD_TIME => "zone time, times three, below the innermost zone's time",
        _ => common_cause(number).unwrap_or("rate, hop or return out of range"),
    }
}

// A refusal of the text names its line, a later one none.
fn refused(verdict: Verdict) -> Refused {
    let line = match verdict.place {
        0 => None,
        place => Some(place as u64),
    };
    Refused {
        number: verdict.number,
        line,
        cause: cause(verdict.number),
    }
}

// Writes the card of figures.
fn write_card(out: &impl Print, err: &impl Print, figures: Figures) -> io::Result<()> {
    let mut card = [0u8; 4096];
    let written = card_writer::write_card(figures, &mut card);
    let length = written.length;
    if out.write_all(&card[..length]).is_err() {
        return println!(err; "makercard: cannot write the card");
    }
    Ok(())
}

// Writes the card of the text on standard input, or says why there is none.
fn answer(rt: HostRuntime, arguments: Arguments) -> io::Result<()> {
    let err = rt.stderr();
    let mut text = text_buffer();
    let count = read_full(&mut rt.stdin(), &mut text)?;
    if count == MOST {
        return println!(err; "makercard: text of over 1048575 bytes");
    }
    let Arguments {
        blocks,
        rate,
        hop,
        back,
    } = arguments;
    let read = maker::read_maker(&text[..count], blocks, rate, hop, back);
    let verdict = read.verdict;
    if verdict.number != 0 {
        return println!(err; "makercard: {}", refused(verdict));
    }
    write_card(&rt, &err, read.figures)
}

fn main(rt: HostRuntime) -> io::Result<()> {
    let Some(arguments) = read_arguments(&rt) else {
        let err = rt.stderr();
        return println!(err; "usage: makercard N c hop return");
    };
    answer(rt, arguments)
}
