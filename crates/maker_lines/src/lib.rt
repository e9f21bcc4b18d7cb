// One line of a maker's text: its form, then its range.
#![tactic(auto)]

ghost use Rattle.std.specs.Prelude.{◌≡◌};
ghost use Rattle.decimal.specs.Decimal.{capped_number};
ghost use Rattle.maker_lines.specs.Lines.{word_at, within, judged_heading, judged_row, three_read, heading_in, row_at};

use numbers::limits::{MAX_BLOCK, MAX_CYLINDER, MAX_HEADS, MAX_SWITCH, MAX_TRACK, MAX_TURNS};
use numbers::refusals::{LINE_FORM, WRONG_HEADING, WRONG_ROW};

// Line one: turns a minute, track switch time, heads, sectors in a block.
#[derive(Clone, Copy)]
pub struct Drive {
    pub turns: u32,
    pub switch: u32,
    pub heads: u32,
    pub block: u32,
}

// The number at an offset that ends with the given byte, and the offset after that one.
fn read_word(text: &[u8], at: usize, end: u8) -> Option<(u64, usize)>
    ensures { result ≡ capped_number (word_at end text.now at) }
{
    let (value, next) = decimal::read_number(text, at)?;
    if text.len() <= next {
        return None;
    }
    if text[next] != end {
        return None;
    }
    Some((value, next + 1))
}

// Is the number from 1 to the most?
fn is_within(most: u32, v: u64) -> bool
    ensures { result ≡ within most v }
{
    1 <= v && v <= most as u64
}

// The ranges of line one.
fn judge_heading(
    turns: u64,
    switch: u64,
    heads: u64,
    block: u64,
    next: usize,
) -> Result<(Drive, usize), u32>
    ensures { result ≡ judged_heading turns switch heads block next }
{
    if !is_within(MAX_TURNS, turns) {
        return Err(WRONG_HEADING);
    }
    if !is_within(MAX_SWITCH, switch) {
        return Err(WRONG_HEADING);
    }
    if !is_within(MAX_HEADS, heads) {
        return Err(WRONG_HEADING);
    }
    if !is_within(MAX_BLOCK, block) {
        return Err(WRONG_HEADING);
    }
    let drive = Drive {
        turns: turns as u32,
        switch: switch as u32,
        heads: heads as u32,
        block: block as u32,
    };
    Ok((drive, next))
}

// The ranges of a row that has to start at the cylinder `first`.
fn judge_row(
    first: u32,
    from: u64,
    last: u64,
    track: u64,
    next: usize,
) -> Result<(u32, u32, usize), u32>
    ensures { result ≡ judged_row first from last track next }
{
    if from != first as u64 {
        return Err(WRONG_ROW);
    }
    if last < from {
        return Err(WRONG_ROW);
    }
    if (MAX_CYLINDER as u64) < last {
        return Err(WRONG_ROW);
    }
    if !is_within(MAX_TRACK, track) {
        return Err(WRONG_ROW);
    }
    Ok((last as u32, track as u32, next))
}

// Three numbers up to the end of a line, and the offset after it.
fn read_three(text: &[u8], at: usize) -> Option<(u64, u64, u64, usize)>
    ensures { result ≡ three_read text.now at }
{
    let (first, after) = read_word(text, at, b' ')?;
    let (second, last) = read_word(text, after, b' ')?;
    let (third, next) = read_word(text, last, b'\n')?;
    Some((first, second, third, next))
}

// Line one: four numbers; and the offset after it. Or the refusal's number.
pub fn read_heading(text: &[u8]) -> Result<(Drive, usize), u32>
    ensures { result ≡ heading_in text.now }
{
    let (turns, at) = read_word(text, 0, b' ').ok_or(LINE_FORM)?;
    let (switch, heads, block, next) = read_three(text, at).ok_or(LINE_FORM)?;
    judge_heading(turns, switch, heads, block, next)
}

// The row at an offset, which has to start at the cylinder `first`: its last cylinder, its sectors a track, and the offset after the line. Or the
// refusal's number.
pub fn read_row(text: &[u8], at: usize, first: u32) -> Result<(u32, u32, usize), u32>
    ensures { result ≡ row_at first text.now at }
{
    let (from, last, track, next) = read_three(text, at).ok_or(LINE_FORM)?;
    judge_row(first, from, last, track, next)
}
