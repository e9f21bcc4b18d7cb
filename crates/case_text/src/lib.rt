// The text of worked cases: numbers, records and cards are read from a line, answers printed on one.
#![tactic(auto)]

pub mod runs; // numbers that rise by the same step

ghost use Rattle.std.specs.Prelude.{◌≡◌, ◌+◌, ◌<◌, ◌≤◌, length, IfOk, IfSome, IsOk};

use crate::runs::read_entries;
use card::{Figures, Verdict};
use program_io::read_full;
use std::io;
use std::io::Read;

// A number of a line, and where the next one may begin.
#[derive(Clone, Copy)]
pub struct Entry {
    pub value: u32,
    pub next: usize,
}

// What a digit stands for, a to f being 10 to 15.
pub fn digit(byte: u8) -> Option<u8>
    ensures { IfSome result (λ d. d < 16) }
{
    match byte {
        b'0'..=b'9' => Some(byte - b'0'),
        b'a'..=b'f' => Some(byte - b'a' + 10),
        _ => None,
    }
}

// The first place from `start` on that has no space.
pub fn past_spaces(text: &[u8], start: usize) -> usize {
    for at in start..text.len() {
        if text[at] != b' ' {
            return at;
        }
    }
    start.max(text.len())
}

// The decimal number from `start` on, spaces before it skipped; 0 where there is none. It has nine digits at most.
pub fn read_number(text: &[u8], start: usize) -> Entry {
    let first = past_spaces(text, start);
    let mut value: u32 = 0;
    for next in first..text.len() {
        let byte = text[next];
        if !byte.is_ascii_digit() {
            return Entry { value, next };
        }
        value = value % 100000000 * 10 + u32::from(byte - b'0');
    }
    Entry {
        value,
        next: first.max(text.len()),
    }
}

fn no_zones() -> [u32; 64] {
    [0u32; 64]
}

fn no_films() -> [u32; 16] {
    [0u32; 16]
}

fn no_table() -> [u32; 257] {
    [0u32; 257]
}

// A record of figures: kind, zones, films, the 16 film entries as runs, B, c, the 257 overheads as runs, then positions and time of each zone.
// What is missing is 0.
pub fn read_record(text: &[u8], start: usize) -> Figures {
    let kind = read_number(text, start);
    let zones = read_number(text, kind.next);
    let films = read_number(text, zones.next);
    let mut blocks = no_films();
    let mut at = read_entries(text, films.next, &mut blocks);
    let bytes = read_number(text, at);
    let rate = read_number(text, bytes.next);
    let mut table = no_table();
    at = read_entries(text, rate.next, &mut table);
    let mut positions = no_zones();
    let mut times = no_zones();
    for i in 0..64 {
        let count = read_number(text, at);
        let time = read_number(text, count.next);
        positions[i] = count.value;
        times[i] = time.value;
        at = time.next;
    }
    Figures {
        kind: kind.value,
        zones: zones.value,
        positions,
        times,
        films: films.value,
        blocks,
        bytes: bytes.value,
        rate: rate.value,
        table,
    }
}

// The byte of the two hexadecimal digits at a place.
fn byte_at(text: &[u8], at: usize) -> Option<u8>
    ensures { IfSome result (λ byte. at + 2 ≤ length text.now) }
{
    let high = digit(*text.get(at)?)?;
    let low = digit(*text.get(at + 1)?)?;
    Some(high * 16 + low)
}

// Puts the bytes of a card, two hexadecimal digits each, at the start of `out`, and answers how many there are.
pub fn read_bytes(text: &[u8], start: usize, out: &mut [u8]) -> usize
    ensures { result ≤ length out.new }
{
    let mut at = past_spaces(text, start);
    for count in 0..out.len() {
        let Some(byte) = byte_at(text, at) else {
            return count;
        };
        out[count] = byte;
        at += 2;
    }
    out.len()
}

// A case: the letter for what is done, none where its line has no colon or no end; where what follows the letter begins; and where its line ends.
#[derive(Clone, Copy)]
pub struct Case {
    pub letter: Option<u8>,
    pub start: usize,
    pub end: usize,
}

// Before the first case.
pub fn no_case() -> Case {
    Case {
        letter: None,
        start: 0,
        end: 0,
    }
}

// The letter of a case after one more byte of its line: none within the name, a colon after it, then the first byte that is no space. After a zero
// byte there the name goes on.
fn next_letter(letter: Option<u8>, byte: u8) -> Option<u8> {
    match (letter, byte) {
        (None, b':') => Some(byte),
        (Some(b':'), 0) => None,
        (Some(b':'), b' ') => letter,
        (Some(b':'), _) => Some(byte),
        _ => letter,
    }
}

// The case after the last one. Its name is printed up to the colon, and before it the line feed that ends the last one.
pub fn next_case(rt: &impl Print, text: &[u8], last: Case) -> io::Result<Case>
    requires { last.end < length text.now }
    ensures { IfOk result (λ next. last.end < next.end) }
{
    let mut letter = None;
    let mut start = last.start;
    for at in last.end..text.len() {
        let byte = text[at];
        if byte == b'\n' && last.end < at {
            return Ok(Case {
                letter,
                start,
                end: at,
            });
        }
        match letter {
            None => rt.write_all(&[byte])?,
            Some(b':') => start = at + 1,
            Some(_) => {}
        }
        letter = next_letter(letter, byte);
    }
    Ok(Case {
        letter: None,
        start,
        end: text.len(),
    })
}

// Every line of a text: its name up to the colon, then what the program answers to the letter and what stands from a place on. Nothing is asked of it
// where there is no letter.
fn answer_lines<F: FnMut(&[u8], u8, usize) -> io::Result<()>>(
    rt: &impl Print,
    text: &[u8],
    mut answer: F,
) -> io::Result<()>
    requires { F.IsAlwaysCallable answer }
{
    let mut case = no_case();
    while case.end < text.len() {
        case = next_case(rt, text, case)?;
        if let Some(letter) = case.letter {
            answer(text, letter, case.start)?;
        }
    }
    Ok(())
}

// The same of the lines of the input.
pub fn run_cases<F: FnMut(&[u8], u8, usize) -> io::Result<()>>(
    rt: &impl Print,
    input: &mut impl Read,
    answer: F,
) -> io::Result<()>
    requires { F.IsAlwaysCallable answer }
{
    let mut text = [0u8; 65536];
    let count = read_full(input, &mut text)?;
    answer_lines(rt, &text[..count], answer)
}

pub fn print_refusal(rt: &impl Print, verdict: Verdict) -> io::Result<()> {
    print!(rt; " refused {} at {}", verdict.number, verdict.place)
}

// The refusal, where there is one.
pub fn print_if_refused(rt: &impl Print, verdict: Verdict) -> io::Result<()>
    ensures { verdict.number ≡ 0 → IsOk result }
{
    if verdict.number == 0 {
        return Ok(());
    }
    print_refusal(rt, verdict)
}
