// Runs of numbers: `V` is V, `V*N` is N times V, and `V+S*N` is V, V + S, .., N numbers in all, cut to 32 bits.
ghost use Rattle.std.specs.Prelude.{◌≤◌, length};

use crate::{Entry, past_spaces, read_number};
use leb128::{number_length, write_number};

// A run, and where the next one may begin.
#[derive(Clone, Copy)]
pub struct Run {
    pub value: u32,
    pub step: u32,
    pub times: u32,
    pub next: usize,
}

// The number after a mark; without the mark the other value.
fn after_mark(text: &[u8], start: usize, mark: u8, other: u32) -> Entry {
    match text.get(start) {
        Some(&byte) if byte == mark => read_number(text, start + 1),
        _ => Entry {
            value: other,
            next: start,
        },
    }
}

fn read_run(text: &[u8], start: usize) -> Run {
    let value = read_number(text, start);
    let step = after_mark(text, value.next, b'+', 0);
    let times = after_mark(text, step.next, b'*', 1);
    Run {
        value: value.value,
        step: step.value,
        times: times.value,
        next: times.next,
    }
}

// Puts a run at the front of numbers, while there is room, and answers how many it put.
fn fill_run(entries: &mut [u32], run: Run) -> usize
    ensures { result ≤ length entries.new }
{
    let count = entries.len().min(run.times as usize);
    let mut value = run.value;
    for entry in &mut entries[..count] {
        *entry = value;
        value = value.wrapping_add(run.step);
    }
    count
}

// Fills numbers with runs, and answers where what follows them may begin.
pub fn read_entries(text: &[u8], start: usize, entries: &mut [u32]) -> usize {
    let mut at = start;
    let mut k: usize = 0;
    for _ in 0..entries.len() {
        if k == entries.len() {
            break;
        }
        let run = read_run(text, at);
        k += fill_run(&mut entries[k..], run);
        at = run.next;
    }
    at
}

// Writes the numbers of a run as those of a card from an offset on, while there is room, and answers the offset after them.
fn write_run(out: &mut [u8], start: usize, run: Run) -> usize
    requires { start ≤ length out.old }
    ensures { result ≤ length out.new }
{
    let mut value = run.value;
    let mut at = start;
    for _ in 0..run.times {
        if out.len() < at + number_length(value) {
            break;
        }
        at = write_number(out, at, value);
        value = value.wrapping_add(run.step);
    }
    at
}

// Puts the card of runs of numbers at the start of `out`, and answers how many bytes it has.
pub fn read_runs(text: &[u8], start: usize, out: &mut [u8]) -> usize
    ensures { result ≤ length out.new }
{
    let mut at = start;
    let mut count: usize = 0;
    for _ in 0..512 {
        at = past_spaces(text, at);
        if !text.get(at).is_some_and(u8::is_ascii_digit) {
            break;
        }
        let run = read_run(text, at);
        count = write_run(out, count, run);
        at = run.next;
    }
    count
}
