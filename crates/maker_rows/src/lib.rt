// The rows of a maker's text, one after the other to its end.
#![tactic(auto)]

ghost use Rattle.std.specs.Prelude.{◌≡◌, [], ◌+◌, ◌<◌, length};
ghost use Rattle.numbers.specs.Limits.{no_number};
ghost use Rattle.maker_rows.specs.Rows.{rows_from};
ghost use Rattle.maker_rows.specs.Kept.{no_rows, kept_row, Holds};

use maker_lines::read_row;
use numbers::limits::MAX_ZONES;

// A refused row: the refusal's number, and its line.
#[derive(Clone, Copy)]
pub struct RefusedRow {
    pub number: u32,
    pub line: usize,
}

// The rows that are read.
#[derive(Clone, Copy)]
pub struct Rows {
    // How many rows there are.
    pub count: u32,
    // Cylinders and sectors a track of the first 64 rows, outermost first.
    pub cylinders: [u32; 64],
    pub tracks: [u32; 64],
}

fn no_rows() -> Rows
    ensures { result ≡ no_rows }
{
    let none = [0u32; 64];
    Rows {
        count: 0,
        cylinders: none,
        tracks: none,
    }
}

// The rows with one more; past the 64th it is only counted.
fn keep_row(rows: Rows, cylinders: u32, track: u32) -> Rows
    requires { rows.count + 1 < no_number }
    ensures { result ≡ kept_row rows cylinders track }
{
    let mut next = rows;
    let i = rows.count;
    next.count = i + 1;
    if MAX_ZONES <= i {
        return next;
    }
    next.cylinders[i as usize] = cylinders;
    next.tracks[i as usize] = track;
    next
}

// The rows from an offset on. Line one is line 1, so the line of a row is two more than the rows before it.
pub fn read_rows(text: &[u8], start: usize) -> Result<Rows, RefusedRow>
    ensures { Holds result (rows_from (length text.now) text.now start []) }
{
    let mut rows = no_rows();
    let mut first: u32 = 0;
    let mut at = start;
    while at < text.len() {
        let (last, track, next) = match read_row(text, at, first) {
            Ok(row) => row,
            Err(number) => {
                return Err(RefusedRow {
                    number,
                    line: rows.count as usize + 2,
                });
            }
        };
        rows = keep_row(rows, last - first + 1, track);
        first = last + 1;
        at = next;
    }
    Ok(rows)
}
