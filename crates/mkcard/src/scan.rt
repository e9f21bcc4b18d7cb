// A text of figures, byte by byte: words between spaces, tabs, carriage returns and line feeds; `#` starts a comment that ends with its line.
ghost use Rattle.std.specs.Prelude.{◌≡◌};
ghost use Rattle.mkcard.specs.Scan.{begun, ended, stepped, scanned};

use decimal::grow;

// The most words that are kept. A card has at most 406 numbers (kind, zones, 64 zones of two, films, N of 16, B, c, 257 overheads), so one
// word more is left over, and words after that change no answer.
pub const WORDS: usize = 407;

// Lines are counted so far.
const MAX_LINE: u64 = 18446744073709551615;

// What has been read of a text.
#[derive(Clone, Copy)]
pub struct Scan {
    // The line of the next byte, from 1 on.
    pub line: u64,
    // In a comment.
    pub comment: bool,
    // The value of the word so far, NO_NUMBER where it is no number; outside of words there is none.
    pub word: Option<u64>,
    // How many words are kept.
    pub count: usize,
    // The value and the line of each word.
    pub values: [u64; WORDS],
    pub lines: [u64; WORDS],
}

// Before the first byte.
pub fn start() -> Scan
    ensures { result ≡ begun }
{
    Scan {
        line: 1,
        comment: false,
        word: None,
        count: 0,
        values: [0u64; WORDS],
        lines: [0u64; WORDS],
    }
}

// Keeps the word that ends here, if there is one.
pub fn end_word(s: Scan) -> Scan
    ensures { result ≡ ended s }
{
    let Some(value) = s.word else {
        return s;
    };
    let i = s.count;
    let mut next = s;
    next.word = None;
    if WORDS <= i {
        return next;
    }
    next.values[i] = value;
    next.lines[i] = s.line;
    next.count = i + 1;
    next
}

// One byte more.
fn step(s: Scan, byte: u8) -> Scan
    ensures { result ≡ stepped s byte }
{
    if byte == b'\n' {
        let mut next = end_word(s);
        let line = next.line;
        next.comment = false;
        if MAX_LINE <= line {
            return next;
        }
        next.line = line + 1;
        return next;
    }
    if s.comment {
        return s;
    }
    if byte == b'#' {
        let mut next = end_word(s);
        next.comment = true;
        return next;
    }
    match byte {
        b' ' | b'\t' | b'\r' => end_word(s),
        _ => {
            let mut next = s;
            next.word = Some(grow(s.word.unwrap_or(0), byte));
            next
        }
    }
}

// More of the text.
pub fn read_text(s: Scan, text: &[u8]) -> Scan
    ensures { result ≡ scanned s text.now }
{
    let mut next = s;
    for &byte in text {
        next = step(next, byte);
    }
    next
}
