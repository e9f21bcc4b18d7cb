// The card of the words of a text.
ghost use Rattle.std.specs.Prelude.{◌≡◌, List, ℕ, ◌+◌, ◌≤◌, length, take};
ghost use Rattle.laws.specs.Overwrite.{overwrite};
ghost use Rattle.leb128.specs.Number.{groups};
ghost use Rattle.card.specs.Card.{bytes_of};
ghost use Rattle.decimal.specs.Decimal.{capped};
ghost use Rattle.mkcard.specs.Scan.{most_words, most_bytes, numbers_in, line_of, card_of_words, made, text_of, Spelled, card_of_text};

use crate::scan::{Scan, WORDS};
use leb128::write_number;
use numbers::limits::NO_NUMBER;

// A refusal: its number, and the line of the text.
#[derive(Clone, Copy)]
pub struct Refusal {
    pub number: u32,
    pub line: u64,
}

// Writes the number of a word from an offset on and answers the offset after it.
fn write_word(out: &mut [u8], at: usize, value: u64) -> usize
    requires { at + 5 ≤ length out.old }
    ensures { (result ≡ at + length (groups (capped value))) × (out.new ≡ overwrite out.old at (groups (capped value))) }
{
    if value < NO_NUMBER {
        return write_number(out, at, value as u32);
    }
    // 80 80 80 80 10 (hex): 4,294,967,296, of which the last four bytes are 33,554,432
    out[at] = 128;
    write_number(out, at + 1, 33554432)
}

// Writes the numbers of the words from the front on and answers their length.
fn write_words(s: Scan, out: &mut [u8]) -> usize
    requires { most_bytes ≤ length out.old }
    ensures { (result ≡ length (card_of_words s)) × (out.new ≡ overwrite out.old 0 (card_of_words s)) }
{
    let mut at: usize = 0;
    for &value in &s.values[..s.count.min(WORDS)] {
        at = write_word(out, at, value);
    }
    at
}

// How many numbers end before a place.
fn numbers_before(card: &[u8], place: usize) -> usize
    ensures { result ≡ numbers_in (take place card.now) }
{
    card.iter().take(place).filter(|&&byte| byte < 128).count()
}

// The line of a word; past the words, where the text ends.
fn line_of(s: Scan, i: usize) -> u64
    ensures { result ≡ line_of s i }
{
    if s.count <= i {
        return s.line;
    }
    if WORDS <= i {
        return s.line;
    }
    s.lines[i]
}

// Writes the card of the words, has the reader judge it, and answers its length.
pub fn make_card(s: Scan, out: &mut [u8]) -> Result<usize, Refusal>
    requires { most_bytes ≤ length out.old }
    ensures { (result ≡ made s) × (out.new ≡ overwrite out.old 0 (card_of_words s)) }
{
    let length = write_words(s, out);
    let read = card_reader::read_card(&out[..length]);
    let verdict = read.verdict;
    if verdict.number == 0 {
        return Ok(length);
    }
    let word = numbers_before(&out[..length], verdict.place);
    Err(Refusal {
        number: verdict.number,
        line: line_of(s, word),
    })
}

// A text of at most 407 numbers of 32 bits in decimal, a line for each, makes the bytes of these numbers: of figures in the card's order, their card.
fn text_makes_its_card()
    ensures { (more : ℕ → ℕ) (vs : List ℕ) → length vs ≤ most_words → Spelled more vs → card_of_text (text_of more vs) ≡ bytes_of vs }
{}
