// Reads the figures of a card as decimal numbers from standard input and writes the card to standard output.
#![tactic(auto)]

mod make; // the card of the words
mod scan; // the words of a text

use crate::make::{Refusal, make_card};
use crate::scan::{Scan, end_word, read_text};
use numbers::refusals::{
    CARD_ENDS, HALF_DEAD_TIME, NUMBER_FORM, RISING_TIME, WRONG_FILMS, WRONG_KIND, WRONG_MEASURE,
    WRONG_OVERHEAD, WRONG_ZONES,
};
use program_io::read_full;
use program_io::refused::{Refused, common_cause};
use std::io;

// The cause of a refusal, 1 to 11 of document 01 or 25, 26 and 30 of document 02.
fn cause(number: u32) -> &'static str {
    match number {
        CARD_ENDS => "text ends too early",
        NUMBER_FORM => "not a decimal number, or above 4,294,967,295",
        WRONG_KIND => "kind not 1 or 2",
        WRONG_ZONES => "zones out of range",
        RISING_TIME => "zone time above the one before",
        WRONG_MEASURE => "block bytes, rate, hop or return out of range",
        WRONG_OVERHEAD => "overhead out of range, or below the one before",
        HALF_DEAD_TIME => "zone time, times three, below the first zone's time",
        WRONG_FILMS => "films out of range, or blocks of all films above 16,384",
        _ => common_cause(number).unwrap_or("numbers left over"),
    }
}

// A refusal names the line of the number at fault.
fn refused(refusal: Refusal) -> Refused {
    Refused {
        number: refusal.number,
        line: Some(refusal.line),
        cause: cause(refusal.number),
    }
}

// Writes the card of the words, or says why there is none.
fn answer(out: &impl Print, err: &impl Print, s: Scan) -> io::Result<()> {
    let mut card = [0u8; 4096];
    match make_card(s, &mut card) {
        Ok(length) => {
            if out.write_all(&card[..length]).is_err() {
                return println!(err; "mkcard: cannot write the card");
            }
            Ok(())
        }
        Err(refusal) => println!(err; "mkcard: {}", refused(refusal)),
    }
}

// Reads the whole text, piece by piece.
fn main(rt: HostRuntime) -> io::Result<()> {
    let mut s = scan::start();
    let mut piece = [0u8; 65536];
    for _ in 0..u64::MAX {
        let count = read_full(&mut rt.stdin(), &mut piece)?;
        s = read_text(s, &piece[..count]);
        if count < piece.len() {
            break;
        }
    }
    answer(&rt, &rt.stderr(), end_word(s))
}
