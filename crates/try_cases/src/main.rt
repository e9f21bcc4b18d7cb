// Runs the second planner on cases. Standard input has a case on each line: its name, which has no colon, then a colon, a letter, and what is
// tried. RECORD is kind zones films, then 16 film entries in runs (V*N is N times V, V+S*N is V, V + S, .., N numbers), then B c, 257 overheads in
// runs, then positions and time of each zone; what is missing is 0.
//
//     NAME: r RECORD    tries every laying of a record's film; R tries them as a loop
//     NAME: c CARD      of a card's, its bytes in hexadecimal; C as a loop
//
// A line is printed for each: its name, the refusal if there is one, worst2, and how many layings have it.
#![tactic(auto)]

use case_text::{print_if_refused, read_bytes, read_record, run_cases};
use std::io;
use try_all::{Tried, try_card, try_loop_card, try_loop_record, try_record};

fn print_answer(rt: &impl Print, tried: Tried) -> io::Result<()> {
    print_if_refused(rt, tried.verdict)?;
    print!(rt; " {} {}", tried.worst2, tried.count)
}

// Tries a card, by `C` as a loop.
fn try_bytes(letter: u8, card: &[u8]) -> Tried {
    match letter {
        b'C' => try_loop_card(card),
        _ => try_card(card),
    }
}

// Tries what stands from `start` on; a letter of no record stands before a card.
fn try_film(text: &[u8], letter: u8, start: usize) -> Tried {
    match letter {
        b'r' => try_record(read_record(text, start)),
        b'R' => try_loop_record(read_record(text, start)),
        _ => {
            let mut card = [0u8; 4096];
            let n = read_bytes(text, start, &mut card);
            try_bytes(letter, &card[..n])
        }
    }
}

fn main(rt: HostRuntime) -> io::Result<()> {
    run_cases(&rt, &mut rt.stdin(), |text, letter, start| {
        print_answer(&rt, try_film(text, letter, start))
    })
}
