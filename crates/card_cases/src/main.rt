// Runs the card cases of document 01, cards of both kinds damaged for each of the refusals 1 to 11, 25, 26 and 30, records and the writer.
// Standard input has a case on each line: its name, which has no colon, then a colon, a letter for what is done, and what it is done to. RUNS are
// numbers: V is V, V*N is N times V, and V+S*N is V, V + S, .., N numbers in all.
//
//     NAME: c CARD           reads a card, its bytes in hexadecimal
//     NAME: n RUNS           reads a card, its numbers in decimal
//     NAME: j RECORD         judges a record: kind zones films, RUNS of 16 film entries, B c, RUNS of 257 overheads, then positions and time of
//                            each zone; what is missing is 0
//     NAME: w SIZE RECORD    writes a record's card into a buffer of SIZE bytes, 4,096 at most
//
// A line is printed for each: its name and the answer; a line with no colon as it is.
#![tactic(auto)]

use card::Figures;
use case_text::runs::read_runs;
use case_text::{print_refusal, read_bytes, read_number, read_record, run_cases};
use std::io;

// The number of films, and N of each.
fn show_films(rt: &impl Print, films: u32, blocks: &[u32; 16]) -> io::Result<()> {
    print!(rt; " {films}")?;
    for count in blocks.iter().take(films as usize) {
        print!(rt; " {count}")?;
    }
    Ok(())
}

// An accepted card's figures, and whether it is the card that the writer makes of them.
fn show_accepted(rt: &impl Print, f: Figures, bytes: &[u8]) -> io::Result<()> {
    print!(rt; " accepted {} {}", f.kind, f.zones)?;
    show_films(rt, f.films, &f.blocks)?;
    let (first, second, last) = (f.table[0], f.table[1], f.table[256]);
    print!(rt; " {} {} {first} {second} {last}", f.bytes, f.rate)?;
    let mut buffer = [0u8; 4096];
    let w = card_writer::write_card(f, &mut buffer);
    print!(rt; " {}", w.length)?;
    if buffer.get(..w.length) == Some(bytes) {
        print!(rt; " same")?;
    }
    Ok(())
}

// The answer of the reader.
fn show_card(rt: &impl Print, bytes: &[u8]) -> io::Result<()> {
    let r = card_reader::read_card(bytes);
    let v = r.verdict;
    if v.number != 0 {
        return print_refusal(rt, v);
    }
    show_accepted(rt, r.figures, bytes)
}

// The writer's answer: the length, the first byte of the buffer, and the refusal, 0 where there is none.
fn show_written(rt: &impl Print, f: Figures, size: u32) -> io::Result<()> {
    let mut buffer = [0u8; 4096];
    let n = (size as usize).min(buffer.len());
    let w = card_writer::write_card(f, &mut buffer[..n]);
    print!(rt; " length {} {}", w.length, buffer[0])?;
    print_refusal(rt, w.verdict)
}

// Does what the letter says to what stands from `start` on.
fn run_case(rt: &impl Print, text: &[u8], letter: u8, start: usize) -> io::Result<()> {
    match letter {
        b'c' => {
            let mut card = [0u8; 4096];
            let n = read_bytes(text, start, &mut card);
            show_card(rt, &card[..n])
        }
        b'n' => {
            let mut card = [0u8; 4096];
            let n = read_runs(text, start, &mut card);
            show_card(rt, &card[..n])
        }
        b'j' => print_refusal(rt, card::judge_figures(read_record(text, start))),
        b'w' => {
            let size = read_number(text, start);
            show_written(rt, read_record(text, size.next), size.value)
        }
        _ => Ok(()),
    }
}

fn main(rt: HostRuntime) -> io::Result<()> {
    run_cases(
        &rt,
        &mut rt.stdin(),
        |text, letter, start| run_case(&rt, text, letter, start),
    )
}
