// The maker's text of a disk: its numbers, and the figures that a card with them would give.
#![tactic(auto)]

mod figures; // the zones of the rows, and the record

ghost use Rattle.std.specs.Prelude.{◌≡◌};
ghost use Rattle.maker.specs.Maker.{read_maker};

use crate::figures::{answer, figures_of, refused_text, zones_of};
use card::{Figures, Verdict};
pub use maker_lines::Drive;
use maker_lines::read_heading;
use maker_rows::read_rows;
use numbers::limits::MAX_ZONES;
use numbers::refusals::WRONG_ZONES;

// The figures of an accepted text; all zero where it is refused. The place of a refusal is its line, from 1, or 0 for one after the text.
#[derive(Clone, Copy)]
pub struct MakerRead {
    pub verdict: Verdict,
    pub figures: Figures,
}

// Reads a maker's text with N, c, hop and return beside it: refusals 22 to 24 line by line, then 4 to 10 and 26 of the figures.
pub fn read_maker(text: &[u8], blocks: u32, rate: u32, hop: u32, back: u32) -> MakerRead
    ensures { result ≡ read_maker text.now blocks rate hop back }
{
    let (drive, next) = match read_heading(text) {
        Ok(heading) => heading,
        Err(number) => return refused_text(number, 1),
    };
    let rows = match read_rows(text, next) {
        Ok(rows) => rows,
        Err(row) => return refused_text(row.number, row.line),
    };
    if MAX_ZONES < rows.count {
        return refused_text(WRONG_ZONES, 0);
    }
    let zones = zones_of(drive, rows);
    answer(figures_of(rows.count, zones, drive.block, blocks, rate, hop, back))
}
