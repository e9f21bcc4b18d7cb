// The zones of the rows, innermost first, and the record of figures.
ghost use Rattle.std.specs.Prelude.{◌≡◌, ◌≤◌, ◌<◌, get_or, replicate};
ghost use Rattle.numbers.specs.Limits.{max_block};
ghost use Rattle.card_table.specs.Table.{straight};
ghost use Rattle.card.specs.Read.{blank_figures};
ghost use Rattle.tracks.specs.Tracks.{positions_in, time_in, narrowed};
ghost use Rattle.maker_rows.specs.Kept.{back_by};
ghost use Rattle.maker.specs.Fitting.{move_in, Fitting};
ghost use Rattle.maker.specs.Maker.{refused_text, filled, padded, judged_figures};

use crate::MakerRead;
use card::{Figures, Verdict, one_film};
use card_table::fill_straight;
use maker_lines::Drive;
use maker_rows::Rows;
use numbers::limits::{MAX_MOVE, STRAIGHT};
use numbers::units::SECTOR_BYTES;

// Positions and times of the zones; entries past them are zero.
#[derive(Clone, Copy)]
pub struct Zones {
    pub positions: [u32; 64],
    pub times: [u32; 64],
}

// An array of zeros.
fn zeros<const N: usize>() -> [u32; N]
    ensures { result ≡ replicate N 0 }
{
    [0; N]
}

// The zones of the rows: the last row is the innermost zone.
pub fn zones_of(drive: Drive, rows: Rows) -> Zones
    requires { Fitting drive rows }
    ensures { (result.positions ≡ padded
        (back_by rows.count (λ k. narrowed (positions_in drive.heads drive.block (get_or rows.cylinders k 0) (get_or rows.tracks k 0)))))
        × (result.times ≡ padded (back_by rows.count (λ k. narrowed (time_in drive.turns drive.switch drive.block (get_or rows.tracks k 0))))) }
{
    let mut zones = Zones {
        positions: zeros(),
        times: zeros(),
    };
    let count = rows.count as usize;
    for i in 0..count {
        let row = count - 1 - i;
        let cylinders = rows.cylinders[row];
        let track = rows.tracks[row];
        zones.positions[i] = tracks::positions(drive.heads, drive.block, cylinders, track);
        zones.times[i] = tracks::time(drive.turns, drive.switch, drive.block, track);
    }
    zones
}

// A hop or a return: one past its range counts as 0, which is out of range too.
fn move_in(v: u32) -> u32
    ensures { result ≡ move_in v }
{
    if MAX_MOVE < v {
        return 0;
    }
    v
}

// The table of overheads of hop and return.
fn table_of(hop: u32, back: u32) -> [u32; 257]
    ensures { result ≡ straight (move_in hop) (move_in back) }
{
    let mut table = zeros();
    fill_straight(&mut table, move_in(hop), move_in(back));
    table
}

// The record: the zones, and the figures of its one film beside them.
pub fn figures_of(
    count: u32,
    zones: Zones,
    block: u32,
    blocks: u32,
    rate: u32,
    hop: u32,
    back: u32,
) -> Figures
    requires { block ≤ max_block }
    ensures { result ≡ filled count zones.positions zones.times block blocks rate (move_in hop) (move_in back) }
{
    let positions = zones.positions;
    let times = zones.times;
    Figures {
        kind: STRAIGHT,
        zones: count,
        positions,
        times,
        films: 1,
        blocks: one_film(blocks),
        bytes: SECTOR_BYTES * block,
        rate,
        table: table_of(hop, back),
    }
}

// Figures that are all zero.
fn no_figures() -> Figures
    ensures { result ≡ blank_figures }
{
    Figures {
        kind: 0,
        zones: 0,
        positions: zeros(),
        times: zeros(),
        films: 0,
        blocks: zeros(),
        bytes: 0,
        rate: 0,
        table: zeros(),
    }
}

// A refused text.
pub fn refused_text(number: u32, line: usize) -> MakerRead
    ensures { result ≡ refused_text number line }
{
    MakerRead {
        verdict: Verdict {
            number,
            place: line,
        },
        figures: no_figures(),
    }
}

// The figures of a text, judged as a record's.
pub fn answer(figures: Figures) -> MakerRead
    ensures { result ≡ judged_figures figures }
{
    let verdict = card::judge_figures(figures);
    if verdict.number != 0 {
        return refused_text(verdict.number, 0);
    }
    MakerRead { verdict, figures }
}
