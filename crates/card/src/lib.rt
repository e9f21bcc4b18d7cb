// The figures of a card: their record, and its judge.
#![tactic(auto)]

pub mod judge; // the figures of a record, in the card's order

ghost use Rattle.std.specs.Prelude.{◌≡◌};
ghost use Rattle.card.specs.Card.{one_film, judge_record};

// The figures of a card. Entries past the zones, and past the films, are zero.
#[derive(Clone, Copy)]
pub struct Figures {
    // 1: overheads by hop and return; 2: measured ones.
    pub kind: u32,
    pub zones: u32,
    // Positions of each zone, innermost first.
    pub positions: [u32; 64],
    // Time to read one block in each zone, in microseconds.
    pub times: [u32; 64],
    // The films of the shelf.
    pub films: u32,
    // N of each film, its blocks.
    pub blocks: [u32; 16],
    // B, the bytes of a block.
    pub bytes: u32,
    // c, the top rate in bytes a second.
    pub rate: u32,
    // The overhead of a sweep of 0 to 256 blocks, in microseconds.
    pub table: [u32; 257],
}

// The figures that are single numbers, and the films; a caller that lends the other arrays hands them over so.
#[derive(Clone, Copy)]
pub struct Scalars {
    pub kind: u32,
    pub zones: u32,
    pub films: u32,
    pub blocks: [u32; 16],
    pub bytes: u32,
    pub rate: u32,
}

// The refusal number of document 01 or 02 and what is returned with it; 0 and 0 where the call is accepted.
#[derive(Clone, Copy)]
pub struct Verdict {
    pub number: u32,
    pub place: usize,
}

// The figures of an accepted card; all zero where it is refused.
#[derive(Clone, Copy)]
pub struct CardRead {
    pub verdict: Verdict,
    pub figures: Figures,
}

// The length of a written card; zero where it is refused.
#[derive(Clone, Copy)]
pub struct CardWritten {
    pub verdict: Verdict,
    pub length: usize,
}

// The film entries of a record with one film of n blocks.
pub fn one_film(n: u32) -> [u32; 16]
    ensures { result ≡ one_film n }
{
    let mut blocks = [0u32; 16];
    blocks[0] = n;
    blocks
}

// Judges a record of figures: refusals 3 to 10, 26 right after 7, 30 before 8 and right after it, and 25 for the overheads of kind 2, offset 0.
pub fn judge_figures(figures: Figures) -> Verdict
    ensures { result ≡ judge_record 1 figures }
{
    judge_figures_of(figures, 1)
}

// Judges them for blocks of so many positions each, 2 for half blocks: 28 in place of 9.
pub fn judge_figures_of(figures: Figures, visits: u32) -> Verdict
    ensures { result ≡ judge_record visits figures }
{
    Verdict {
        number: judge::fault_of_record(visits, figures),
        place: 0,
    }
}
