// The refusal of a text of figures, as a program says it.
ghost use Rattle.std.specs.Prelude.{◌≤◌, IfSome};
ghost use Rattle.numbers.specs.Refusals.{wrong_positions, blocks_above_positions};

use numbers::refusals::{BLOCKS_ABOVE_POSITIONS, WRONG_BLOCKS, WRONG_POSITIONS, WRONG_TIME};
use std::fmt;

// A refusal: its number, the line of the text where it names one, and the cause.
#[derive(Clone, Copy)]
pub struct Refused {
    pub number: u32,
    pub line: Option<u64>,
    pub cause: &'static str,
}

impl fmt::Display for Refused {
    fn fmt<W: fmt::Write>(&self, f: &mut fmt::Formatter<W>) -> fmt::Result {
        let number = self.number;
        let cause = self.cause;
        match self.line {
            Some(line) => write!(f, "refused {number} at line {line}: {cause}"),
            None => write!(f, "refused {number}: {cause}"),
        }
    }
}

// The cause of a refusal that is the same of every text: of a zone's positions or time, or of the film's blocks.
pub fn common_cause(number: u32) -> Option<&'static str>
    ensures { IfSome result (λ cause. (wrong_positions ≤ number) × (number ≤ blocks_above_positions)) }
{
    match number {
        WRONG_POSITIONS => Some("zone without positions, or total so far too great"),
        WRONG_TIME => Some("zone time out of range"),
        WRONG_BLOCKS => Some("film blocks out of range"),
        BLOCKS_ABOVE_POSITIONS => Some("film blocks above positions"),
        _ => None,
    }
}
