// The card's writer: figures to bytes in a lent buffer.
#![tactic(auto)]

mod writing; // the numbers of a card, one after the other

ghost use Rattle.std.specs.Prelude.{◌≡◌};
ghost use Rattle.card.specs.Card.{written_card, buffer_after};

use card::judge::fault_of_record;
use card::{CardWritten, Figures, Verdict};
use numbers::refusals::{ACCEPTED, TOO_SHORT};

// Writes the card of figures into a lent buffer: refusals 3 to 10, 25, 26 and 30, then 13. The same walk counts its bytes first.
pub fn write_card(figures: Figures, out: &mut [u8]) -> CardWritten
    ensures { (result ≡ written_card figures out.old) × (out.new ≡ buffer_after figures out.old) }
{
    let number = fault_of_record(1, figures);
    if number != 0 {
        return writing::not_written(number);
    }
    let length = writing::put_card(figures, out, false);
    if out.len() < length {
        return writing::not_written(TOO_SHORT);
    }
    writing::put_card(figures, out, true);
    CardWritten {
        verdict: Verdict {
            number: ACCEPTED,
            place: 0,
        },
        length,
    }
}
