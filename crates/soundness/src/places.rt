// The test of the places of a desk where it lies.
ghost use Rattle.std.specs.Prelude.{◌≡◌, ℕ, ◌≤◌, length, get_or, take};
ghost use Rattle.numbers.specs.Limits.{max_streams};
ghost use Rattle.words.specs.Words.{words_of};
ghost use Rattle.desk.specs.Asked.{asked_count};
ghost use Rattle.desk_layout.specs.Layout.{desk_in, desk_size};
ghost use Rattle.soundness.specs.Facts.{Tells, Placed, OthersIdle};

use desk_columns::{kind_in, place_in};
use numbers::slots::WAITING;

// No place is seen.
fn unseen() -> [u8; 257]
    ensures { (length result ≡ 257) × ((x : ℕ) → get_or result x 0 ≡ 0) }
{
    [0u8; 257]
}

// Are the places of those of the first n slots that ask 1 up to their count, each once? Those of others are 0.
fn each_once(desk: &[u8], streams: usize, asked: u32) -> bool
    requires { let d = desk_in (words_of desk.now) in (streams ≤ max_streams) × (desk_size ≤ length desk.now) × (asked ≤ streams)
        × OthersIdle streams d.kinds d.places }
    ensures { let d = desk_in (words_of desk.now) in Tells result (Placed asked streams d.kinds d.places) }
{
    let mut seen = unseen();
    for i in 0..streams {
        if kind_in(desk, i) == WAITING {
            let place = place_in(desk, i);
            if place == 0 || place > asked || seen[place as usize] != 0 {
                return false;
            }
            seen[place as usize] = 1;
        }
    }
    true
}

// The same; none is looked at where none asks.
pub fn all_placed(desk: &[u8], streams: usize, asked: u32) -> bool
    requires { let d = desk_in (words_of desk.now) in (streams ≤ max_streams) × (desk_size ≤ length desk.now)
        × (asked ≡ asked_count (take streams d.kinds)) × (asked ≤ streams) × OthersIdle streams d.kinds d.places }
    ensures { let d = desk_in (words_of desk.now) in Tells result (Placed asked streams d.kinds d.places) }
{
    if asked == 0 {
        return true;
    }
    each_once(desk, streams, asked)
}
