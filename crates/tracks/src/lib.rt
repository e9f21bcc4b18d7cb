// What a maker's numbers say of a zone: its positions, and the time to read one block there. A result past 32 bits is answered as
// 4,294,967,295, which is out of range for both.
#![tactic(auto)]

ghost use Rattle.std.specs.Prelude.{◌≡◌, ◌+◌, ◌^◌, ◌≤◌, ◌<◌};
ghost use Rattle.numbers.specs.Limits.{max_turns, max_switch, max_heads, max_block, max_cylinder, max_track};
ghost use Rattle.tracks.specs.Tracks.{rounded_up, positions_in, time_in, narrowed};

use numbers::limits::MAX_NUMBER;
use numbers::units::MINUTE;
use streams::product;

// a / b, rounded up.
fn round_up(a: u64, b: u64) -> u64
    requires { (0 < b) × (a + b < 2 ^ 64) }
    ensures { result ≡ rounded_up a b }
{
    (a + (b - 1)) / b
}

// A number of 32 bits, the greatest for all that are greater.
fn narrow(a: u64) -> u32
    ensures { result ≡ narrowed a }
{
    if MAX_NUMBER as u64 <= a {
        return MAX_NUMBER;
    }
    a as u32
}

// The positions of a zone: heads × cylinders × sectors a track, divided by sectors in a block, rounded down.
pub fn positions(heads: u32, block: u32, cylinders: u32, track: u32) -> u32
    requires { (heads ≤ max_heads) × (0 < block) × (cylinders ≤ max_cylinder + 1) }
    ensures { result ≡ narrowed (positions_in heads block cylinders track) }
{
    narrow(product(heads * cylinders, track) / block as u64)
}

// The time to read a block in a zone, in microseconds: its sectors at the speed of a turn, and a switch at each track that they reach.
pub fn time(turns: u32, switch: u32, block: u32, track: u32) -> u32
    requires { (0 < turns) × (turns ≤ max_turns) × (switch ≤ max_switch) × (0 < block) × (block ≤ max_block) × (0 < track) × (track ≤ max_track) }
    ensures { result ≡ narrowed (time_in turns switch block track) }
{
    let reading = round_up(product(block, MINUTE), (turns * track) as u64);
    let switches = round_up((block - 1) as u64, track as u64);
    narrow(reading + product(switch, switches as u32))
}
