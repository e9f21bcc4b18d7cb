// What the programs share of their input and of what they say: reading, and the refusal of a text of figures.
#![tactic(auto)]

pub mod refused; // the refusal of a text of figures

ghost use Rattle.std.specs.Prelude.{◌≤◌, length, IfOk};

use std::io;
use std::io::Read;

// Reads until the room is full or the input ends, and answers how many bytes it put at the start of the room.
pub fn read_full(input: &mut impl Read, room: &mut [u8]) -> io::Result<usize>
    ensures { IfOk result (λ n. n ≤ length room.new) }
{
    let mut done: usize = 0;
    while done < room.len() {
        let count = input.read(&mut room[done..])?;
        if count == 0 {
            break;
        }
        done += count;
    }
    Ok(done)
}
