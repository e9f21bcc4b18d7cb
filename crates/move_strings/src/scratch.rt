// With a scratch in the lead list's place: 13 where it is too short, ahead of all else.
ghost use Rattle.std.specs.Prelude.{◌≡◌};
ghost use Rattle.desk_calls.specs.Calls.{join_scratch_answer, join_scratch_string};
ghost use Rattle.desk_calls.specs.Calls.{leave_scratch_answer, leave_scratch_string};

use crate::make_move;
use admission::{join_of, leave_of};
use desk_calls::number_answer;
use layout::FilmdiskAnswer;
use numbers::refusals::TOO_SHORT;
use plan::is_short;

// A free slot becomes asked: 13, then 14 to 17, 31, 18.
pub fn join(
    desk: &mut [u8],
    positions: &[u8],
    scratch: &[u8],
    slot: u32,
    block: u32,
    film: u32,
) -> FilmdiskAnswer
    ensures { (result ≡ join_scratch_answer desk.old positions.now scratch.now slot block film)
        × (desk.new ≡ join_scratch_string desk.old positions.now scratch.now slot block film) }
{
    if is_short(scratch) {
        return number_answer(TOO_SHORT);
    }
    make_move(desk, positions, scratch, false, join_of(slot, block, film))
}

// An occupied slot becomes free: 13, then 14 to 17.
pub fn leave(desk: &mut [u8], positions: &[u8], scratch: &[u8], slot: u32) -> FilmdiskAnswer
    ensures { (result ≡ leave_scratch_answer desk.old positions.now scratch.now slot)
        × (desk.new ≡ leave_scratch_string desk.old positions.now scratch.now slot) }
{
    if is_short(scratch) {
        return number_answer(TOO_SHORT);
    }
    make_move(desk, positions, scratch, false, leave_of(slot))
}
