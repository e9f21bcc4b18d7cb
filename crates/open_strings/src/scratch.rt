// With a scratch in the lead list's place: 13 where it is too short, ahead of all else.
ghost use Rattle.std.specs.Prelude.{◌≡◌};
ghost use Rattle.desk_calls.specs.Calls.{open_scratch_answer, open_scratch_string};

use crate::open_by;
use desk_calls::number_answer;
use layout::FilmdiskAnswer;
use numbers::refusals::TOO_SHORT;
use plan::is_short;

// Opens a desk: 13, then 14, then 13 where the desk string has another length.
pub fn open(plan: &[u8], positions: &[u8], scratch: &[u8], desk: &mut [u8]) -> FilmdiskAnswer
    ensures { (result ≡ open_scratch_answer plan.now positions.now scratch.now desk.old)
        × (desk.new ≡ open_scratch_string plan.now positions.now scratch.now desk.old) }
{
    if is_short(scratch) {
        return number_answer(TOO_SHORT);
    }
    open_by(plan, positions, scratch, false, desk)
}
