// With a scratch in the lead list's place: 13 where it is too short, ahead of all else.
ghost use Rattle.std.specs.Prelude.{◌≡◌};
ghost use Rattle.desk_calls.specs.Calls.{begin_scratch_answer, begin_scratch_string};
ghost use Rattle.desk_calls.specs.Calls.{fetch_scratch_string, end_scratch_answer, end_scratch_string};

use crate::{begin_by, end_by};
use desk_calls::number_answer;
use layout::FilmdiskAnswer;
use numbers::refusals::TOO_SHORT;
use plan::is_short;

// Begins a sweep: 13, then 14, 15, 13.
pub fn begin(
    desk: &mut [u8],
    positions: &[u8],
    scratch: &[u8],
    fetches: &mut [u8],
) -> FilmdiskAnswer
    ensures { (result ≡ begin_scratch_answer desk.old positions.now scratch.now fetches.old)
        × (desk.new ≡ begin_scratch_string desk.old positions.now scratch.now fetches.old)
        × (fetches.new ≡ fetch_scratch_string desk.old positions.now scratch.now fetches.old) }
{
    if is_short(scratch) {
        return number_answer(TOO_SHORT);
    }
    begin_by(desk, positions, scratch, false, fetches)
}

// Ends a sweep: 13, then 14, 15, 19, 20, 21.
pub fn end(desk: &mut [u8], positions: &[u8], scratch: &[u8], draws: &[u8]) -> FilmdiskAnswer
    ensures { (result ≡ end_scratch_answer desk.old positions.now scratch.now draws.now)
        × (desk.new ≡ end_scratch_string desk.old positions.now scratch.now draws.now) }
{
    if is_short(scratch) {
        return number_answer(TOO_SHORT);
    }
    end_by(desk, positions, scratch, false, draws)
}
