// Opening a desk on lent byte strings. Strings lent to one call share no byte.
#![tactic(auto)]

pub mod scratch; // with a scratch in the lead list's place

ghost use Rattle.std.specs.Prelude.{◌≡◌, length};
ghost use Rattle.numbers.specs.Refusals.{not_sound};
ghost use Rattle.desk.specs.Desk.{blank_desk};
ghost use Rattle.plan_layout.specs.Layout.{plan_size};
ghost use Rattle.desk_calls.specs.Calls.{refused_by, string_by, open_answer, open_string};
ghost use Rattle.desk_calls.specs.Inner.{plan_by};

use desk_calls::number_answer;
use desk_layout::{DESK_BYTES, clear_desk, write_fresh};
use layout::FilmdiskAnswer;
use numbers::refusals::{ACCEPTED, NOT_SOUND, TOO_SHORT};
use plan_check::is_plan_of;
use plan_layout::{PLAN_BYTES, numbers_at, scalars_at, sizes_at, table_at, times_at};

// Refuses an opening: 14. A desk string of the right length is then all zero.
fn refuse_open(desk: &mut [u8]) -> FilmdiskAnswer
    ensures { (result ≡ refused_by not_sound) × (desk.new ≡ string_by desk.old blank_desk) }
{
    if desk.len() == DESK_BYTES {
        clear_desk(desk);
        return number_answer(NOT_SOUND);
    }
    number_answer(NOT_SOUND)
}

// Opens a desk of a plan string of the right length.
fn open_plan(
    plan: &[u8],
    positions: &[u8],
    leads: &[u8],
    listed: bool,
    desk: &mut [u8],
) -> FilmdiskAnswer
    requires { length plan.now ≡ plan_size }
    ensures { let ls = plan_by listed plan.now leads.now in
        (result ≡ open_answer plan.now positions.now ls desk.old)
        × (desk.new ≡ open_string plan.now positions.now ls desk.old) }
{
    let figures = scalars_at(plan);
    let numbers = numbers_at(plan);
    let sizes = sizes_at(plan);
    let times = times_at(plan);
    let table = table_at(plan);
    if !is_plan_of(
        figures, &sizes, &times, &table, numbers, positions, leads, listed,
    ) {
        return refuse_open(desk);
    }
    if desk.len() != DESK_BYTES {
        return number_answer(TOO_SHORT);
    }
    write_fresh(desk, figures, &sizes, &times, &table, numbers);
    number_answer(ACCEPTED)
}

// Opens a desk with its lists, or with a scratch in the lead list's place.
pub fn open_by(
    plan: &[u8],
    positions: &[u8],
    leads: &[u8],
    listed: bool,
    desk: &mut [u8],
) -> FilmdiskAnswer
    ensures { let ls = plan_by listed plan.now leads.now in
        (result ≡ open_answer plan.now positions.now ls desk.old)
        × (desk.new ≡ open_string plan.now positions.now ls desk.old) }
{
    if plan.len() != PLAN_BYTES {
        return refuse_open(desk);
    }
    open_plan(plan, positions, leads, listed, desk)
}

// Opens a desk: 14, then 13 where the desk string has another length.
pub fn open(plan: &[u8], positions: &[u8], leads: &[u8], desk: &mut [u8]) -> FilmdiskAnswer
    ensures { (result ≡ open_answer plan.now positions.now leads.now desk.old)
        × (desk.new ≡ open_string plan.now positions.now leads.now desk.old) }
{
    open_by(plan, positions, leads, true, desk)
}
