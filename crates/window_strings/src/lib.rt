// The window call on lent byte strings.
#![tactic(auto)]

ghost use Rattle.std.specs.Prelude.{◌≡◌};
ghost use Rattle.window_strings.specs.Calls.{window_from, window_call};

use layout::{FilmdiskWindowAnswer, window_answer};
use numbers::refusals::NOT_SOUND;
use plan_layout::{PLAN_BYTES, read_plan};
use window::{Window, refused};

// The window of what a plan string says; 14 where it has another length.
fn window_of(plan: &[u8], positions: &[u8], count: u32) -> Window
    ensures { result ≡ window_from plan.now positions.now count }
{
    if plan.len() != PLAN_BYTES {
        return refused(NOT_SOUND);
    }
    window::worst_window(read_plan(plan), positions, count)
}

// The worst window of `count` blocks: 14, then 27.
pub fn worst_window(plan: &[u8], positions: &[u8], count: u32) -> FilmdiskWindowAnswer
    ensures { result ≡ window_call plan.now positions.now count }
{
    let window = window_of(plan, positions, count);
    window_answer(window.verdict, window.time, window.first, window.bytes)
}
