// A desk tested where it lies.
#![tactic(auto)]

mod leads; // the leads of its slots, added up
mod places; // the test of their places
mod slots; // the test of its slots

ghost use Rattle.std.specs.Prelude.{◌≡◌, false, ◌≤◌, length};
ghost use Rattle.words.specs.Words.{words_of};
ghost use Rattle.plan.specs.Answer.{is_plan};
ghost use Rattle.plan.specs.Scratch.{leads_by};
ghost use Rattle.desk_layout.specs.Layout.{desk_in, desk_size};
ghost use Rattle.soundness.specs.Facts.{sound_desk, TestIs, ZonesRead};

use crate::leads::sum_next;
use crate::places::all_placed;
use crate::slots::{players_hold, test_slots};
use desk_columns::{bytes_in, overheads, phase_in, rate_in, streams_in, zone_sizes, zone_times};
use floor::low_water;
use numbers::slots::SWEEPING;
use plan_layout::{numbers_at, scalars_at};

// Is the plan of a desk, whose zones are lent, the plan of its figures, and do both lists begin with its entries? A scratch, not `listed`, is
// asked nothing.
fn has_plan<'a>(
    desk: &[u8],
    sizes: &'a [u32; 64],
    times: &'a [u32; 64],
    positions: &[u8],
    leads: &[u8],
    listed: bool,
) -> bool
    requires { (desk_size ≤ length desk.now) × ZonesRead (desk_in (words_of desk.now)) sizes.now times.now }
    ensures { let p = (desk_in (words_of desk.now)).plan in
        result ≡ is_plan p positions.now (leads_by listed p leads.now) }
{
    let table = overheads(desk);
    plan_check::is_plan_of(
        scalars_at(desk),
        sizes,
        times,
        &table,
        numbers_at(desk),
        positions,
        leads,
        listed,
    )
}

// What the test of a desk answers: whether it is sound, and then what the leads of its filling and playing slots add up to.
#[derive(Clone, Copy)]
pub struct Test {
    pub sound: bool,
    pub leads: u32,
}

// The answer for a desk that is not sound.
fn unsound() -> Test
    ensures { result.sound ≡ false }
{
    Test {
        sound: false,
        leads: 0,
    }
}

// Tests the desk in a lent string with the lent lists, or with a scratch in the lead list's place.
pub fn test_desk(desk: &[u8], positions: &[u8], leads: &[u8], listed: bool) -> Test
    requires { desk_size ≤ length desk.now }
    ensures { let d = desk_in (words_of desk.now) in TestIs d positions.now (leads_by listed d.plan leads.now) result }
{
    let sizes = zone_sizes(desk);
    let times = zone_times(desk);
    if !has_plan(desk, &sizes, &times, positions, leads, listed) {
        return unsound();
    }
    if phase_in(desk) > SWEEPING {
        return unsound();
    }
    let streams = streams_in(desk) as usize;
    let slots = test_slots(desk, streams);
    if !slots.tidy {
        return unsound();
    }
    if !all_placed(desk, streams, slots.asked) {
        return unsound();
    }
    let sum = sum_next(desk, streams, &sizes, &times, positions, leads, listed);
    let mark = low_water(bytes_in(desk), rate_in(desk), sum);
    Test {
        sound: players_hold(desk, streams, mark),
        leads: sum,
    }
}

// Is the desk in a lent string sound?
pub fn is_sound(desk: &[u8], positions: &[u8], leads: &[u8], listed: bool) -> bool
    requires { desk_size ≤ length desk.now }
    ensures { let d = desk_in (words_of desk.now) in
        result ≡ sound_desk d positions.now (leads_by listed d.plan leads.now) }
{
    let test = test_desk(desk, positions, leads, listed);
    test.sound
}
