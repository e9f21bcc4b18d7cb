// The planner and the desk for C: numbers and byte strings, whose layouts docs/LAYOUT.md fixes. Strings lent to one call share no byte.
#![tactic(auto)]

ghost use Rattle.std.specs.Prelude.{◌≡◌};
ghost use Rattle.placement.specs.Showing.{one, loop, pairs};
ghost use Rattle.plan_strings.specs.Calls.{plan_answer, plan_string, positions_string, leads_string};
ghost use Rattle.plan_strings.specs.Calls.{plan_scratch_answer, plan_scratch_string, positions_scratch_string};
ghost use Rattle.desk_calls.specs.Calls.{open_answer, open_string, join_answer, join_string, leave_answer, leave_string, begin_answer, begin_string};
ghost use Rattle.desk_calls.specs.Calls.{fetch_string, end_answer, end_string, draw_limit_of};
ghost use Rattle.desk_calls.specs.Calls.{open_scratch_answer, open_scratch_string, join_scratch_answer, join_scratch_string, leave_scratch_answer};
ghost use Rattle.desk_calls.specs.Calls.{leave_scratch_string, begin_scratch_answer, begin_scratch_string, fetch_scratch_string, end_scratch_answer};
ghost use Rattle.desk_calls.specs.Calls.{end_scratch_string};
ghost use Rattle.window_strings.specs.Calls.{window_call};

use layout::{FilmdiskAnswer, FilmdiskWindowAnswer};

// Plans a card for one showing: 1 to 11, 25, 26 and 30, then 13, then 12.
#[unsafe(no_mangle)]
pub extern "C" fn filmdisk_plan(
    card: &[u8],
    plan: &mut [u8],
    positions: &mut [u8],
    leads: &mut [u8],
) -> FilmdiskAnswer
    ensures { (result ≡ plan_answer one card.now plan.old positions.old leads.old)
        × (plan.new ≡ plan_string one card.now plan.old positions.old leads.old)
        × (positions.new ≡ positions_string one card.now plan.old positions.old leads.old)
        × (leads.new ≡ leads_string one card.now plan.old positions.old leads.old) }
{
    plan_strings::plan(card, plan, positions, leads)
}

// Plans a card as a loop: 1 to 11, 25, 26 and 30, then 13, then 12.
#[unsafe(no_mangle)]
pub extern "C" fn filmdisk_plan_loop(
    card: &[u8],
    plan: &mut [u8],
    positions: &mut [u8],
    leads: &mut [u8],
) -> FilmdiskAnswer
    ensures { (result ≡ plan_answer loop card.now plan.old positions.old leads.old)
        × (plan.new ≡ plan_string loop card.now plan.old positions.old leads.old)
        × (positions.new ≡ positions_string loop card.now plan.old positions.old leads.old)
        × (leads.new ≡ leads_string loop card.now plan.old positions.old leads.old) }
{
    plan_strings::plan_loop(card, plan, positions, leads)
}

// Plans a card for one showing of half blocks, each on two positions: 1 to 8, 28 in place of 9, 10, 11, 25, 26 and 30, then 13, then 12.
#[unsafe(no_mangle)]
pub extern "C" fn filmdisk_plan_pairs(
    card: &[u8],
    plan: &mut [u8],
    positions: &mut [u8],
    leads: &mut [u8],
) -> FilmdiskAnswer
    ensures { (result ≡ plan_answer pairs card.now plan.old positions.old leads.old)
        × (plan.new ≡ plan_string pairs card.now plan.old positions.old leads.old)
        × (positions.new ≡ positions_string pairs card.now plan.old positions.old leads.old)
        × (leads.new ≡ leads_string pairs card.now plan.old positions.old leads.old) }
{
    plan_strings::plan_pairs(card, plan, positions, leads)
}

// Plans a card for one showing with a scratch of 512 numbers in place of the lead list: 1 to 11, 25, 26 and 30, then 13, then 12. The scratch stays
// as it was.
#[unsafe(no_mangle)]
pub extern "C" fn filmdisk_plan_scratch(
    card: &[u8],
    plan: &mut [u8],
    positions: &mut [u8],
    scratch: &mut [u8],
) -> FilmdiskAnswer
    ensures { (result ≡ plan_scratch_answer one card.now plan.old positions.old scratch.old)
        × (plan.new ≡ plan_scratch_string one card.now plan.old positions.old scratch.old)
        × (positions.new ≡ positions_scratch_string one card.now plan.old positions.old scratch.old)
        × (scratch.new ≡ scratch.old) }
{
    plan_strings::plan_scratch(card, plan, positions, scratch)
}

// Plans a card as a loop with a scratch of 512 numbers in place of the lead list: 1 to 11, 25, 26 and 30, then 13, then 12. The scratch stays as it
// was.
#[unsafe(no_mangle)]
pub extern "C" fn filmdisk_plan_loop_scratch(
    card: &[u8],
    plan: &mut [u8],
    positions: &mut [u8],
    scratch: &mut [u8],
) -> FilmdiskAnswer
    ensures { (result ≡ plan_scratch_answer loop card.now plan.old positions.old scratch.old)
        × (plan.new ≡ plan_scratch_string loop card.now plan.old positions.old scratch.old)
        × (positions.new ≡ positions_scratch_string loop card.now plan.old positions.old scratch.old)
        × (scratch.new ≡ scratch.old) }
{
    plan_strings::plan_loop_scratch(card, plan, positions, scratch)
}

// Plans a card for one showing of half blocks with a scratch of 512 numbers in place of the lead list: 1 to 8, 28 in place of 9, 10, 11, 25, 26 and 30,
// then 13, then 12. The scratch stays as it was.
#[unsafe(no_mangle)]
pub extern "C" fn filmdisk_plan_pairs_scratch(
    card: &[u8],
    plan: &mut [u8],
    positions: &mut [u8],
    scratch: &mut [u8],
) -> FilmdiskAnswer
    ensures { (result ≡ plan_scratch_answer pairs card.now plan.old positions.old scratch.old)
        × (plan.new ≡ plan_scratch_string pairs card.now plan.old positions.old scratch.old)
        × (positions.new ≡ positions_scratch_string pairs card.now plan.old positions.old scratch.old)
        × (scratch.new ≡ scratch.old) }
{
    plan_strings::plan_pairs_scratch(card, plan, positions, scratch)
}

// The worst time of so many successive blocks of a plan with its positions list: 14, then 27.
#[unsafe(no_mangle)]
pub extern "C" fn filmdisk_window(
    plan: &[u8],
    positions: &[u8],
    blocks: u32,
) -> FilmdiskWindowAnswer
    ensures { result ≡ window_call plan.now positions.now blocks }
{
    window_strings::worst_window(plan, positions, blocks)
}

// Opens a desk of a plan and its lists: 14, then 13.
#[unsafe(no_mangle)]
pub extern "C" fn filmdisk_open(
    plan: &[u8],
    positions: &[u8],
    leads: &[u8],
    desk: &mut [u8],
) -> FilmdiskAnswer
    ensures { (result ≡ open_answer plan.now positions.now leads.now desk.old)
        × (desk.new ≡ open_string plan.now positions.now leads.now desk.old) }
{
    open_strings::open(plan, positions, leads, desk)
}

// A free slot asks to watch a film from a start block: 14 to 17, 31, 18.
#[unsafe(no_mangle)]
pub extern "C" fn filmdisk_join(
    desk: &mut [u8],
    positions: &[u8],
    leads: &[u8],
    slot: u32,
    block: u32,
    film: u32,
) -> FilmdiskAnswer
    ensures { (result ≡ join_answer desk.old positions.now leads.now slot block film)
        × (desk.new ≡ join_string desk.old positions.now leads.now slot block film) }
{
    move_strings::join(desk, positions, leads, slot, block, film)
}

// An occupied slot becomes free: 14 to 17.
#[unsafe(no_mangle)]
pub extern "C" fn filmdisk_leave(
    desk: &mut [u8],
    positions: &[u8],
    leads: &[u8],
    slot: u32,
) -> FilmdiskAnswer
    ensures { (result ≡ leave_answer desk.old positions.now leads.now slot)
        × (desk.new ≡ leave_string desk.old positions.now leads.now slot) }
{
    move_strings::leave(desk, positions, leads, slot)
}

// Begins a sweep: 14, 15, 13.
#[unsafe(no_mangle)]
pub extern "C" fn filmdisk_begin(
    desk: &mut [u8],
    positions: &[u8],
    leads: &[u8],
    fetches: &mut [u8],
) -> FilmdiskAnswer
    ensures { (result ≡ begin_answer desk.old positions.now leads.now fetches.old)
        × (desk.new ≡ begin_string desk.old positions.now leads.now fetches.old)
        × (fetches.new ≡ fetch_string desk.old positions.now leads.now fetches.old) }
{
    sweep_strings::begin(desk, positions, leads, fetches)
}

// Ends a sweep with the draws of its slots: 14, 15, 19, 20, 21.
#[unsafe(no_mangle)]
pub extern "C" fn filmdisk_end(
    desk: &mut [u8],
    positions: &[u8],
    leads: &[u8],
    draws: &[u8],
) -> FilmdiskAnswer
    ensures { (result ≡ end_answer desk.old positions.now leads.now draws.now)
        × (desk.new ≡ end_string desk.old positions.now leads.now draws.now) }
{
    sweep_strings::end(desk, positions, leads, draws)
}

// What a slot of a desk may draw in a sweep of this bound: above it an end answers 20. 0 for any other string and any other slot.
#[unsafe(no_mangle)]
pub extern "C" fn filmdisk_draw_limit(desk: &[u8], slot: u32, bound: u32) -> u64
    ensures { result ≡ draw_limit_of desk.now slot bound }
{
    sweep_strings::draw_limit(desk, slot, bound)
}

// Opens a desk of a plan and its positions, with a scratch in the lead list's place: 13, then 14, then 13.
#[unsafe(no_mangle)]
pub extern "C" fn filmdisk_open_scratch(
    plan: &[u8],
    positions: &[u8],
    scratch: &[u8],
    desk: &mut [u8],
) -> FilmdiskAnswer
    ensures { (result ≡ open_scratch_answer plan.now positions.now scratch.now desk.old)
        × (desk.new ≡ open_scratch_string plan.now positions.now scratch.now desk.old) }
{
    open_strings::scratch::open(plan, positions, scratch, desk)
}

// A free slot asks to watch a film from a start block, with a scratch: 13, then 14 to 17, 31, 18.
#[unsafe(no_mangle)]
pub extern "C" fn filmdisk_join_scratch(
    desk: &mut [u8],
    positions: &[u8],
    scratch: &[u8],
    slot: u32,
    block: u32,
    film: u32,
) -> FilmdiskAnswer
    ensures { (result ≡ join_scratch_answer desk.old positions.now scratch.now slot block film)
        × (desk.new ≡ join_scratch_string desk.old positions.now scratch.now slot block film) }
{
    move_strings::scratch::join(desk, positions, scratch, slot, block, film)
}

// An occupied slot becomes free, with a scratch: 13, then 14 to 17.
#[unsafe(no_mangle)]
pub extern "C" fn filmdisk_leave_scratch(
    desk: &mut [u8],
    positions: &[u8],
    scratch: &[u8],
    slot: u32,
) -> FilmdiskAnswer
    ensures { (result ≡ leave_scratch_answer desk.old positions.now scratch.now slot)
        × (desk.new ≡ leave_scratch_string desk.old positions.now scratch.now slot) }
{
    move_strings::scratch::leave(desk, positions, scratch, slot)
}

// Begins a sweep, with a scratch: 13, then 14, 15, 13.
#[unsafe(no_mangle)]
pub extern "C" fn filmdisk_begin_scratch(
    desk: &mut [u8],
    positions: &[u8],
    scratch: &[u8],
    fetches: &mut [u8],
) -> FilmdiskAnswer
    ensures { (result ≡ begin_scratch_answer desk.old positions.now scratch.now fetches.old)
        × (desk.new ≡ begin_scratch_string desk.old positions.now scratch.now fetches.old)
        × (fetches.new ≡ fetch_scratch_string desk.old positions.now scratch.now fetches.old) }
{
    sweep_strings::scratch::begin(desk, positions, scratch, fetches)
}

// Ends a sweep with the draws of its slots, with a scratch: 13, then 14, 15, 19, 20, 21.
#[unsafe(no_mangle)]
pub extern "C" fn filmdisk_end_scratch(
    desk: &mut [u8],
    positions: &[u8],
    scratch: &[u8],
    draws: &[u8],
) -> FilmdiskAnswer
    ensures { (result ≡ end_scratch_answer desk.old positions.now scratch.now draws.now)
        × (desk.new ≡ end_scratch_string desk.old positions.now scratch.now draws.now) }
{
    sweep_strings::scratch::end(desk, positions, scratch, draws)
}
