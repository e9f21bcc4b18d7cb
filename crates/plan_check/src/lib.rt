// The check of a plan: is a record the plan of its figures, and do the lists begin with its entries?
#![tactic(auto)]

ghost use Rattle.std.specs.Prelude.{◌≡◌, not, ◌&&◌, ◌||◌, length};
ghost use Rattle.numbers.specs.Limits.{max_zones, table_length};
ghost use Rattle.card.specs.declared.Figures.{Figures};
ghost use Rattle.plan.specs.Plan.{plan_from, lent_plan};
ghost use Rattle.plan.specs.Answer.{same_numbers, has_numbers, has_positions, has_leads, is_plan};
ghost use Rattle.plan.specs.Scratch.{leads_by};

use block_lists::both;
use card::Scalars;
use card::judge::fault_of_figures;
use numbers::refusals::ACCEPTED;
use plan::{Numbers, Plan, numbers_in, scalars_in, visits_of};
use plan_numbers::plan_numbers;
use shelf_lists::{same_shelf_leads, same_shelf_positions};
use zones::sum_positions;

// Two plans of the same figures have the same numbers: streams, buffer, worst2, margin, showing and worstat.
fn same_numbers(plan: Numbers, own: Numbers) -> bool
    ensures { (f : Figures) → result ≡ same_numbers (plan_from f plan) (plan_from f own) }
{
    let shown = both(plan.showing == own.showing, plan.worstat == own.worstat);
    let timed = both(
        plan.worst2 == own.worst2,
        both(plan.margin == own.margin, shown),
    );
    both(
        plan.streams == own.streams,
        both(plan.buffer == own.buffer, timed),
    )
}

// Has a plan the numbers of its figures in the showing that it names, and are these legal and feed a stream?
fn has_numbers<'a>(
    figures: Scalars,
    sizes: &'a [u32; 64],
    times: &'a [u32; 64],
    table: &'a [u32; 257],
    plan: Numbers,
) -> bool
    requires { (length sizes.now ≡ max_zones) × (length times.now ≡ max_zones) × (length table.now ≡ table_length) }
    ensures { result ≡ has_numbers (lent_plan figures sizes.now times.now table.now plan) }
{
    let visits = visits_of(plan.showing);
    if fault_of_figures(visits, figures, sizes, times, table) != ACCEPTED {
        return false;
    }
    let own = plan_numbers(figures, sizes, times, table, plan.showing);
    both(0 < own.streams, same_numbers(plan, own))
}

// Is a plan, its arrays lent, the plan of its figures, and do the lists begin with its entries? The leads are looked at where they are asked
// for.
fn is_plan_with<'a>(
    figures: Scalars,
    sizes: &'a [u32; 64],
    times: &'a [u32; 64],
    table: &'a [u32; 257],
    plan: Numbers,
    positions: &[u8],
    leads: &[u8],
    asked: bool,
) -> bool
    requires { (length sizes.now ≡ max_zones) × (length times.now ≡ max_zones) × (length table.now ≡ table_length) }
    ensures { let p = lent_plan figures sizes.now times.now table.now plan in
        result ≡ (has_numbers p && (has_positions p positions.now && (not asked || has_leads p leads.now))) }
{
    if !has_numbers(figures, sizes, times, table, plan) {
        return false;
    }
    let films = figures.films;
    let blocks = figures.blocks;
    let total = sum_positions(sizes, figures.zones);
    let placed = same_shelf_positions(plan.showing, total, &blocks, films, positions);
    if !asked {
        return placed;
    }
    let led = same_shelf_leads(
        sizes,
        times,
        plan.showing,
        total,
        &blocks,
        films,
        plan.worst2,
        leads,
    );
    both(placed, led)
}

// Is a plan, its arrays lent, the plan of its figures, and do both lists begin with its entries? A scratch in the lead list's place, not
// `listed`, is asked nothing.
pub fn is_plan_of<'a>(
    figures: Scalars,
    sizes: &'a [u32; 64],
    times: &'a [u32; 64],
    table: &'a [u32; 257],
    plan: Numbers,
    positions: &[u8],
    leads: &[u8],
    listed: bool,
) -> bool
    requires { (length sizes.now ≡ max_zones) × (length times.now ≡ max_zones) × (length table.now ≡ table_length) }
    ensures { let p = lent_plan figures sizes.now times.now table.now plan in
        result ≡ is_plan p positions.now (leads_by listed p leads.now) }
{
    is_plan_with(figures, sizes, times, table, plan, positions, leads, listed)
}

// The same for a call that has no leads.
pub fn is_laid_of<'a>(
    figures: Scalars,
    sizes: &'a [u32; 64],
    times: &'a [u32; 64],
    table: &'a [u32; 257],
    plan: Numbers,
    positions: &[u8],
) -> bool
    requires { (length sizes.now ≡ max_zones) × (length times.now ≡ max_zones) × (length table.now ≡ table_length) }
    ensures { let p = lent_plan figures sizes.now times.now table.now plan in
        result ≡ (has_numbers p && has_positions p positions.now) }
{
    is_plan_with(
        figures, sizes, times, table, plan, positions, positions, false,
    )
}

// Is this record the plan of its figures, and do both lists begin with its entries? The same of a scratch.
pub fn is_plan(plan: Plan, positions: &[u8], leads: &[u8], listed: bool) -> bool
    ensures { result ≡ is_plan plan positions.now (leads_by listed plan leads.now) }
{
    let figures = scalars_in(plan);
    let numbers = numbers_in(plan);
    is_plan_of(
        figures,
        &plan.figures.positions,
        &plan.figures.times,
        &plan.figures.table,
        numbers,
        positions,
        leads,
        listed,
    )
}
