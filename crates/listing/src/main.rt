// Reads a card from standard input and prints its plan, with the argument `loop` its plan as a loop and with `pairs` that of half blocks: five
// named figures, of a shelf of more than one film where each begins, then the position, time and lead of each block, counted through the films. A
// half block has two positions and the time of both halves.
#![tactic(auto)]

ghost use Rattle.std.specs.Prelude.{◌≡◌, true, ◌<◌};
ghost use Rattle.card.specs.Card.{Legal, blocks_of};
ghost use Rattle.placement.specs.Showing.{pairs, visits_of};
ghost use Rattle.plan.specs.Plan.{showing_in};
ghost use Rattle.plan.specs.Answer.{is_plan};

use lines::print_planned;
use numbers::showings::PAIRS;
use plan::{Plan, blocks_before};
use std::io;

fn print_figures(rt: &impl Print, plan: Plan) -> io::Result<()> {
    println!(rt; "streams {}", plan.streams)?;
    println!(rt; "buffer {}", plan.buffer)?;
    println!(rt; "worst2 {}", plan.worst2)?;
    println!(rt; "worstat {}", plan.worstat)?;
    println!(rt; "margin {}", plan.margin)
}

// The line of each film, where there is more than one: the block that it begins at, counted through the films.
fn print_films(rt: &impl Print, plan: Plan) -> io::Result<()>
    requires { Legal (visits_of (showing_in plan)) plan.figures }
{
    let figures = plan.figures;
    let films = figures.films;
    if films < 2 {
        return Ok(());
    }
    for i in 0..films {
        let first = blocks_before(&figures.blocks, i);
        println!(rt; "film {i} at {first}")?;
    }
    Ok(())
}

// The line of block b: its number, position, time and lead.
fn print_block(
    rt: &impl Print,
    plan: Plan,
    positions: &[u8],
    leads: &[u8],
    b: u32,
) -> io::Result<()>
    requires { (is_plan plan positions.now leads.now ≡ true) × (b < blocks_of plan.figures) }
{
    let figures = plan.figures;
    let position = words::word_at(positions, b as usize);
    let time = zones::time_at(&figures.positions, &figures.times, position);
    let lead = words::word_at(leads, b as usize);
    println!(rt; "{b} {position} {time} {lead}")
}

// The line of block b of half blocks: its number, both positions, the time of both and its lead.
fn print_halves(
    rt: &impl Print,
    plan: Plan,
    positions: &[u8],
    leads: &[u8],
    b: u32,
) -> io::Result<()>
    requires { (is_plan plan positions.now leads.now ≡ true) × (showing_in plan ≡ pairs) × (b < blocks_of plan.figures) }
{
    let figures = plan.figures;
    let low = words::word_at(positions, 2 * b as usize);
    let high = words::word_at(positions, 2 * b as usize + 1);
    let first = zones::time_at(&figures.positions, &figures.times, low);
    let second = zones::time_at(&figures.positions, &figures.times, high);
    let lead = words::word_at(leads, b as usize);
    let time = u64::from(first) + u64::from(second);
    println!(rt; "{b} {low} {high} {time} {lead}")
}

// The line of each block of a plan, whose lists begin with its positions and leads.
fn print_blocks(rt: &impl Print, plan: Plan, positions: &[u8], leads: &[u8]) -> io::Result<()>
    requires { is_plan plan positions.now leads.now ≡ true }
{
    println!(rt; "block position time lead")?;
    let figures = plan.figures;
    let blocks = blocks_before(&figures.blocks, figures.films);
    for b in 0..blocks {
        print_block(rt, plan, positions, leads, b)?;
    }
    Ok(())
}

// The same of half blocks.
fn print_all_halves(rt: &impl Print, plan: Plan, positions: &[u8], leads: &[u8]) -> io::Result<()>
    requires { (is_plan plan positions.now leads.now ≡ true) × (showing_in plan ≡ pairs) }
{
    println!(rt; "block position position time lead")?;
    let figures = plan.figures;
    let blocks = blocks_before(&figures.blocks, figures.films);
    for b in 0..blocks {
        print_halves(rt, plan, positions, leads, b)?;
    }
    Ok(())
}

// The listing of a plan, whose lists begin with its positions and leads.
fn list(rt: &impl Print, plan: Plan, positions: &[u8], leads: &[u8]) -> io::Result<()>
    requires plan { is_plan plan positions.now leads.now ≡ true }
    requires legal { Legal (visits_of (showing_in plan)) plan.figures }
{
    print_figures(rt, plan)?;
    print_films(rt, plan)?;
    if plan.showing == PAIRS {
        return print_all_halves(rt, plan, positions, leads);
    }
    print_blocks(rt, plan, positions, leads)
}

fn main(rt: HostRuntime) -> io::Result<()> {
    print_planned(&rt, &mut rt.stdin(), "listing", |plan, positions, leads| {
        list(&rt, plan, positions, leads)
    })
}
