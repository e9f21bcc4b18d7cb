// Reads a card from standard input and prints what rates are guaranteed over windows of 1 to 64 blocks of its films, with the argument `loop`
// those of the films as loops, with `pairs` those of half blocks.
#![tactic(auto)]

ghost use Rattle.std.specs.Prelude.{◌≡◌, ◌*◌, ◌/◌, ◌≤◌, ◌<◌, min};
ghost use Rattle.numbers.specs.Limits.{max_films, max_window};
ghost use Rattle.numbers.specs.Units.{micros};

use lines::print_planned;
use numbers::limits::MAX_WINDOW;
use numbers::units::MICROS;
use plan::Plan;
use std::io;
use window::{longest, worst_window};

// Bytes a second, rounded down; 0 where no time is told.
fn bytes_a_second(bytes: u32, time: u32) -> u64
    ensures { 0 < time → result ≡ bytes * micros / time }
{
    (u64::from(bytes) * MICROS)
        .checked_div(u64::from(time))
        .unwrap_or(0)
}

// The line of a window: its blocks, the worst time that they take, the earliest place, their bytes, and bytes a second.
fn print_window(rt: &impl Print, plan: Plan, positions: &[u8], count: u32) -> io::Result<()> {
    let window = worst_window(plan, positions, count);
    let rate = bytes_a_second(window.bytes, window.time);
    println!(rt;
        "{count} {} {} {} {rate}",
        window.time, window.first, window.bytes
    )
}

// The blocks of the longest window, by those of the longest film.
fn longest_window(blocks: u32) -> u32
    ensures { result ≡ min blocks max_window }
{
    blocks.min(MAX_WINDOW)
}

// The line of each window of a plan, with its list of positions.
fn print_windows(rt: &impl Print, plan: Plan, positions: &[u8]) -> io::Result<()>
    requires { plan.figures.films ≤ max_films }
{
    println!(rt; "blocks time first bytes rate")?;
    let figures = plan.figures;
    let last = longest_window(longest(&figures.blocks, figures.films));
    for count in 1..=last {
        print_window(rt, plan, positions, count)?;
    }
    Ok(())
}

fn main(rt: HostRuntime) -> io::Result<()> {
    print_planned(&rt, &mut rt.stdin(), "windows", |plan, positions, _| {
        print_windows(&rt, plan, positions)
    })
}
