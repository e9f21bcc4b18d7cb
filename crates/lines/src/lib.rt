// What the programs that plan a card share: the argument `loop` or `pairs`, reading the card, the plan that is asked for, and the line of a refusal.
#![tactic(auto)]

ghost use Rattle.std.specs.Prelude.{◌≡◌, ◌≢◌, true, length, IfErr, IsOk, OnOk};
ghost use Rattle.std.specs.IoError.{error_kind};
ghost use Rattle.card.specs.Card.{Legal};
ghost use Rattle.placement.specs.Showing.{visits_of};
ghost use Rattle.plan.specs.Plan.{showing_in};
ghost use Rattle.plan.specs.Answer.{is_plan};
ghost use Rattle.lines.specs.Printed.{TakesPlans};
ghost use Rattle.lines.specs.Shown.{numbered};

use card::Verdict;
use numbers::showings::{LOOP, PAIRS};
use plan::{Plan, Planned};
use planner::{plan_card, plan_loop_card, plan_pairs_card};
use program_io::read_full;
use std::env::{Env, FillError};
use std::io;
use std::io::{ErrorKind, Read};

// How the films of a card are shown.
#[derive(Clone, Copy)]
pub enum Showing {
    Once,
    Loop,
    Pairs,
}

// The showing of a number of `numbers::showings`, once through of any other.
impl From<u32> for Showing {
    ghost from_gives = { λ number showing. showing ≡ numbered number };

    #[tactic(auto, unfolding(crate::specs::Shown::numbered))]
    fn from(number: u32) -> Showing {
        match number {
            LOOP => Showing::Loop,
            PAIRS => Showing::Pairs,
            _ => Showing::Once,
        }
    }
}

// What came of printing; a reader that has gone, as `head` does after its lines, is no failure.
pub fn unless_gone(done: io::Result<()>) -> io::Result<()>
    ensures printed { OnOk done (IsOk result) }
    ensures gone { IfErr done (λ e. error_kind e ≡ ErrorKind.BrokenPipe → IsOk result) }
    ensures failed { IfErr done (λ e. error_kind e ≢ ErrorKind.BrokenPipe → result ≡ Err e) }
{
    match done {
        Ok(()) => Ok(()),
        Err(error) => {
            if error.kind() == ErrorKind::BrokenPipe {
                return Ok(());
            }
            Err(error)
        }
    }
}

// The line of a refused card.
pub fn print_refusal(rt: &impl Print, verdict: Verdict) -> io::Result<()> {
    println!(rt; "refused {} at {}", verdict.number, verdict.place)
}

// The showing that a word asks for, once through where it asks for none.
fn showing_of(word: &[u8]) -> Showing {
    match word {
        b"loop" => Showing::Loop,
        b"pairs" => Showing::Pairs,
        _ => Showing::Once,
    }
}

// The showing that the first argument asks for. A longer one than fits is read as none.
pub fn asked_showing(rt: &impl Env) -> Showing {
    let mut word = [0u8; 8];
    match rt.arg(1, &mut word) {
        Ok(length) => showing_of(&word[..length]),
        Err(_) => Showing::Once,
    }
}

// How many arguments a program has at most, its name among them.
fn most_arguments(showing: Showing) -> usize {
    match showing {
        Showing::Once => 1,
        Showing::Loop | Showing::Pairs => 2,
    }
}

// Has the program more arguments than it reads?
pub fn has_more_arguments(rt: &impl Env, showing: impl Into<Showing>) -> bool {
    let next = rt.arg(most_arguments(showing.into()), &mut []);
    !matches!(next, Err(FillError::NotPresent))
}

// Room for the positions of all films, two for each of their half blocks.
pub fn position_buffer() -> [u8; 131072]
    ensures { 131072 ≡ length result }
{
    [0; 131072]
}

// The plan of a card for half blocks, as a loop or for one showing, and its lists.
fn plan_shown(showing: Showing, card: &[u8], positions: &mut [u8], leads: &mut [u8]) -> Planned
    ensures plan { result.verdict.number ≡ 0 → is_plan result.plan positions.new leads.new ≡ true }
    ensures legal { result.verdict.number ≡ 0 → Legal (visits_of (showing_in result.plan)) result.plan.figures }
{
    match showing {
        Showing::Once => plan_card(card, positions, leads),
        Showing::Loop => plan_loop_card(card, positions, leads),
        Showing::Pairs => plan_pairs_card(card, positions, leads),
    }
}

// The same, by a showing or by its number.
pub fn plan_film(
    showing: impl Into<Showing>,
    card: &[u8],
    positions: &mut [u8],
    leads: &mut [u8],
) -> Planned
    ensures plan { result.verdict.number ≡ 0 → is_plan result.plan positions.new leads.new ≡ true }
    ensures legal { result.verdict.number ≡ 0 → Legal (visits_of (showing_in result.plan)) result.plan.figures }
{
    plan_shown(showing.into(), card, positions, leads)
}

// Prints what a program prints of the plan of a card and of its lists, or the refusal.
fn print_plan<P: FnOnce(Plan, &[u8], &[u8]) -> io::Result<()>>(
    rt: &impl Print,
    showing: Showing,
    card: &[u8],
    print: P,
) -> io::Result<()>
    requires { TakesPlans (P.pre print) }
{
    let mut positions = position_buffer();
    let mut leads = [0u8; 65536];
    let planned = plan_film(showing, card, &mut positions, &mut leads);
    let verdict = planned.verdict;
    if verdict.number != 0 {
        return print_refusal(rt, verdict);
    }
    print(planned.plan, &positions, &leads)
}

// The same of the card on the input, with its plan as the argument asks for it. Every refusal of a card is decided within its first 1,520 bytes, so
// what is read is enough of any input. Other arguments get the line that says how the program is used.
pub fn print_planned<R: Print + Env, P: FnOnce(Plan, &[u8], &[u8]) -> io::Result<()>>(
    rt: &R,
    input: &mut impl Read,
    program: &str,
    print: P,
) -> io::Result<()>
    requires { TakesPlans (P.pre print) }
{
    let showing = asked_showing(rt);
    if has_more_arguments(rt, showing) {
        return println!(rt; "usage: {program} [loop|pairs]");
    }
    let mut card = [0u8; 4096];
    let count = read_full(input, &mut card)?;
    unless_gone(print_plan(rt, showing, &card[..count], print))
}
