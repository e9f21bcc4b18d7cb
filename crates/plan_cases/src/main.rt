// Runs the planner on the cases of document 01, on real disks, on loops, on measured overheads, on shelves, also as half blocks, and on refusals, and
// the check of a plan on altered plans. Standard input has a case on each line: its name, which has no colon, then a colon, a letter for what is done,
// and what it is done to. P and L are the bytes of the lists of positions and leads, 65,536 at most. RECORD is kind zones films, then 16 film entries
// in runs (V*N is N times V, V+S*N is V, V + S, .., N numbers), then B c, 257 overheads in runs, then positions and time of each zone; what is
// missing is 0. PLAN is streams, buffer, worst2, margin, showing and worstat, then RECORD.
//
//     NAME: r P L RECORD    plans a record, with lists of a pattern; R plans it as loops, h as half blocks
//     NAME: c P L CARD      plans a card, its bytes in hexadecimal, with lists of a pattern; C plans it as loops, H as half blocks
//     NAME: k P L PLAN      is this the plan of its figures, with the first bytes of the lists as the last plan left them?
//     NAME: b P L PLAN      the same with each of the first 28 bytes altered, of the positions and of the leads in turn
//
// A line is printed for each: its name and the answer, which of a planned shelf is streams, buffer, worst2, margin, showing and worstat, or the
// refusal, then a sum of each list.
#![tactic(auto)]

use card::Figures;
use case_text::{print_if_refused, read_bytes, read_number, read_record, run_cases};
use plan::{Plan, Planned};
use std::io;

// How the film of a case is shown.
#[derive(Clone, Copy)]
enum Showing {
    Once,
    Loop,
    Pairs,
}

// What a case asks for.
#[derive(Clone, Copy)]
enum Task {
    PlanRecord(Showing),
    PlanCard(Showing),
    Check,
    CheckAltered,
}

// What the letter asks for; a letter of no other task plans a card.
fn task_of(letter: u8) -> Task {
    match letter {
        b'k' => Task::Check,
        b'b' => Task::CheckAltered,
        b'r' => Task::PlanRecord(Showing::Once),
        b'R' => Task::PlanRecord(Showing::Loop),
        b'h' => Task::PlanRecord(Showing::Pairs),
        b'C' => Task::PlanCard(Showing::Loop),
        b'H' => Task::PlanCard(Showing::Pairs),
        _ => Task::PlanCard(Showing::Once),
    }
}

// Fills a list with a pattern.
fn fill(list: &mut [u8]) {
    for (i, byte) in list.iter_mut().enumerate() {
        *byte = (i % 251) as u8;
    }
}

// A sum of a list that each byte and its place alter.
fn sum_of(list: &[u8]) -> u64 {
    let mut sum: u64 = 0;
    for &byte in list {
        sum = (sum * 257 + u64::from(byte) + 1) % 1000003;
    }
    sum
}

// The refusal, if there is one, the plan's figures and the sum of each list.
fn print_answer(
    rt: &impl Print,
    planned: Planned,
    positions: &[u8],
    leads: &[u8],
) -> io::Result<()> {
    print_if_refused(rt, planned.verdict)?;
    let plan = planned.plan;
    print!(rt; " {} {} {}", plan.streams, plan.buffer, plan.worst2)?;
    print!(rt; " {} {} {}", plan.margin, plan.showing, plan.worstat)?;
    print!(rt; " {} {}", sum_of(positions), sum_of(leads))
}

// A plan: streams, buffer, worst2, margin, showing, worstat, and its record.
fn read_plan(text: &[u8], start: usize) -> Plan {
    let streams = read_number(text, start);
    let buffer = read_number(text, streams.next);
    let worst2 = read_number(text, buffer.next);
    let margin = read_number(text, worst2.next);
    let showing = read_number(text, margin.next);
    let worstat = read_number(text, showing.next);
    Plan {
        figures: read_record(text, worstat.next),
        streams: streams.value,
        buffer: buffer.value,
        worst2: worst2.value,
        margin: margin.value,
        showing: showing.value,
        worstat: worstat.value,
    }
}

// Is this the plan of its figures, with its lists?
fn check(rt: &impl Print, plan: Plan, positions: &[u8], leads: &[u8]) -> io::Result<()> {
    if plan_check::is_plan(plan, positions, leads, true) {
        return print!(rt; " yes");
    }
    print!(rt; " no")
}

// The same with each byte altered, which then gets its value back.
fn check_altered(
    rt: &impl Print,
    plan: Plan,
    positions: &mut [u8],
    leads: &mut [u8],
) -> io::Result<()> {
    for at in 0..positions.len().min(leads.len()).min(28) {
        let position = positions[at];
        positions[at] = 77;
        check(rt, plan, positions, leads)?;
        positions[at] = position;
        let lead = leads[at];
        leads[at] = 77;
        check(rt, plan, positions, leads)?;
        leads[at] = lead;
    }
    Ok(())
}

// Plans a record.
fn plan_record(
    showing: Showing,
    figures: Figures,
    positions: &mut [u8],
    leads: &mut [u8],
) -> Planned {
    match showing {
        Showing::Once => planner::plan_record(figures, positions, leads),
        Showing::Loop => planner::plan_loop_record(figures, positions, leads),
        Showing::Pairs => planner::plan_pairs_record(figures, positions, leads),
    }
}

// Plans a card.
fn plan_card(showing: Showing, card: &[u8], positions: &mut [u8], leads: &mut [u8]) -> Planned {
    match showing {
        Showing::Once => planner::plan_card(card, positions, leads),
        Showing::Loop => planner::plan_loop_card(card, positions, leads),
        Showing::Pairs => planner::plan_pairs_card(card, positions, leads),
    }
}

// Plans the card that stands from `start` on.
fn plan_bytes(
    showing: Showing,
    text: &[u8],
    start: usize,
    positions: &mut [u8],
    leads: &mut [u8],
) -> Planned {
    let mut card = [0u8; 4096];
    let n = read_bytes(text, start, &mut card);
    plan_card(showing, &card[..n], positions, leads)
}

// Does what is asked for with what stands from `start` on and these lists, which have a pattern where it plans.
fn run_with(
    rt: &impl Print,
    text: &[u8],
    task: Task,
    start: usize,
    positions: &mut [u8],
    leads: &mut [u8],
) -> io::Result<()> {
    let planned = match task {
        Task::Check => return check(rt, read_plan(text, start), positions, leads),
        Task::CheckAltered => return check_altered(rt, read_plan(text, start), positions, leads),
        Task::PlanRecord(showing) => {
            fill(positions);
            fill(leads);
            plan_record(showing, read_record(text, start), positions, leads)
        }
        Task::PlanCard(showing) => {
            fill(positions);
            fill(leads);
            plan_bytes(showing, text, start, positions, leads)
        }
    };
    print_answer(rt, planned, positions, leads)
}

// The same with as many bytes of the lists as the case says.
fn run_case(
    rt: &impl Print,
    text: &[u8],
    letter: u8,
    start: usize,
    positions: &mut [u8],
    leads: &mut [u8],
) -> io::Result<()> {
    let size = read_number(text, start);
    let p = (size.value as usize).min(positions.len());
    let other = read_number(text, size.next);
    let l = (other.value as usize).min(leads.len());
    run_with(
        rt,
        text,
        task_of(letter),
        other.next,
        &mut positions[..p],
        &mut leads[..l],
    )
}

fn main(rt: HostRuntime) -> io::Result<()> {
    let mut positions = [0u8; 65536];
    let mut leads = [0u8; 65536];
    run_cases(&rt, &mut rt.stdin(), |text, letter, start| {
        run_case(&rt, text, letter, start, &mut positions, &mut leads)
    })
}
