// The table of overheads: that of hop and return, and the judge of a record's.
#![tactic(auto)]

ghost use Rattle.std.specs.Prelude.{◌≡◌, cond, ◌≤◌, length};
ghost use Rattle.numbers.specs.Limits.{max_move, table_length};
ghost use Rattle.numbers.specs.Refusals.{wrong_measure, wrong_overhead};
ghost use Rattle.numbers.specs.Numbered.{fault_in};
ghost use Rattle.card_table.specs.Table.{straight, hop_in, is_line, straight_fault, measured_fault, table_fault};
ghost use Rattle.card_table.specs.TableLaws.{NoFall};
ghost use Rattle.card_table.specs.TableFaults.{Judges};

use card_field::{Rule, fault};
use numbers::limits::{MAX_MOVE, MAX_OVERHEAD, MAX_STREAMS, STRAIGHT};
use numbers::refusals::Refusal;

// The hop of a table; 0 where its entries fall.
pub fn hop_in(table: &[u32; 257]) -> u32
    ensures { result ≡ hop_in table.now }
{
    let back = table[0];
    let next = table[1];
    if next < back {
        return 0;
    }
    next - back
}

// Fills a table with the overheads of hop and return.
pub fn fill_straight(table: &mut [u32; 257], hop: u32, back: u32)
    requires { (hop ≤ max_move) × (back ≤ max_move) × (length table.old ≡ table_length) }
    ensures { table.new ≡ straight hop back }
{
    let mut value = back;
    for entry in table.iter_mut() {
        *entry = value;
        value += hop;
    }
}

// Refuses an entry that is not that of hop and return. All entries are compared, without a jump, several at a time.
fn fault_of_line(table: &[u32; 257], hop: u32, back: u32) -> Result<(), Refusal>
    requires { (hop ≤ max_move) × (back ≤ max_move) }
    ensures { fault_in result ≡ cond (is_line table_length 0 table.now hop back) 0 wrong_measure }
{
    let mut expected = back;
    let mut on = true;
    for &entry in table {
        on &= entry == expected;
        expected += hop;
    }
    if on {
        return Ok(());
    }
    Err(Refusal::WrongMeasure)
}

// A table of kind 1: its hop, its return, then each of its entries.
fn fault_of_straight(table: &[u32; 257]) -> Result<(), Refusal>
    ensures { fault_in result ≡ straight_fault table.now }
{
    let hop = hop_in(table);
    if let Err(far) = fault(Rule::Measure, MAX_MOVE, hop) {
        return Err(far);
    }
    let back = table[0];
    fault(Rule::Measure, MAX_MOVE, back)?;
    fault_of_line(table, hop, back)
}

// Refuses an entry below the one before. All entries are compared, without a jump, several at a time.
fn fault_of_fall(table: &[u32; 257]) -> Result<(), Refusal>
    ensures { Judges (fault_in result) wrong_overhead (NoFall table.now) }
{
    let mut rises = true;
    for k in 0..MAX_STREAMS as usize {
        rises &= table[k] <= table[k + 1];
    }
    if rises {
        return Ok(());
    }
    Err(Refusal::WrongOverhead)
}

// A table of kind 2. If no entry is below the one before, all are in range where the first and the last are: law `ends_measured`.
fn fault_of_measured(table: &[u32; 257]) -> Result<(), Refusal>
    ensures { fault_in result ≡ measured_fault table.now }
{
    if table[0] == 0 {
        return Err(Refusal::WrongOverhead);
    }
    if MAX_OVERHEAD < table[MAX_STREAMS as usize] {
        return Err(Refusal::WrongOverhead);
    }
    fault_of_fall(table)
}

// The table of a record, by its kind.
pub fn fault_of_table(kind: u32, table: &[u32; 257]) -> Result<(), Refusal>
    ensures { fault_in result ≡ table_fault kind table.now }
{
    if kind == STRAIGHT {
        return fault_of_straight(table);
    }
    fault_of_measured(table)
}
