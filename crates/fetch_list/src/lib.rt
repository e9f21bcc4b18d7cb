// The fetches of a sweep, written to a list of entries that the caller lends.
#![tactic(auto)]

ghost use Rattle.std.specs.Prelude.{◌≡◌, ℕ, ◌≤◌, ◌<◌, List, length};
ghost use Rattle.desk.specs.declared.Desk.{Desk as DeskRecord};
ghost use Rattle.desk.specs.declared.Fetch.{Fetch as FetchRecord};
ghost use Rattle.desk.specs.Desk.{begin_desk};
ghost use Rattle.fetch_list.specs.Fetches.{entry_of, written};
ghost use Rattle.fetch_list.specs.Begin.{list_after};

use desk::{Begun, Desk, Fetch, Fetches};

// The entry i.
pub fn entry(fetches: Fetches, i: usize) -> Fetch
    requires { i < 256 }
    ensures { result ≡ entry_of fetches i }
{
    Fetch {
        position: fetches.positions[i],
        slot: fetches.slots[i],
        block: fetches.blocks[i],
    }
}

// How many entries there are.
fn entries(fetches: Fetches) -> usize
    ensures { result ≡ fetches.count }
{
    fetches.count as usize
}

// The first entries of the lent list are the fetches; the entries past the count keep their contents.
pub fn write_fetches(fetches: Fetches, out: &mut [Fetch])
    requires { (fetches.count ≤ length out.old) × (fetches.count ≤ 256) }
    ensures { out.new ≡ written fetches fetches.count out.old }
{
    for i in 0..entries(fetches) {
        out[i] = entry(fetches, i);
    }
}

// Begins a sweep where there is room for so many entries; it answers no more than that.
fn begin_within(desk: Desk, positions: &[u8], leads: &[u8], room: usize) -> Begun
    ensures { (result ≡ begin_desk desk positions.now leads.now room) × (result.fetches.count ≤ room) × (result.fetches.count ≤ 256) }
{
    scheduler::begin(desk, positions, leads, room)
}

// The fetches of an answer.
fn fetches_of(begun: Begun) -> Fetches
    ensures { result ≡ begun.fetches }
{
    begun.fetches
}

// Begins a sweep, with a lent list for its fetches: the first entries are the fetches, the others keep their contents; a refused begin
// leaves the list.
pub fn begin_list(desk: Desk, positions: &[u8], leads: &[u8], fetches: &mut [Fetch]) -> Begun
    ensures { (result ≡ begin_desk desk positions.now leads.now (length fetches.old))
        × (fetches.new ≡ list_after desk positions.now leads.now fetches.old) }
{
    let begun = begin_within(desk, positions, leads, fetches.len());
    write_fetches(fetches_of(begun), fetches);
    begun
}

// A refused begin leaves the lent list as it was.
pub fn refused_begin_leaves_list()
    ensures { (d : DeskRecord) (ps ls : List ℕ) (out : List FetchRecord) → ((begin_desk d ps ls (length out)).verdict.number ≡ 0 → ⊥)
        → list_after d ps ls out ≡ out }
{}
