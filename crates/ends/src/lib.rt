// End: each slot loses its draw, and each that was fetched for gains a block.
#![tactic(auto)]

ghost use Rattle.std.specs.Prelude.{◌≡◌, ℕ, ◌+◌, ◌≤◌, ◌<◌, eqb, length};
ghost use Rattle.words.specs.Words.{words_of};
ghost use Rattle.numbers.specs.Limits.{max_blocks};
ghost use Rattle.numbers.specs.Slots.{filling, playing, draining};
ghost use Rattle.placement.specs.Showing.{after};
ghost use Rattle.pacing.specs.Shelf.{name_of, film_in, block_in};
ghost use Rattle.plan.specs.Plan.{showing_of};
ghost use Rattle.rules.specs.Supply.{Supply};
ghost use Rattle.rules.specs.Scheduler.{ended_slot, ended};
ghost use Rattle.desk.specs.Desk.{supply_of, slots_in};
ghost use Rattle.desk.specs.Records.{record_of};
ghost use Rattle.desk.specs.Slots.{with_slots};
ghost use Rattle.desk_layout.specs.Layout.{desk_in, desk_size};
ghost use Rattle.ends.specs.Ends.{Continues, slot_in, Fair, Ends};

use desk_columns::{buffer_in, bytes_in, film_length, showing_in, streams_in};
use numbers::limits::NAME_STEP;
use numbers::showings::LOOP;
use numbers::slots::{DRAINING, FILLING, FREE, PLAYING};
use words::word_at;

// A slot of the desk.
#[derive(Clone, Copy)]
pub struct Slot {
    pub kind: u32,
    pub next: u32,
    pub held: u32,
}

// The word of the block after one of a film of so many; a loop goes on with the first after the last, and so never reaches N.
fn next_block(showing: u32, blocks: u32, next: u32) -> u32
    requires { (block_in next < blocks) × (blocks ≤ max_blocks) }
    ensures { result ≡ name_of (film_in next) (after (showing_of showing) blocks (block_in next)) }
{
    let block = next % NAME_STEP;
    if block + 1 < blocks {
        return next + 1;
    }
    if showing == LOOP {
        return next - block;
    }
    next + 1
}

// Has the film ended there?
fn is_past(blocks: u32, next: u32) -> bool
    ensures { result ≡ eqb (block_in next) blocks }
{
    next % NAME_STEP == blocks
}

// A filling or playing slot after a draw. With room it was fetched for: B more, the next block, and tail where the film has ended.
fn swept(slot: Slot, draw: u32, showing: u32, blocks: u32, bytes: u32, room: u32) -> Slot
    requires { (Fair blocks slot draw) × (filling ≤ slot.kind) × (slot.kind ≤ playing) × (room + bytes < 4294967296) }
    ensures { (p : Supply ℕ) → Continues p (showing_of showing) slot.next blocks bytes room → slot_in result ≡ ended_slot p (slot_in slot) draw }
{
    if room < slot.held {
        return Slot {
            kind: slot.kind,
            next: slot.next,
            held: slot.held - draw,
        };
    }
    let next = next_block(showing, blocks, slot.next);
    let held = slot.held - draw + bytes;
    if is_past(blocks, next) {
        return Slot {
            kind: DRAINING,
            next,
            held,
        };
    }
    Slot {
        kind: slot.kind,
        next,
        held,
    }
}

// A tail after a draw: free, all zero, where it holds 0.
fn drained(slot: Slot, draw: u32) -> Slot
    requires { (slot.kind ≡ draining) × (draw ≤ slot.held) }
    ensures { (p : Supply ℕ) → p.none ≡ 0 → slot_in result ≡ ended_slot p (slot_in slot) draw }
{
    if slot.held == draw {
        return Slot {
            kind: FREE,
            next: 0,
            held: 0,
        };
    }
    Slot {
        kind: slot.kind,
        next: slot.next,
        held: slot.held - draw,
    }
}

// A slot after the sweep, its film having so many blocks; free and asked slots draw nothing and stay.
fn ended_slot(slot: Slot, draw: u32, showing: u32, blocks: u32, bytes: u32, room: u32) -> Slot
    requires { (Fair blocks slot draw) × (room + bytes < 4294967296) }
    ensures { (p : Supply ℕ) → Continues p (showing_of showing) slot.next blocks bytes room → slot_in result ≡ ended_slot p (slot_in slot) draw }
{
    let kind = slot.kind;
    match kind {
        FILLING => swept(slot, draw, showing, blocks, bytes, room),
        PLAYING => swept(slot, draw, showing, blocks, bytes, room),
        DRAINING => drained(slot, draw),
        _ => slot,
    }
}

// All slots after the sweep, in place: those of the desk in a lent string.
pub fn end_slots(
    desk: &[u8],
    kinds: &mut [u32; 256],
    next: &mut [u32; 256],
    held: &mut [u32; 256],
    draws: &[u8],
)
    requires { (desk_size ≤ length desk.now) × Ends (desk_in (words_of desk.now)) kinds.old next.old held.old (words_of draws.now) }
    ensures { let d = desk_in (words_of desk.now) in
        record_of d.plan d.phase kinds.new next.new held.new d.places
        ≡ with_slots d (ended (supply_of d.plan) (slots_in d) (words_of draws.now)) }
{
    let showing = showing_in(desk);
    let bytes = bytes_in(desk);
    let room = buffer_in(desk) - bytes;
    for i in 0..streams_in(desk) as usize {
        let slot = Slot {
            kind: kinds[i],
            next: next[i],
            held: held[i],
        };
        let blocks = film_length(desk, slot.next);
        let after = ended_slot(slot, word_at(draws, i), showing, blocks, bytes, room);
        kinds[i] = after.kind;
        next[i] = after.next;
        held[i] = after.held;
    }
}
