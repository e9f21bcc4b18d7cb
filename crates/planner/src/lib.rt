// The planner: from the figures of a card it lays the films, for one showing, for a loop or for one showing of half blocks, and says how many
// streams may be fed and with what buffers.
#![tactic(auto)]

mod figures; // the answer to figures that were read or judged

ghost use Rattle.std.specs.Prelude.{◌≡◌};
ghost use Rattle.card.specs.Read.{read_card};
ghost use Rattle.placement.specs.Showing.{one, loop, pairs, visits_of};
ghost use Rattle.plan.specs.Answer.{planned, positions_after, leads_after, judged};
ghost use Rattle.plan.specs.Scratch.{planned_scratch, positions_scratch};

use crate::figures::plan_figures;
use card::Figures;
use card_reader::{read_card, read_card_of};
use numbers::showings::{LOOP, ONCE, PAIRS};
use plan::{Planned, judged_figures, judged_figures_of};

// Plans a card for one showing: 1 to 11, 25, 26 and 30 as the reader gives them, then 13, then 12. A refusal leaves both lists.
pub fn plan_card(card: &[u8], positions: &mut [u8], leads: &mut [u8]) -> Planned
    ensures { (result ≡ planned one (read_card 1 card.now) positions.old leads.old)
        × (positions.new ≡ positions_after one (read_card 1 card.now) positions.old leads.old)
        × (leads.new ≡ leads_after one (read_card 1 card.now) positions.old leads.old) }
{
    plan_figures(read_card(card), ONCE, positions, leads, true)
}

// Plans a card for a loop; refused as for one showing.
pub fn plan_loop_card(card: &[u8], positions: &mut [u8], leads: &mut [u8]) -> Planned
    ensures { (result ≡ planned loop (read_card 1 card.now) positions.old leads.old)
        × (positions.new ≡ positions_after loop (read_card 1 card.now) positions.old leads.old)
        × (leads.new ≡ leads_after loop (read_card 1 card.now) positions.old leads.old) }
{
    plan_figures(read_card(card), LOOP, positions, leads, true)
}

// Plans a card for one showing of half blocks, each on two positions: refused as for one showing, 28 in place of 9 where these are more than the disk's.
pub fn plan_pairs_card(card: &[u8], positions: &mut [u8], leads: &mut [u8]) -> Planned
    ensures { (result ≡ planned pairs (read_card (visits_of pairs) card.now) positions.old leads.old)
        × (positions.new ≡ positions_after pairs (read_card (visits_of pairs) card.now) positions.old leads.old)
        × (leads.new ≡ leads_after pairs (read_card (visits_of pairs) card.now) positions.old leads.old) }
{
    plan_figures(read_card_of(card, 2), PAIRS, positions, leads, true)
}

// Plans a record of figures for one showing: 3 to 10, 25, 26 and 30, then 13, then 12, place 0. A refusal leaves both lists.
pub fn plan_record(figures: Figures, positions: &mut [u8], leads: &mut [u8]) -> Planned
    ensures { (result ≡ planned one (judged 1 figures) positions.old leads.old)
        × (positions.new ≡ positions_after one (judged 1 figures) positions.old leads.old)
        × (leads.new ≡ leads_after one (judged 1 figures) positions.old leads.old) }
{
    plan_figures(judged_figures(figures), ONCE, positions, leads, true)
}

// Plans a record of figures for a loop; refused as for one showing.
pub fn plan_loop_record(figures: Figures, positions: &mut [u8], leads: &mut [u8]) -> Planned
    ensures { (result ≡ planned loop (judged 1 figures) positions.old leads.old)
        × (positions.new ≡ positions_after loop (judged 1 figures) positions.old leads.old)
        × (leads.new ≡ leads_after loop (judged 1 figures) positions.old leads.old) }
{
    plan_figures(judged_figures(figures), LOOP, positions, leads, true)
}

// Plans a record of figures for one showing of half blocks; refused as for one showing, 28 in place of 9.
pub fn plan_pairs_record(figures: Figures, positions: &mut [u8], leads: &mut [u8]) -> Planned
    ensures { (result ≡ planned pairs (judged (visits_of pairs) figures) positions.old leads.old)
        × (positions.new ≡ positions_after pairs (judged (visits_of pairs) figures) positions.old leads.old)
        × (leads.new ≡ leads_after pairs (judged (visits_of pairs) figures) positions.old leads.old) }
{
    plan_figures(judged_figures_of(figures, 2), PAIRS, positions, leads, true)
}

// Plans a card for one showing with a scratch in place of the lead list: answered as with the list, 13 where the scratch has under 512
// entries. The scratch stays as it was.
pub fn plan_card_scratch(card: &[u8], positions: &mut [u8], scratch: &mut [u8]) -> Planned
    ensures { (result ≡ planned_scratch one (read_card 1 card.now) positions.old scratch.old)
        × (positions.new ≡ positions_scratch one (read_card 1 card.now) positions.old scratch.old)
        × (scratch.new ≡ scratch.old) }
{
    plan_figures(read_card(card), ONCE, positions, scratch, false)
}

// Plans a card for a loop with a scratch; answered as for one showing.
pub fn plan_loop_card_scratch(card: &[u8], positions: &mut [u8], scratch: &mut [u8]) -> Planned
    ensures { (result ≡ planned_scratch loop (read_card 1 card.now) positions.old scratch.old)
        × (positions.new ≡ positions_scratch loop (read_card 1 card.now) positions.old scratch.old)
        × (scratch.new ≡ scratch.old) }
{
    plan_figures(read_card(card), LOOP, positions, scratch, false)
}

// Plans a card for one showing of half blocks with a scratch; answered as with the list.
pub fn plan_pairs_card_scratch(card: &[u8], positions: &mut [u8], scratch: &mut [u8]) -> Planned
    ensures { (result ≡ planned_scratch pairs (read_card (visits_of pairs) card.now) positions.old scratch.old)
        × (positions.new ≡ positions_scratch pairs (read_card (visits_of pairs) card.now) positions.old scratch.old)
        × (scratch.new ≡ scratch.old) }
{
    plan_figures(read_card_of(card, 2), PAIRS, positions, scratch, false)
}

// Plans a record of figures for one showing with a scratch in place of the lead list: answered as with the list, 13 where the scratch has
// under 512 entries. The scratch stays as it was.
pub fn plan_record_scratch(figures: Figures, positions: &mut [u8], scratch: &mut [u8]) -> Planned
    ensures { (result ≡ planned_scratch one (judged 1 figures) positions.old scratch.old)
        × (positions.new ≡ positions_scratch one (judged 1 figures) positions.old scratch.old)
        × (scratch.new ≡ scratch.old) }
{
    plan_figures(judged_figures(figures), ONCE, positions, scratch, false)
}

// Plans a record of figures for a loop with a scratch; answered as for one showing.
pub fn plan_loop_record_scratch(
    figures: Figures,
    positions: &mut [u8],
    scratch: &mut [u8],
) -> Planned
    ensures { (result ≡ planned_scratch loop (judged 1 figures) positions.old scratch.old)
        × (positions.new ≡ positions_scratch loop (judged 1 figures) positions.old scratch.old)
        × (scratch.new ≡ scratch.old) }
{
    plan_figures(judged_figures(figures), LOOP, positions, scratch, false)
}

// Plans a record of figures for one showing of half blocks with a scratch; answered as with the list.
pub fn plan_pairs_record_scratch(
    figures: Figures,
    positions: &mut [u8],
    scratch: &mut [u8],
) -> Planned
    ensures { (result ≡ planned_scratch pairs (judged (visits_of pairs) figures) positions.old scratch.old)
        × (positions.new ≡ positions_scratch pairs (judged (visits_of pairs) figures) positions.old scratch.old)
        × (scratch.new ≡ scratch.old) }
{
    plan_figures(
        judged_figures_of(figures, 2),
        PAIRS,
        positions,
        scratch,
        false,
    )
}
