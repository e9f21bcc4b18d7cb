// Both planners over every small card.
ghost use Rattle.std.specs.Prelude.{◌≡◌, ◌+◌, ◌≤◌, ◌<◌, length};
ghost use Rattle.numbers.specs.Limits.{max_number};
ghost use Rattle.card.specs.declared.Figures.{Figures};
ghost use Rattle.card.specs.Card.{card_of};
ghost use Rattle.card.specs.Read.{read_card};
ghost use Rattle.placement.specs.Showing.{Showing, one, loop, visits_of};
ghost use Rattle.plan.specs.Answer.{planned};
ghost use Rattle.try_all.specs.Answer.{tried};
ghost use Rattle.small_cards.specs.Cards.{Small, small_cards};
ghost use Rattle.compare_planners.specs.Compare.{unequal_of, eight, unequal_on, counted_with};

use card::Figures;
use card_writer::write_card;
use next_card::{figures_of, first_card, next_card};
use planner::{plan_card, plan_loop_card};
use try_all::{try_card, try_loop_card};

// How many cards, and how many unequal worst2 in one showing and in a loop together.
#[derive(Clone, Copy)]
pub struct Tally {
    pub cards: u32,
    pub unequal: u32,
}

// 1 where two worst2 are unequal.
fn unequal(first: u32, second: u32) -> u32
    ensures { (result ≡ unequal_of first second) × (result ≤ 1) }
{
    if first == second {
        return 0;
    }
    1
}

// Both planners on a card, for one showing.
fn compare_once(card: &[u8]) -> u32
    ensures { (result ≡ unequal_on one card.now) × (result ≤ 1) }
{
    let mut positions = [0u8; 32];
    let mut leads = [0u8; 32];
    let planned = plan_card(card, &mut positions, &mut leads);
    let tried = try_card(card);
    unequal(planned.plan.worst2, tried.worst2)
}

// Both planners on a card, for a loop.
fn compare_loop(card: &[u8]) -> u32
    ensures { (result ≡ unequal_on loop card.now) × (result ≤ 1) }
{
    let mut positions = [0u8; 32];
    let mut leads = [0u8; 32];
    let planned = plan_loop_card(card, &mut positions, &mut leads);
    let tried = try_loop_card(card);
    unequal(planned.plan.worst2, tried.worst2)
}

// Writes the card of small figures and compares both planners on it, for one showing and for a loop.
fn compare_card(figures: Figures) -> u32
    requires { Small figures }
    ensures { result ≡ unequal_on one (card_of figures) + unequal_on loop (card_of figures) }
{
    let mut out = [0u8; 4096];
    let written = write_card(figures, &mut out);
    let length = written.length;
    compare_once(&out[..length]) + compare_loop(&out[..length])
}

// One card more, with so many unequal worst2.
fn counted(tally: Tally, unequal: u32) -> Tally
    requires { (tally.cards < max_number) × (tally.unequal + unequal ≤ max_number) }
    ensures { result ≡ counted_with tally unequal }
{
    Tally {
        cards: tally.cards + 1,
        unequal: tally.unequal + unequal,
    }
}

// Compares both planners on every small card.
pub fn compare_all() -> Tally
    ensures { (result.cards ≡ length small_cards) × (result.unequal ≡ 0) }
{
    let mut tally = Tally {
        cards: 0,
        unequal: 0,
    };
    let mut card = first_card();
    while card.zones <= 3 {
        let found = compare_card(figures_of(card));
        tally = counted(tally, found);
        card = next_card(card);
    }
    tally
}

// Neither planner refuses a small card, so what is compared is what they planned.
fn no_small_card_is_refused()
    ensures { (x : Showing) → visits_of x ≡ 1 → (f : Figures) → Small f
        → ((planned x (read_card 1 (card_of f)) eight eight).verdict.number ≡ 0) × ((tried x (read_card 1 (card_of f))).verdict.number ≡ 0) }
{}
