// Every small card of document 02, ticket 13: what they are, the list of them in its order, and the way from each to the next. Definitions, laws and
// claims without code.
#![tactic(auto)]

ghost use Rattle.std.specs.Prelude.{◌≡◌, ℕ, ◌<◌, length, get_or};
ghost use Rattle.laws.specs.Members.{In, Unique};
ghost use Rattle.card.specs.declared.Figures.{Figures};
ghost use Rattle.card.specs.Read.{blank_figures};
ghost use Rattle.small_cards.specs.Cards.{Small, small_cards, Earlier};
ghost use Rattle.small_cards.specs.Next.{figures_of, first_card, after};

// What sets small cards apart: the zones, the positions and the time of each, and N. Entries past the zones are zero.
#[derive(Clone, Copy)]
pub struct SmallCard {
    pub zones: u32,
    pub positions: [u32; 3],
    pub times: [u32; 3],
    pub blocks: u32,
}

// The list has every small card, nothing else, and each once.
pub fn every_small_card_is_listed()
    ensures every { (f : Figures) → Small f → In f small_cards }
    ensures only { (f : Figures) → In f small_cards → Small f }
    ensures once { Unique small_cards }
{}

// Of two cards of the list the earlier one has fewer zones, or as many and then the lower positions, times or N, in this order.
pub fn small_cards_are_in_order()
    ensures { (i j : ℕ) → i < j → j < length small_cards → Earlier (get_or small_cards i blank_figures) (get_or small_cards j blank_figures) }
{}

// The way from the first card to the next and the next goes through the list, and is past it where there are 4 zones.
pub fn the_way_is_the_list()
    ensures cards { (i : ℕ) → i < length small_cards → figures_of (after i first_card) ≡ get_or small_cards i blank_figures }
    ensures last { (after (length small_cards) first_card).zones ≡ 4 }
{}
