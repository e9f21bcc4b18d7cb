// What a card or a record is refused by is its first fault: claims without code.
#![tactic(auto)]

ghost use Rattle.std.specs.Prelude.{◌≡◌, ◌↔◌, List, ℕ, suc};
ghost use Rattle.leb128.specs.Number.{Bytes};
ghost use Rattle.card.specs.declared.Figures.{Figures};
ghost use Rattle.card.specs.Card.{record_fault, judge_record};
ghost use Rattle.card.specs.Read.{read_card};
ghost use Rattle.fault_claims.specs.CardFault.{CardFault};
ghost use Rattle.fault_claims.specs.RecordFault.{RecordFault};

// A card is refused by a number at an offset exactly where that is its first fault, all figures before it being good;
// each block takes so many positions, two for half blocks.
pub fn first_fault_of_a_card_is_named()
    ensures { (visits : ℕ) (s : List ℕ) → Bytes s → (k at : ℕ)
        → ((read_card visits s).verdict ≡ record { number = suc k; place = at }) ↔ CardFault visits s (suc k) at }
{}

// A record is refused by a number, at place 0, exactly where its first figure at fault breaks a rule of that number first;
// each block takes so many positions.
pub fn first_fault_of_a_record_is_named()
    ensures { (visits : ℕ) (f : Figures) (k : ℕ) → ((judge_record visits f ≡ record { number = suc k; place = 0 }) ↔ RecordFault visits f (suc k))
        × ((record_fault visits f ≡ suc k) ↔ RecordFault visits f (suc k)) }
{}
