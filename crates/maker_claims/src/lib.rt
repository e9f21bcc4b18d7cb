// What is accepted of makers' texts, and what the answer is: claims without code.
#![tactic(auto)]

ghost use Rattle.std.specs.Prelude.{◌≡◌, ◌↔◌, List, ℕ, suc};
ghost use Rattle.card.specs.Card.{Legal, judge_record, card_of};
ghost use Rattle.card.specs.Read.{accepted, blank_figures, read_card};
ghost use Rattle.maker_lines.specs.declared.Drive.{Drive};
ghost use Rattle.maker_rows.specs.Rows.{Row};
ghost use Rattle.maker.specs.Maker.{figures_of, read_maker};
ghost use Rattle.maker_claims.specs.Fault.{Fault};
ghost use Rattle.maker_claims.specs.Listing.{innermost_first, Listing};

// A text is accepted exactly where it is the lines of numbers that are in range, follow on and give legal figures.
pub fn maker_accepts_legal()
    ensures { (s : List ℕ) (n c hop ret : ℕ)
        → ((read_maker s n c hop ret).verdict.number ≡ 0) ↔ ((d : Drive) × (rows : List Row) × Listing s n c hop ret d rows) }
{}

// The answer to such a text are these figures, its zones innermost first.
pub fn maker_answers_its_figures()
    ensures { (s : List ℕ) (n c hop ret : ℕ) (d : Drive) (rows : List Row) → Listing s n c hop ret d rows
        → read_maker s n c hop ret ≡ record { verdict = accepted; figures = figures_of d (innermost_first rows) n c hop ret } }
{}

// Accepted figures are legal, pass the judge of a record, and are what their card is read as.
pub fn accepted_figures_are_a_cards()
    ensures { (s : List ℕ) (n c hop ret : ℕ) → (read_maker s n c hop ret).verdict.number ≡ 0
        → Legal 1 (read_maker s n c hop ret).figures × (judge_record 1 (read_maker s n c hop ret).figures ≡ accepted)
        × (read_card 1 (card_of (read_maker s n c hop ret).figures) ≡ record { verdict = accepted; figures = (read_maker s n c hop ret).figures }) }
{}

// A refused text answers figures that are all zero.
pub fn refused_text_has_no_figures()
    ensures { (s : List ℕ) (n c hop ret k : ℕ) → (read_maker s n c hop ret).verdict.number ≡ suc k → (read_maker s n c hop ret).figures ≡ blank_figures }
{}

// A text is refused by its first line at fault, or, where all its lines are good, as a record of its figures is.
pub fn first_fault_is_named()
    ensures { (s : List ℕ) (n c hop ret k line : ℕ) → (read_maker s n c hop ret).verdict ≡ record { number = suc k; place = line }
        → Fault s n c hop ret (suc k) line }
{}
