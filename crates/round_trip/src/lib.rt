// How the reader, the judge and the writer of a card fit together, and that they accept just the legal figures: claims without code.
#![tactic(auto)]

ghost use Rattle.std.specs.Prelude.{◌≡◌, ◌↔◌, List, ◌++◌, ℕ, suc, ◌*◌, ◌≤◌, length, drop};
ghost use Rattle.numbers.specs.Limits.{min_card, max_card};
ghost use Rattle.leb128.specs.Number.{Bytes};
ghost use Rattle.card.specs.declared.Figures.{Figures};
ghost use Rattle.card.specs.Card.{Legal, total_positions, blocks_of, record_fault, judge_record, card_of, written_card, buffer_after};
ghost use Rattle.card.specs.Read.{accepted, blank_figures, read_card};
ghost use Rattle.legality.specs.Legality.{Wide};

// The judge accepts a record exactly where its figures are legal.
pub fn judge_accepts_legal()
    ensures { (f : Figures) → Wide f → ((judge_record 1 f ≡ accepted) ↔ Legal 1 f) × ((record_fault 1 f ≡ 0) ↔ Legal 1 f) }
{}

// The reader accepts bytes exactly where they are the card of legal figures.
pub fn reader_accepts_legal()
    ensures { (s : List ℕ) → Bytes s → ((read_card 1 s).verdict.number ≡ 0) ↔ ((f : Figures) × Legal 1 f × (s ≡ card_of f)) }
{}

// The card of legal figures is read back as these figures.
pub fn written_card_reads_back()
    ensures { (f : Figures) → Legal 1 f → read_card 1 (card_of f) ≡ record { verdict = accepted; figures = f } }
{}

// An accepted card is the card of the figures read, and it is what the writer writes of them: no other form of it is accepted.
pub fn accepted_card_is_the_written_one()
    ensures { (s : List ℕ) → Bytes s → (read_card 1 s).verdict.number ≡ 0 → (s ≡ card_of (read_card 1 s).figures)
        × ((out : List ℕ) → length s ≤ length out → (written_card (read_card 1 s).figures out ≡ record { verdict = accepted; length = length s })
        × (buffer_after (read_card 1 s).figures out ≡ s ++ drop (length s) out)) }
{}

// A refused card answers figures that are all zero.
pub fn refused_card_has_no_figures()
    ensures { (s : List ℕ) (k : ℕ) → (read_card 1 s).verdict.number ≡ suc k → (read_card 1 s).figures ≡ blank_figures }
{}

// The card of legal figures has 10 to 1,519 bytes.
pub fn legal_card_is_short()
    ensures { (f : Figures) → Legal 1 f → (min_card ≤ length (card_of f)) × (length (card_of f) ≤ max_card) }
{}

// A card is accepted for half blocks exactly where it is the card of figures with room for two positions a block, and it is then accepted
// for whole blocks too, with the same figures.
pub fn halved_card_is_a_card()
    ensures { (s : List ℕ) → Bytes s → (((read_card 2 s).verdict.number ≡ 0) ↔ ((f : Figures) × Legal 2 f × (s ≡ card_of f)))
        × ((read_card 2 s).verdict.number ≡ 0 → read_card 1 s ≡ read_card 2 s) }
{}

// The same of a record.
pub fn halved_record_is_a_record()
    ensures { (f : Figures) → Wide f → ((judge_record 2 f ≡ accepted) ↔ Legal 2 f) × ((record_fault 2 f ≡ 0) ↔ Legal 2 f)
        × (judge_record 2 f ≡ accepted → judge_record 1 f ≡ accepted) × (Legal 2 f ↔ (Legal 1 f × (2 * blocks_of f ≤ total_positions f))) }
{}
