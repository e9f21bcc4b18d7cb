// What is known of the worst window of a film: claims without code.
#![tactic(auto)]

ghost use Rattle.std.specs.Prelude.{◌≡◌, true, cond, List, ℕ, ◌*◌, ◌/◌, ◌%◌, ◌≤◌, ◌<◌, length};
ghost use Rattle.numbers.specs.Refusals.{wrong_window};
ghost use Rattle.words.specs.Words.{words_of, with_words};
ghost use Rattle.card.specs.declared.Figures.{Figures};
ghost use Rattle.card.specs.Card.{Legal};
ghost use Rattle.legality.specs.Legality.{Wide};
ghost use Rattle.placement.specs.Showing.{Showing, pairs, visits_of};
ghost use Rattle.pacing.specs.Film.{Film, Paced, row, span};
ghost use Rattle.plan.specs.declared.Plan.{Plan};
ghost use Rattle.plan.specs.Plan.{showing_in, entries_of, worst2_of, longest_of, streams_of, plan_of, positions_of};
ghost use Rattle.window.specs.Window.{worst_window_of, window_at_of, is_laid, is_outside, window_fault, window_answer};
ghost use Rattle.window_claims.specs.Worst.{WorstWindow};

// The worst time and the place are those of document 02, each window within one film, and no others are, for every k and in every showing; an accepted
// answer has them. (Wide: the record's arrays have their entries, as a value of its type has.)
pub fn window_is_the_worst()
    ensures worst { (x : Showing) (f : Figures) (k : ℕ) → Legal (visits_of x) f → 0 < k → k ≤ longest_of f
        → WorstWindow x f k (worst_window_of x f k) (window_at_of x f k) }
    ensures only { (x : Showing) (f : Figures) (k : ℕ) → Legal (visits_of x) f → 0 < k → (t b : ℕ) → WorstWindow x f k t b
        → (t ≡ worst_window_of x f k) × (b ≡ window_at_of x f k) }
    ensures answer { (p : Plan) (ps : List ℕ) (k : ℕ) → Wide p.figures → (window_answer p ps k).verdict.number ≡ 0
        → WorstWindow (showing_in p) p.figures k (window_answer p ps k).time (window_answer p ps k).first
        × ((window_answer p ps k).bytes ≡ k * p.figures.bytes) }
{}

// An even number of successive blocks takes at most half as many times worst2, for every k: of any film whose pairs stay within a time, and
// so of every plan in every showing.
pub fn even_window_within()
    ensures film { (film : Film ℕ) (w m : ℕ) → Paced film w m → (k a : ℕ) → k % 2 ≡ 0 → row film k a ≡ true → span film k a ≤ k / 2 * w }
    ensures plan { (x : Showing) (f : Figures) (k : ℕ) → k % 2 ≡ 0 → worst_window_of x f k ≤ k / 2 * worst2_of x f }
{}

// The window of two blocks, each visited once, is the plan's worst pair: worst2 at worstat.
pub fn window_of_two_is_worst2()
    ensures { (p : Plan) (ps : List ℕ) → Wide p.figures → visits_of (showing_in p) ≡ 1 → is_laid p ps ≡ true
        → (worst_window_of (showing_in p) p.figures 2 ≡ p.worst2) × (window_at_of (showing_in p) p.figures 2 ≡ p.worstat) }
{}

// Of half blocks the window of one block takes p, half of worst2, at worstat.
pub fn window_of_one_is_half_of_worst2()
    ensures { (p : Plan) (ps : List ℕ) → Wide p.figures → showing_in p ≡ pairs → is_laid p ps ≡ true
        → (2 * worst_window_of (showing_in p) p.figures 1 ≡ p.worst2) × (window_at_of (showing_in p) p.figures 1 ≡ p.worstat) }
{}

// What the planner leaves of a legal film is never 14, in every showing, and each window that is in range is accepted.
pub fn planned_film_has_windows()
    ensures { (x : Showing) (f : Figures) → Legal (visits_of x) f → 0 < streams_of x f → (ps : List ℕ) → entries_of x f ≤ length (words_of ps) → (k : ℕ)
        → window_fault (plan_of x f) (with_words ps 0 (positions_of x f)) k ≡ cond (is_outside k (longest_of f)) wrong_window 0 }
{}
