// What the calls leave in their byte strings, as claims about the definitions that their contracts name.
#![tactic(auto)]

ghost use Rattle.std.specs.Prelude.{◌≡◌, ℕ, ◌*◌, ◌≤◌, ◌<◌, true, cond, List, length};
ghost use Rattle.numbers.specs.Limits.{scratch_length};
ghost use Rattle.numbers.specs.Refusals.{too_short, wrong_window};
ghost use Rattle.words.specs.Words.{Bytes, words_of};
ghost use Rattle.card.specs.declared.Figures.{Figures};
ghost use Rattle.card.specs.declared.CardRead.{CardRead};
ghost use Rattle.card.specs.Card.{blocks_of, written_card, buffer_after};
ghost use Rattle.card.specs.Read.{read_card};
ghost use Rattle.placement.specs.Showing.{Showing, visits_of};
ghost use Rattle.plan.specs.Plan.{longest_of, plan_of};
ghost use Rattle.plan.specs.Answer.{positions_after, leads_after, has_leads};
ghost use Rattle.desk.specs.Desk.{fresh_desk, join_desk, leave_desk, end_desk, begin_desk};
ghost use Rattle.trace.specs.Safe.{Safe};
ghost use Rattle.trace.specs.Wait.{IsLeast, InTime, InAskingOrder};
ghost use Rattle.plan_layout.specs.Layout.{plan_in, plan_size, zero_bytes};
ghost use Rattle.desk_layout.specs.Layout.{desk_size};
ghost use Rattle.window.specs.Window.{is_outside};
ghost use Rattle.window_strings.specs.Calls.{window_call};
ghost use Rattle.plan_strings.specs.Calls.{plan_answer, plan_string, positions_string, leads_string};
ghost use Rattle.plan_strings.specs.Calls.{plan_scratch_answer, plan_scratch_string, positions_scratch_string};
ghost use Rattle.desk_calls.specs.Calls.{open_answer, open_string, said, join_answer, join_string, leave_answer, leave_string, end_answer, end_string};
ghost use Rattle.desk_calls.specs.Calls.{room_in, begin_answer, begin_string, fetch_string, draw_limit_of};
ghost use Rattle.string_claims.specs.Limits.{sweep_bound, ReachesDraws, JudgedBy};
ghost use Rattle.string_claims.specs.Lists.{StringCall, strings_after, on_string};
ghost use Rattle.desk_calls.specs.Calls.{refused_by, open_scratch_answer, open_scratch_string};
ghost use Rattle.string_claims.specs.ScratchLaws.{PlansAs, EqualStrings, RefusedStrings};
ghost use Rattle.string_claims.specs.Unfilled.{SameFrom};

// A refused join, leave, begin or end leaves every string as it was: desk (D), fetch list (F). The lists are only read.
pub fn refused_call_keeps_strings()
    ensures joins { (D ps ls : List ℕ) (slot block film : ℕ) → Bytes D → ((join_answer D ps ls slot block film).number ≡ 0 → ⊥)
        → join_string D ps ls slot block film ≡ D }
    ensures leaves { (D ps ls : List ℕ) (slot : ℕ) → Bytes D → ((leave_answer D ps ls slot).number ≡ 0 → ⊥) → leave_string D ps ls slot ≡ D }
    ensures begins { (D ps ls F : List ℕ) → Bytes D → ((begin_answer D ps ls F).number ≡ 0 → ⊥) → (begin_string D ps ls F ≡ D)
        × (fetch_string D ps ls F ≡ F) }
    ensures ends { (D ps ls draws : List ℕ) → Bytes D → ((end_answer D ps ls draws).number ≡ 0 → ⊥) → end_string D ps ls draws ≡ D }
{}

// A refused opening leaves zeros in a desk string of the right length; one of another length is refused and never written.
pub fn refused_opening_clears()
    ensures cleared { (P ps ls D : List ℕ) → length D ≡ desk_size → ((open_answer P ps ls D).number ≡ 0 → ⊥)
        → open_string P ps ls D ≡ zero_bytes desk_size }
    ensures other { (P ps ls D : List ℕ) → (length D ≡ desk_size → ⊥) → (open_string P ps ls D ≡ D) × ((open_answer P ps ls D).number ≡ 0 → ⊥) }
{}

// After an accepted call the desk string says the desk that the call answered.
pub fn accepted_desk_reads_back()
    ensures opens { (P ps ls D : List ℕ) → (open_answer P ps ls D).number ≡ 0 → said (open_string P ps ls D) ≡ fresh_desk (plan_in (words_of P)) }
    ensures joins { (D ps ls : List ℕ) (slot block film : ℕ) → (join_answer D ps ls slot block film).number ≡ 0
        → said (join_string D ps ls slot block film) ≡ (join_desk (said D) ps ls slot block film).desk }
    ensures leaves { (D ps ls : List ℕ) (slot : ℕ) → (leave_answer D ps ls slot).number ≡ 0
        → said (leave_string D ps ls slot) ≡ (leave_desk (said D) ps ls slot).desk }
    ensures begins { (D ps ls F : List ℕ) → (begin_answer D ps ls F).number ≡ 0
        → said (begin_string D ps ls F) ≡ (begin_desk (said D) ps ls (room_in F)).desk }
    ensures ends { (D ps ls draws : List ℕ) → (end_answer D ps ls draws).number ≡ 0
        → said (end_string D ps ls draws) ≡ (end_desk (said D) ps ls draws).desk }
{}

// Demand 3 for C: from an accepted opening with the plan string P, of every showing, every list of calls on one desk string, refused calls
// included, keeps the string's length and is safe as crate trace says it. Desk, book, numbers and bounds are what the strings and these very
// answers say.
pub fn every_list_of_strings_safe()
    ensures { (P ps ls D : List ℕ) → Bytes D → (open_answer P ps ls D).number ≡ 0 → (xs : List StringCall)
        → (length (strings_after P (open_string P ps ls D) xs).desk ≡ desk_size) × Safe (plan_in (words_of P)) (on_string P (open_string P ps ls D)) xs }
{}

// Ticket 5 of document 02 for C: in such a list requests are in the order of asking, and one that stays is granted at the latest at the first
// accepted begin after G finished sweeps since it became the eldest.
pub fn string_requests_are_granted_in_time()
    ensures order { (P ps ls D : List ℕ) → Bytes D → (open_answer P ps ls D).number ≡ 0 → InAskingOrder (on_string P (open_string P ps ls D)) }
    ensures time { (P ps ls D : List ℕ) → Bytes D → (open_answer P ps ls D).number ≡ 0 → (G : ℕ) → IsLeast (plan_in (words_of P)) G
        → InTime (on_string P (open_string P ps ls D)) G }
{}

// What the plan call of every showing leaves in the plan string and the lists: accepted, the plan of the card's figures; after 1 to 12, 25 and 26
// zeros; after 13, and where it has another length, what it held. A refused call leaves both lists.
pub fn plan_call_leaves()
    ensures accepted { (x : Showing) (s p ps ls : List ℕ) → Bytes s → (plan_answer x s p ps ls).number ≡ 0
        → plan_in (words_of (plan_string x s p ps ls)) ≡ plan_of x (read_card (visits_of x) s).figures }
    ensures cleared { (x : Showing) (s p ps ls : List ℕ) → length p ≡ plan_size → ((plan_answer x s p ps ls).number ≡ too_short → ⊥)
        → ((plan_answer x s p ps ls).number ≡ 0 → ⊥) → plan_string x s p ps ls ≡ zero_bytes plan_size }
    ensures kept { (x : Showing) (s p ps ls : List ℕ) → (plan_answer x s p ps ls).number ≡ too_short → plan_string x s p ps ls ≡ p }
    ensures other { (x : Showing) (s p ps ls : List ℕ) → (length p ≡ plan_size → ⊥) → plan_string x s p ps ls ≡ p }
    ensures lists { (x : Showing) (s p ps ls : List ℕ) → ((plan_answer x s p ps ls).number ≡ 0 → ⊥) → (positions_string x s p ps ls ≡ ps)
        × (leads_string x s p ps ls ≡ ls) }
{}

// What the plan call of every showing leaves can be opened, into any desk string of the right length: the desk is that of the card's plan, all
// slots free.
pub fn planned_strings_open()
    ensures { (x : Showing) (s p ps ls : List ℕ) → Bytes s → (plan_answer x s p ps ls).number ≡ 0 → (D : List ℕ) → length D ≡ desk_size
        → ((open_answer (plan_string x s p ps ls) (positions_string x s p ps ls) (leads_string x s p ps ls) D).number ≡ 0)
        × (said (open_string (plan_string x s p ps ls) (positions_string x s p ps ls) (leads_string x s p ps ls) D) ≡ fresh_desk
        (plan_of x (read_card (visits_of x) s).figures)) }
{}

// What the plan call of every showing leaves has windows: a window of it is never 14, and each that is in range is accepted.
pub fn planned_strings_have_windows()
    ensures { (x : Showing) (s p ps ls : List ℕ) → Bytes s → (plan_answer x s p ps ls).number ≡ 0 → (k : ℕ)
        → (window_call (plan_string x s p ps ls) (positions_string x s p ps ls) k).number ≡ cond (is_outside k (longest_of (read_card (visits_of x) s).figures)) wrong_window 0 }
{}

// Bytes that an answer does not fill keep their contents, spare ones too: of both lists past those of N blocks, of the fetch list past the counted
// entries of 12 bytes, of the buffer past the written card. Each keeps its length.
pub fn unfilled_entries_stay()
    ensures planner { (x : Showing) (r : CardRead) (ps ls : List ℕ)
        → SameFrom (4 * (visits_of x * blocks_of r.figures)) ps (positions_after x r ps ls) × SameFrom (4 * blocks_of r.figures) ls (leads_after x r ps ls) }
    ensures plans { (x : Showing) (s p ps ls : List ℕ)
        → SameFrom (4 * (visits_of x * blocks_of (read_card (visits_of x) s).figures)) ps (positions_string x s p ps ls)
        × SameFrom (4 * blocks_of (read_card (visits_of x) s).figures) ls (leads_string x s p ps ls) }
    ensures begins { (D ps ls F : List ℕ) → SameFrom (12 * (begin_answer D ps ls F).count) F (fetch_string D ps ls F) }
    ensures writer { (f : Figures) (out : List ℕ) → SameFrom (written_card f out).length out (buffer_after f out) }
{}

// What an end judges its draws by is the draw limit of each slot: past 14, 15 and 19 it answers 20 exactly where some slot's draw is above it,
// with the lowest such slot. The limit is asked for the bound of the sweep, which is what the begin that left the desk answered.
pub fn end_judges_by_draw_limit()
    ensures sweeps { (D ps ls draws : List ℕ) → ReachesDraws (end_answer D ps ls draws).number
        → JudgedBy (λ i. draw_limit_of D i (sweep_bound (said D))) draws (end_answer D ps ls draws) }
    ensures begun { (D ps ls F : List ℕ) → (begin_answer D ps ls F).number ≡ 0 → (qs ms draws : List ℕ)
        → ReachesDraws (end_answer (begin_string D ps ls F) qs ms draws).number
        → JudgedBy (λ i. draw_limit_of (begin_string D ps ls F) i (begin_answer D ps ls F).bound) draws (end_answer (begin_string D ps ls F) qs ms draws) }
{}

// A scratch of 512 numbers or more (ticket 10 of document 02): each call answers, and leaves in every string, what it does with the full list of
// leads. The planner's list has room for N entries, the desk's begins with the film's N leads.
pub fn scratch_strings_equal_lists()
    ensures plans { (x : Showing) (s p ps t ls : List ℕ) → scratch_length ≤ length (words_of t) → blocks_of (read_card (visits_of x) s).figures ≤ length (words_of ls)
        → PlansAs x s p ps t ls }
    ensures opens { (P ps ls s D : List ℕ) → has_leads (plan_in (words_of P)) ls ≡ true → scratch_length ≤ length (words_of s)
        → (open_scratch_answer P ps s D ≡ open_answer P ps ls D) × (open_scratch_string P ps s D ≡ open_string P ps ls D) }
    ensures desk { (D ps ls : List ℕ) → has_leads (said D).plan ls ≡ true → (s : List ℕ) → scratch_length ≤ length (words_of s)
        → EqualStrings D ps ls s }
{}

// A scratch below 512 is 13: of a plan call where 13 stands, after the card's own refusals and before 12; of the desk ahead of all else. It leaves
// every string.
pub fn short_scratch_keeps_strings()
    ensures plans { (x : Showing) (s p ps t : List ℕ) → length (words_of t) < scratch_length → 0 < blocks_of (read_card (visits_of x) s).figures
        → (read_card (visits_of x) s).verdict.number ≡ 0 → (plan_scratch_answer x s p ps t ≡ refused_by too_short) × (plan_scratch_string x s p ps t ≡ p)
        × (positions_scratch_string x s p ps t ≡ ps) }
    ensures desk { (D ps s : List ℕ) → length (words_of s) < scratch_length → RefusedStrings D ps s }
{}
