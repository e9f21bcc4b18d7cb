// The answers that calls from C get; and that plans and desks in lent byte strings read back as written and are written as read.
#![tactic(auto)]

ghost use Rattle.std.specs.Prelude.{◌≡◌, ℕ, ◌≤◌, List, length};
ghost use Rattle.words.specs.Words.{Bytes, Words, words_of, with_words};
ghost use Rattle.plan.specs.declared.Plan.{Plan};
ghost use Rattle.desk.specs.declared.Desk.{Desk};
ghost use Rattle.plan_layout.specs.Layout.{plan_words, plan_in, plan_word_count};
ghost use Rattle.plan_layout.specs.RoundTrip.{PlanSized};
ghost use Rattle.desk_layout.specs.Layout.{desk_words, desk_in, desk_word_count};
ghost use Rattle.desk_layout.specs.RoundTrip.{DeskSized};
ghost use Rattle.layout.specs.Answers.{verdict_answer, window_answer_of};

use card::Verdict;

// The answer of every call from C but that of windows: document 01's refusal number and what is returned with it, and what a begin answers. All zero but
// for what the call says.
#[repr(C)]
#[derive(Clone, Copy)]
pub struct FilmdiskAnswer {
    pub number: u32,
    pub place: usize,
    // Fetch entries.
    pub count: u32,
    // The sweep bound, in microseconds.
    pub bound: u32,
}

// The answer of the window call: refused, number and place, the rest 0.
#[repr(C)]
#[derive(Clone, Copy)]
pub struct FilmdiskWindowAnswer {
    pub number: u32,
    pub place: usize,
    // The worst time of the window's blocks, in microseconds.
    pub time: u32,
    // The first of the blocks that take it, the earliest where several do.
    pub first: u32,
    // The window's bytes, which are guaranteed in that time.
    pub bytes: u32,
}

// An answer with no count and no bound.
pub fn verdict_answer(verdict: Verdict) -> FilmdiskAnswer
    ensures { result ≡ verdict_answer verdict }
{
    FilmdiskAnswer {
        number: verdict.number,
        place: verdict.place,
        count: 0,
        bound: 0,
    }
}

// The answer of a window call.
pub fn window_answer(verdict: Verdict, time: u32, first: u32, bytes: u32) -> FilmdiskWindowAnswer
    ensures { result ≡ window_answer_of verdict time first bytes }
{
    FilmdiskWindowAnswer {
        number: verdict.number,
        place: verdict.place,
        time,
        first,
        bytes,
    }
}

// What is written is read back.
pub fn written_reads_back()
    ensures plans { (s : List ℕ) (p : Plan) → PlanSized p → Words (plan_words p) → plan_word_count ≤ length (words_of s)
        → plan_in (words_of (with_words s 0 (plan_words p))) ≡ p }
    ensures desks { (s : List ℕ) (d : Desk) → DeskSized d → Words (desk_words d) → desk_word_count ≤ length (words_of s)
        → desk_in (words_of (with_words s 0 (desk_words d))) ≡ d }
{}

// What was read is written back, whatever the bytes.
pub fn read_writes_back()
    ensures plans { (s : List ℕ) → Bytes s → plan_word_count ≤ length (words_of s) → with_words s 0 (plan_words (plan_in (words_of s))) ≡ s }
    ensures desks { (s : List ℕ) → Bytes s → desk_word_count ≤ length (words_of s) → with_words s 0 (desk_words (desk_in (words_of s))) ≡ s }
{}
