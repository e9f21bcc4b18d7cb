// A plan in a lent byte string, as 32-bit words, lowest byte first, without padding.
#![tactic(auto)]

pub mod offsets; // the word at which each field starts

ghost use Rattle.std.specs.Prelude.{◌≡◌, [], ◌≤◌, length};
ghost use Rattle.words.specs.Words.{words_of, with_words};
ghost use Rattle.card.specs.Read.{figures_from};
ghost use Rattle.plan.specs.Plan.{plan_from, lent_plan, blank_plan};
ghost use Rattle.fields.specs.Fields.{word_count, unpacked, Same};
ghost use Rattle.fields.specs.FieldLaws.{stored};
ghost use Rattle.plan_layout.specs.Layout.{figure_fields, figure_values, planned_fields, planned_values, plan_words, plan_in, plan_word_count, plan_size};
ghost use Rattle.plan_layout.specs.RoundTrip.{FiguresSized};

use card::{Figures, Scalars};
use plan::{Numbers, Plan};
use words::{clear_words, read_array, word_at, write_array, write_words};

// Bytes of a plan.
pub const PLAN_BYTES: usize = 4 * offsets::PLAN_WORDS;

// The figures at the front of a string.
fn figures_at(list: &[u8]) -> Figures
    requires { word_count figure_fields ≤ length (words_of list.now) }
    ensures { Same figure_fields (figure_values result) (unpacked figure_fields 0 (words_of list.now)) }
{
    Figures {
        kind: word_at(list, offsets::KIND),
        zones: word_at(list, offsets::ZONES),
        positions: read_array(list, offsets::POSITIONS),
        times: read_array(list, offsets::TIMES),
        films: word_at(list, offsets::FILMS),
        blocks: read_array(list, offsets::BLOCKS),
        bytes: word_at(list, offsets::BYTES),
        rate: word_at(list, offsets::RATE),
        table: read_array(list, offsets::TABLE),
    }
}

// The plan at the front of a string, field by field.
fn plan_at(list: &[u8]) -> Plan
    requires { plan_word_count ≤ length (words_of list.now) }
    ensures { Same figure_fields (figure_values result.figures) (unpacked figure_fields 0 (words_of list.now))
        × Same planned_fields (planned_values result) (unpacked planned_fields (word_count figure_fields) (words_of list.now)) }
{
    Plan {
        figures: figures_at(list),
        streams: word_at(list, offsets::STREAMS),
        buffer: word_at(list, offsets::BUFFER),
        worst2: word_at(list, offsets::WORST2),
        margin: word_at(list, offsets::MARGIN),
        showing: word_at(list, offsets::SHOWING),
        worstat: word_at(list, offsets::WORSTAT),
    }
}

// The plan at the front of a string.
pub fn read_plan(list: &[u8]) -> Plan
    requires { plan_size ≤ length list.now }
    ensures { result ≡ plan_in (words_of list.now) }
{
    plan_at(list)
}

// The single numbers and the films of the figures of the plan at the front of a string.
pub fn scalars_at(list: &[u8]) -> Scalars
    requires { plan_word_count ≤ length (words_of list.now) }
    ensures { let f = (plan_in (words_of list.now)).figures in figures_from result f.positions f.times f.table ≡ f }
{
    Scalars {
        kind: word_at(list, offsets::KIND),
        zones: word_at(list, offsets::ZONES),
        films: word_at(list, offsets::FILMS),
        blocks: read_array(list, offsets::BLOCKS),
        bytes: word_at(list, offsets::BYTES),
        rate: word_at(list, offsets::RATE),
    }
}

// And what was planned of them.
pub fn numbers_at(list: &[u8]) -> Numbers
    requires { plan_word_count ≤ length (words_of list.now) }
    ensures { let p = plan_in (words_of list.now) in plan_from p.figures result ≡ p }
{
    Numbers {
        streams: word_at(list, offsets::STREAMS),
        buffer: word_at(list, offsets::BUFFER),
        worst2: word_at(list, offsets::WORST2),
        margin: word_at(list, offsets::MARGIN),
        showing: word_at(list, offsets::SHOWING),
        worstat: word_at(list, offsets::WORSTAT),
    }
}

// And its arrays: the positions and the times of the zones, and the table of overheads.
pub fn sizes_at(list: &[u8]) -> [u32; 64]
    requires { plan_word_count ≤ length (words_of list.now) }
    ensures { result ≡ (plan_in (words_of list.now)).figures.positions }
{
    read_array(list, offsets::POSITIONS)
}

pub fn times_at(list: &[u8]) -> [u32; 64]
    requires { plan_word_count ≤ length (words_of list.now) }
    ensures { result ≡ (plan_in (words_of list.now)).figures.times }
{
    read_array(list, offsets::TIMES)
}

pub fn table_at(list: &[u8]) -> [u32; 257]
    requires { plan_word_count ≤ length (words_of list.now) }
    ensures { result ≡ (plan_in (words_of list.now)).figures.table }
{
    read_array(list, offsets::TABLE)
}

// Writes the figures of a plan, their arrays lent, at the front of a string.
fn write_figures<'a>(
    list: &mut [u8],
    figures: Scalars,
    sizes: &'a [u32; 64],
    times: &'a [u32; 64],
    table: &'a [u32; 257],
)
    requires { plan_size ≤ length list.old }
    ensures { let f = figures_from figures sizes.now times.now table.now in
        (list.new ≡ stored figure_fields 0 list.old [] (figure_values f)) × FiguresSized f }
{
    write_words(list, offsets::KIND, &[figures.kind, figures.zones]);
    write_array(list, offsets::POSITIONS, sizes);
    write_array(list, offsets::TIMES, times);
    write_words(list, offsets::FILMS, &[figures.films]);
    write_array(list, offsets::BLOCKS, &figures.blocks);
    write_words(list, offsets::BYTES, &[figures.bytes, figures.rate]);
    write_array(list, offsets::TABLE, table);
}

// Writes a plan, its arrays lent, at the front of a string.
pub fn write_parts<'a>(
    list: &mut [u8],
    figures: Scalars,
    sizes: &'a [u32; 64],
    times: &'a [u32; 64],
    table: &'a [u32; 257],
    plan: Numbers,
)
    requires { plan_size ≤ length list.old }
    ensures { let p = lent_plan figures sizes.now times.now table.now plan in
        (list.new ≡ with_words list.old 0 (plan_words p)) × (length (plan_words p) ≡ plan_word_count) }
{
    write_figures(list, figures, sizes, times, table);
    write_words(
        list,
        offsets::STREAMS,
        &[
            plan.streams,
            plan.buffer,
            plan.worst2,
            plan.margin,
            plan.showing,
            plan.worstat,
        ],
    );
}

// Writes the plan that is all zero at the front of a string.
pub fn clear_plan(list: &mut [u8])
    requires { plan_size ≤ length list.old }
    ensures { list.new ≡ with_words list.old 0 (plan_words blank_plan) }
{
    clear_words(list, 0, offsets::PLAN_WORDS);
}
