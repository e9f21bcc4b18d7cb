// The fetch entries of a sweep in a lent byte string, three 32-bit words an entry: position, slot, block.
#![tactic(auto)]

ghost use Rattle.std.specs.Prelude.{◌≡◌, ◌*◌, ◌≤◌, length};
ghost use Rattle.words.specs.Words.{words_of, with_words};
ghost use Rattle.entry_layout.specs.Entries.{rows, list_of};

use words::write_words;

// Writes the first `count` entries into a lent byte string; what stands past them stays.
pub fn write_entries<'a>(
    positions: &'a [u32; 256],
    slots: &'a [u32; 256],
    blocks: &'a [u32; 256],
    count: usize,
    out: &mut [u8],
)
    requires { (count ≤ 256) × (3 * count ≤ length (words_of out.old)) }
    ensures { out.new ≡ with_words out.old 0
        (rows 0 count (list_of count positions.now slots.now blocks.now)) }
{
    for i in 0..count {
        write_words(out, 3 * i, &[positions[i], slots[i], blocks[i]]);
    }
}
