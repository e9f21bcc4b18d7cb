// The leads of the slots of a desk, added up.
ghost use Rattle.std.specs.Prelude.{◌≡◌, true, false, ◌≤◌, length};
ghost use Rattle.words.specs.Words.{words_of};
ghost use Rattle.card.specs.Card.{blocks_of};
ghost use Rattle.desk_layout.specs.Layout.{desk_in, desk_size};
ghost use Rattle.floor.specs.Floor.{LeadsSummed};
ghost use Rattle.soundness.specs.Facts.{Summable};

use desk_columns::{all_lengths, films_in, showing_in, worst2_in, zones_in};
use floor::sum_leads;
use plan::blocks_before;
use shelf_lists::write_shelf_leads;
use zones::sum_positions;

// A shelf of at most so many blocks is short.
const SHORT: u32 = 64;

// Room for a short shelf's leads.
fn room() -> [u8; 256]
    ensures { length result ≡ 256 }
{
    [0u8; 256]
}

// The sum of a short shelf's leads where no list is lent: they are listed here first, since to look up the zone of each slot's block takes more.
fn sum_short<'a>(
    desk: &[u8],
    streams: usize,
    sizes: &'a [u32; 64],
    times: &'a [u32; 64],
    positions: &[u8],
) -> u32
    requires { let d = desk_in (words_of desk.now) in (desk_size ≤ length desk.now) × (blocks_of d.plan.figures ≤ 64)
        × Summable false d streams sizes.now times.now positions.now positions.now }
    ensures { LeadsSummed (desk_in (words_of desk.now)) result }
{
    let mut leads = room();
    let total = sum_positions(sizes, zones_in(desk));
    let lengths = all_lengths(desk);
    let films = films_in(desk);
    let worst2 = worst2_in(desk);
    write_shelf_leads(
        sizes,
        times,
        showing_in(desk),
        total,
        &lengths,
        films,
        worst2,
        &mut leads,
    );
    sum_leads(desk, streams, sizes, times, positions, &leads, true)
}

// The leads at the next blocks of the filling and playing slots of a tidy desk, whose zones are lent, added up: from the lent list, or without
// one.
pub fn sum_next<'a>(
    desk: &[u8],
    streams: usize,
    sizes: &'a [u32; 64],
    times: &'a [u32; 64],
    positions: &[u8],
    leads: &[u8],
    listed: bool,
) -> u32
    requires { let d = desk_in (words_of desk.now) in (desk_size ≤ length desk.now)
        × Summable listed d streams sizes.now times.now positions.now leads.now }
    ensures { LeadsSummed (desk_in (words_of desk.now)) result }
{
    if !listed {
        let lengths = all_lengths(desk);
        if blocks_before(&lengths, films_in(desk)) <= SHORT {
            return sum_short(desk, streams, sizes, times, positions);
        }
    }
    sum_leads(desk, streams, sizes, times, positions, leads, listed)
}
