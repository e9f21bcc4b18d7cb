// The two lent lists of a shelf of films, film by film: each is laid on the highest positions still free, and its entries stand behind those of the
// films before it.
#![tactic(auto)]

ghost use Rattle.std.specs.Prelude.{◌≡◌, ◌*◌, ◌≤◌, length};
ghost use Rattle.laws.specs.Starts.{start_of};
ghost use Rattle.words.specs.Words.{words_of, with_words};
ghost use Rattle.placement.specs.Showing.{visits_of};
ghost use Rattle.plan.specs.Plan.{showing_of};
ghost use Rattle.plan.specs.Answer.{begins};
ghost use Rattle.plan.specs.Disk.{length_at, Shelved, OnShelf, shelf_positions, shelf_leads};

use block_lists::{both, same_leads, same_positions, write_leads, write_positions};
use plan::{blocks_before, visits_of};
use words::entries;

// Writes the positions of all films; `total` is P.
pub fn write_shelf_positions(
    showing: u32,
    total: u32,
    blocks: &[u32; 16],
    films: u32,
    positions: &mut [u8],
)
    requires { (Shelved (showing_of showing) total blocks.now films)
        × (visits_of (showing_of showing) * start_of (length_at blocks.now) films ≤ length (words_of positions.old)) }
    ensures { positions.new ≡ with_words positions.old 0 (shelf_positions (showing_of showing) total blocks.now films) }
{
    let visits = visits_of(showing);
    let count = films as usize;
    let mut free = total;
    let mut at: usize = 0;
    for i in 0..count {
        let taken = visits * blocks[i];
        write_positions(showing, free, taken, &mut positions[at..]);
        free -= taken;
        at += 4 * taken as usize;
    }
}

// Writes the leads of all films; `total` is P.
pub fn write_shelf_leads<'a>(
    sizes: &'a [u32; 64],
    times: &'a [u32; 64],
    showing: u32,
    total: u32,
    blocks: &'a [u32; 16],
    films: u32,
    worst2: u32,
    leads: &mut [u8],
)
    requires { (OnShelf sizes.now times.now (showing_of showing) total blocks.now films)
        × (start_of (length_at blocks.now) films ≤ length (words_of leads.old)) }
    ensures { leads.new ≡ with_words leads.old 0
        (shelf_leads sizes.now times.now (showing_of showing) total blocks.now worst2 films) }
{
    let visits = visits_of(showing);
    let count = films as usize;
    let mut free = total;
    let mut at: usize = 0;
    for i in 0..count {
        let film = blocks[i];
        write_leads(sizes, times, showing, free, film, worst2, &mut leads[at..]);
        free -= visits * film;
        at += 4 * film as usize;
    }
}

// The list begins with the positions of all films; `total` is P.
pub fn same_shelf_positions(
    showing: u32,
    total: u32,
    blocks: &[u32; 16],
    films: u32,
    positions: &[u8],
) -> bool
    requires { Shelved (showing_of showing) total blocks.now films }
    ensures { result ≡ begins (shelf_positions (showing_of showing) total blocks.now films) (words_of positions.now) }
{
    let visits = visits_of(showing);
    if entries(positions) < (visits * blocks_before(blocks, films)) as usize {
        return false;
    }
    let count = films as usize;
    let mut same = true;
    let mut free = total;
    let mut at: usize = 0;
    for i in 0..count {
        let all = visits * blocks[i];
        let film = same_positions(showing, free, all, &positions[at..]);
        same = both(same, film);
        free -= all;
        at += 4 * all as usize;
    }
    same
}

// The list begins with the leads of all films; `total` is P.
pub fn same_shelf_leads<'a>(
    sizes: &'a [u32; 64],
    times: &'a [u32; 64],
    showing: u32,
    total: u32,
    blocks: &'a [u32; 16],
    films: u32,
    worst2: u32,
    leads: &[u8],
) -> bool
    requires { OnShelf sizes.now times.now (showing_of showing) total blocks.now films }
    ensures { result ≡ begins (shelf_leads sizes.now times.now (showing_of showing) total blocks.now worst2 films)
        (words_of leads.now) }
{
    if entries(leads) < blocks_before(blocks, films) as usize {
        return false;
    }
    let visits = visits_of(showing);
    let count = films as usize;
    let mut same = true;
    let mut free = total;
    let mut at: usize = 0;
    for i in 0..count {
        let film = blocks[i];
        let led = same_leads(sizes, times, showing, free, film, worst2, &leads[at..]);
        same = both(same, led);
        free -= visits * film;
        at += 4 * film as usize;
    }
    same
}
