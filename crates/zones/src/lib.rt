// The zones of a disk: how many positions they have, which one a position is in, and how long a block takes there.
#![tactic(auto)]

ghost use Rattle.std.specs.Prelude.{◌≡◌, ◌≤◌, ◌<◌, take};
ghost use Rattle.numbers.specs.Limits.{max_zones};
ghost use Rattle.placement.specs.Zones.{total, time_at};
ghost use Rattle.plan.specs.Disk.{Zoned};
ghost use Rattle.zones.specs.Cursor.{ZoneOf, Seeks, Holds};

// A zone by its number, with its first position and the first after it.
#[derive(Clone, Copy)]
pub struct Zone {
    pub index: usize,
    pub first: u32,
    pub end: u32,
}

// P, the positions of all zones.
pub fn sum_positions(sizes: &[u32; 64], zones: u32) -> u32
    requires { (Zoned sizes.now) × (zones ≤ max_zones) }
    ensures { result ≡ total (take zones sizes.now) }
{
    sizes[..zones as usize].iter().sum()
}

// The innermost zone.
pub fn innermost(sizes: &[u32; 64]) -> Zone
    requires { Zoned sizes.now }
    ensures { (ZoneOf sizes.now result) × (result.first ≡ 0) }
{
    Zone {
        index: 0,
        first: 0,
        end: sizes[0],
    }
}

// The zone of position q, from one that does not begin after it.
fn zone_above(sizes: &[u32; 64], at: Zone, q: u32) -> Zone
    requires { (Seeks sizes.now at q) × (at.first ≤ q) }
    ensures { Holds sizes.now result q }
{
    let mut zone = at;
    while zone.end <= q {
        let index = zone.index + 1;
        let first = zone.end;
        let end = first + sizes[index];
        zone = Zone { index, first, end };
    }
    zone
}

// The zone of position q, from one that does not end before it.
fn zone_below(sizes: &[u32; 64], at: Zone, q: u32) -> Zone
    requires { (Seeks sizes.now at q) × (q < at.end) }
    ensures { Holds sizes.now result q }
{
    let mut zone = at;
    while q < zone.first {
        let index = zone.index - 1;
        let end = zone.first;
        let first = end - sizes[index];
        zone = Zone { index, first, end };
    }
    zone
}

// The zone of position q, from any zone.
pub fn zone_near(sizes: &[u32; 64], at: Zone, q: u32) -> Zone
    requires { Seeks sizes.now at q }
    ensures { Holds sizes.now result q }
{
    if q < at.end {
        return zone_below(sizes, at, q);
    }
    zone_above(sizes, at, q)
}

// The time to read a block at position q.
pub fn time_at<'a>(sizes: &'a [u32; 64], times: &'a [u32; 64], q: u32) -> u32
    requires { (Zoned sizes.now) × (q < total sizes.now) }
    ensures { result ≡ time_at sizes.now times.now q }
{
    let zone = zone_above(sizes, innermost(sizes), q);
    let index = zone.index;
    times[index]
}
