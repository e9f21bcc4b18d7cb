// A product past 32 bits from products that stay within them, on a machine that has no wide multiplication.
ghost use Rattle.std.specs.Prelude.{◌≡◌, ◌*◌, ◌/◌, ◌%◌, ◌≤◌};
ghost use Rattle.streams.specs.Halves.{half, max_half};

// The upper 16 bits.
pub fn upper(a: u32) -> u32
    ensures { (result ≡ a / half) × (result ≤ max_half) }
{
    a >> 16
}

// The lower 16 bits.
pub fn lower(a: u32) -> u32
    ensures { (result ≡ a % half) × (result ≤ max_half) }
{
    (a << 16) >> 16
}

// The product of two halves, the only multiplication here: 32 bits hold it.
fn times(a: u32, b: u32) -> u64
    requires { (a ≤ max_half) × (b ≤ max_half) }
    ensures { result ≡ a * b }
{
    (a * b) as u64
}

// The product of a number and a half.
pub fn times_half(a: u32, b: u32) -> u64
    requires { b ≤ max_half }
    ensures { result ≡ a * b }
{
    (times(upper(a), b) << 16) + times(lower(a), b)
}
