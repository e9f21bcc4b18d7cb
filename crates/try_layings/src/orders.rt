// The orders of some times, each by its number.
ghost use Rattle.std.specs.Prelude.{◌≡◌, ℕ, ◌≤◌, ◌<◌, take};
ghost use Rattle.laws.specs.Each.{Each};
ghost use Rattle.numbers.specs.Limits.{max_tried, max_time};
ghost use Rattle.layings.specs.Numbered.{factorial, numbered};

// How many orders `count` things have.
pub fn factorial(count: u32) -> u32
    requires { count ≤ max_tried }
    ensures { result ≡ factorial count }
{
    let mut product: u32 = 1;
    for n in 0..count {
        product = (n + 1) * product;
    }
    product
}

// The order of the first `count` times that has this number: the first of each step's others take the place of the one that is chosen.
pub fn order(times: [u32; 8], count: u32, number: u32) -> [u32; 8]
    requires { (count ≤ max_tried) × (number < factorial count) × Each (λ (t : ℕ). t ≤ max_time) times }
    ensures order { take count result ≡ numbered count number times }
    ensures small { Each (λ (t : ℕ). t ≤ max_time) result }
{
    let mut row = times;
    let mut rest = number;
    let mut size = factorial(count);
    for next in 0..count {
        size = size / (count - next);
        let there = (next + rest / size) as usize;
        row.swap(there, next as usize);
        rest = rest % size;
    }
    row
}
