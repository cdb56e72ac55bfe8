// Total access to slices, and the loops that more than one layer uses.
#![tactic(auto)]

ghost use Rattle.std.specs.Prelude.{◌≡◌, ◌-◌, get_or, set};
ghost use Rattle.lists.specs.Choice.{both, either};
ghost use Rattle.lists.specs.Lists.{index_of};

// Both tests, as one value: it stands where the tests are parts of a value that a definition has by `both`, and `or`
// where it has them by `either`; a call keeps such a proof one straight line. In an `if`, `&&` and `||` are fine. Both
// tests are always made.
pub fn and(a: bool, b: bool) -> bool
    ensures { result ≡ both a b }
{
    if a { b } else { false }
}

// One of the tests or both, as one value: see `and`.
pub fn or(a: bool, b: bool) -> bool
    ensures { result ≡ either a b }
{
    if a { true } else { b }
}

// The value at i, and the other one past the end.
pub fn at_or<T: Copy>(s: &[T], i: usize, other: T) -> T
    ensures { result ≡ get_or s.now i other }
{
    if i < s.len() { s[i] } else { other }
}

// Stores a value at i, and nothing past the end.
pub fn put<T: Copy>(s: &mut [T], i: usize, x: T)
    ensures { s.new ≡ set s.old i x }
{
    if i < s.len() {
        s[i] = x;
    }
}

// The difference, and 0 where it would be below 0.
pub fn minus(a: u32, b: u32) -> u32
    ensures { result ≡ a - b }
{
    a.saturating_sub(b)
}

// The index of the first b, or the length where there is none.
pub fn index_of(s: &[u8], b: u8) -> usize
    ensures { result ≡ index_of b s.now }
{
    for (i, x) in s.iter().enumerate() {
        if *x == b {
            return i;
        }
    }
    s.len()
}
