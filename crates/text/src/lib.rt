// The board text: what its reader and its writer hand on.
#![tactic(auto)]

ghost use Rattle.std.specs.Prelude.{◌≡◌, ◌<◌, leb, ltb};
ghost use Rattle.lists.specs.Choice.{pick, both};
ghost use Rattle.text.specs.Text.{vertex_below};

// The numbers that a field may hold: low to high, both included.
#[derive(Clone, Copy)]
pub struct Range {
    pub low: u32,
    pub high: u32,
}

// What was read at the start of a text, and how many bytes it took.
#[derive(Clone, Copy)]
pub struct Taken<T> {
    pub value: T,
    pub used: usize,
}

impl Range {
    #[tactic(auto, unfolding(lists::specs::Choice::both))]
    pub fn holds(self, n: u32) -> bool
        ensures { result ≡ both (leb self.low n) (leb n self.high) }
    {
        (self.low..=self.high).contains(&n)
    }

    // The numbers below n.
    pub fn below(n: u32) -> Range
        requires { 0 < n }
        ensures { result ≡ vertex_below n }
    {
        Range {
            low: 0,
            high: n - 1,
        }
    }
}

// What ends a field with `left` fields behind it on its line.
#[tactic(auto, unfolding(lists::specs::Choice::pick))]
pub fn end_byte(left: usize) -> u8
    ensures { result ≡ pick (ltb 0 left) 44 10 }
{
    if 0 < left { b',' } else { b'\n' }
}
