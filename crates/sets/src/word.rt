// Sets of numbers below 64, one word each: sets of vertices, and what sets of edges are made of.
ghost use Rattle.std.specs.Prelude.{◌≡◌, ◌<◌};
ghost use Rattle.lists.specs.Choice.{pick};
ghost use Rattle.sets.specs.Sets.{none, has_bit, with_bit, joined};
ghost use Rattle.sets.specs.Inner.{word_width, lowest_below};

use crate::VertexSet;

// How many numbers a word has room for.
pub const WIDTH: usize = 64;

// The empty set.
pub fn none() -> VertexSet
    ensures { result ≡ none }
{
    0
}

// Whether c is in the set.
pub fn has(m: VertexSet, c: usize) -> bool
    ensures { result ≡ has_bit m c }
{
    c < WIDTH && (m >> c) % 2 == 1
}

// The set, with c where it is to join.
pub fn with(m: VertexSet, joins: bool, c: usize) -> VertexSet
    requires { c < word_width }
    ensures { result ≡ pick joins (with_bit m c) m }
{
    if joins { m | (1u64 << c) } else { m }
}

// The numbers of both sets.
pub fn joined(m: VertexSet, s: VertexSet) -> VertexSet
    ensures { result ≡ joined m s }
{
    m | s
}

// The lowest number in the set; the width of a word where it is empty.
pub fn lowest(m: VertexSet) -> u32
    ensures { result ≡ lowest_below word_width m }
{
    m.trailing_zeros()
}
