// Sets of small numbers as bits.
#![tactic(auto)]

pub mod word;

ghost use Rattle.std.specs.Prelude.{◌≡◌, ◌<◌};
ghost use Rattle.lists.specs.Choice.{pick};
ghost use Rattle.sets.specs.Sets.{none, has_bit, with_bit, joined, common, without, set_of};
ghost use Rattle.sets.specs.Inner.{is_empty, set_width, dropped, lowest_in};

// A set of edges.
pub type EdgeSet = u64;

// A set of vertices: one word (`word`).
pub type VertexSet = u64;

// How many numbers a set of edges has room for.
pub const WIDTH: u32 = word::WIDTH as u32;

// Five call their namesakes in `word`: contracts here say `set_of`, so that a set of edges can take more than one word.

// The empty set.
pub fn none() -> EdgeSet
    ensures { set_of result ≡ none }
{
    word::none()
}

// Whether the set is empty.
pub fn is_empty(m: EdgeSet) -> bool
    ensures { result ≡ is_empty (set_of m) }
{
    m == 0
}

// Whether c is in the set.
pub fn has(m: EdgeSet, c: usize) -> bool
    ensures { result ≡ has_bit (set_of m) c }
{
    word::has(m, c)
}

// The set, with c where it is to join.
pub fn with(m: EdgeSet, joins: bool, c: usize) -> EdgeSet
    requires { c < set_width }
    ensures { set_of result ≡ pick joins (with_bit (set_of m) c) (set_of m) }
{
    word::with(m, joins, c)
}

// The numbers of both sets.
pub fn joined(m: EdgeSet, s: EdgeSet) -> EdgeSet
    ensures { set_of result ≡ joined (set_of m) (set_of s) }
{
    word::joined(m, s)
}

// The numbers that are in both sets.
pub fn common(m: EdgeSet, s: EdgeSet) -> EdgeSet
    ensures { set_of result ≡ common (set_of m) (set_of s) }
{
    m & s
}

// The numbers of the set m that are not in s.
pub fn without(m: EdgeSet, s: EdgeSet) -> EdgeSet
    ensures { set_of result ≡ without (set_of m) (set_of s) }
{
    m & !s
}

// The lowest number in the set; WIDTH where it is empty.
pub fn lowest(m: EdgeSet) -> u32
    ensures { result ≡ lowest_in (set_of m) }
{
    word::lowest(m)
}

// The set without c.
pub fn drop(m: EdgeSet, c: u32) -> EdgeSet
    ensures { set_of result ≡ dropped (set_of m) c }
{
    if has(m, c as usize) {
        m - (1u64 << c)
    } else {
        m
    }
}
