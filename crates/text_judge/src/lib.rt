// Which rules a network breaks first, and whether it is one that an accepted text gives.
#![tactic(auto)]

ghost use Rattle.std.specs.Prelude.{◌≡◌, true, ℕ, ◌+◌, ◌*◌, ◌≤◌, ◌<◌, length, get_or, set};
ghost use Rattle.lists.specs.Lists.{all, sum_at};
ghost use Rattle.refusals.specs.Refusals.{answer_of};
ghost use Rattle.board.specs.Limits.{max_vertices};
ghost use Rattle.text_rules.specs.Rules.{
  no_loop,
  away_from_source,
  balanced,
  judged,
  counts_fit_in,
  counts_fit,
  lawful,
};

use board::{Board, Network};
use refusals::Refusal;

// Whether no edge of a network is a loop.
fn all_differ(net: Network) -> bool
    ensures { result ≡ all (no_loop net) 0 net.edges }
{
    (0..net.edges).all(|i| lists::at_or(&net.tails, i as usize, 0)
        != lists::at_or(&net.heads, i as usize, 0))
}

// Whether no terminal of a network is at its source.
fn all_away(net: Network) -> bool
    ensures { result ≡ all (away_from_source net) 0 net.terminals }
{
    (0..net.terminals).all(|j| lists::at_or(&net.homes, j as usize, 0) != net.source)
}

// Adds x to the sum at k, and nothing past the end.
fn add_at(sums: &mut [u64], k: usize, x: u64)
    requires { get_or sums.old k 0 + x < 18446744073709551616 }
    ensures { sums.new ≡ set sums.old k (get_or sums.old k 0 + x) }
{
    if k < sums.len() {
        sums[k] += x;
    }
}

// Adds each value to the sum of its key.
fn add_keyed<'a>(keys: &'a [u32], values: &'a [u32], sums: &mut [u64])
    requires keys_len { (length keys.now ≡ length values.now) × (length keys.now ≤ 65536) }
    requires by_index { (v : ℕ) → get_or sums.old v 0 ≤ 4294967296 * 65536 }
    ensures by_index_2 { (v : ℕ) → v < length sums.old → get_or sums.new v 0 ≡
        get_or sums.old v 0 + sum_at keys.now values.now v }
    ensures by_index_3 { (v : ℕ) → get_or sums.new v 0 ≤ get_or sums.old v 0 + 4294967296 * 65536 }
{
    for (k, x) in keys.iter().zip(values) {
        add_at(sums, *k as usize, u64::from(*x));
    }
}

// Whether each vertex but the source balances, by the sums of all vertices at once.
fn all_balanced(net: Network) -> bool
    requires { net.vertices ≤ max_vertices }
    ensures { result ≡ all (balanced net) 0 net.vertices }
{
    let mut inflow = [0u64; Board::MAX_VERTICES];
    let mut outflow = [0u64; Board::MAX_VERTICES];
    add_keyed(&net.heads, &net.flows, &mut inflow);
    add_keyed(&net.tails, &net.flows, &mut outflow);
    add_keyed(&net.homes, &net.demands, &mut outflow);
    (0..net.vertices).all(|v| {
        let even = lists::at_or(&inflow, v as usize, 0) == lists::at_or(&outflow, v as usize, 0);
        lists::or(v == net.source, even)
    })
}

// The first of the three rules that is broken, each over the whole network. The counts are tested before.
#[tactic(auto, unfolding(text_rules::specs::Rules::judged, lists::specs::Choice::pick))]
pub fn judged(net: Network) -> Result<(), Refusal>
    requires { counts_fit net ≡ true }
    ensures { answer_of result ≡ judged net }
{
    if !all_differ(net) {
        return Err(Refusal::EdgeIsLoop);
    }
    if !all_away(net) {
        return Err(Refusal::TerminalAtSource);
    }
    if !all_balanced(net) {
        return Err(Refusal::Unbalanced);
    }
    Ok(())
}

// Whether the counts and the source are in their ranges.
#[tactic(auto, unfolding(lists::specs::Choice::both))]
pub fn counts_fit_in(vertices: u32, edges: u32, terminals: u32, source: u32) -> bool
    ensures { result ≡ counts_fit_in vertices edges terminals source }
{
    let vertices_fit = (2..=Board::MAX_VERTICES as u32).contains(&vertices);
    let edges_fit = (1..=Board::MAX_EDGES as u32).contains(&edges);
    let terminals_fit = (1..=Board::MAX_TERMINALS as u32).contains(&terminals);
    let source_fits = source < vertices;
    vertices_fit && edges_fit && terminals_fit && source_fits
}

// The same of a network.
pub fn counts_fit(net: Network) -> bool
    ensures { result ≡ counts_fit net }
{
    counts_fit_in(net.vertices, net.edges, net.terminals, net.source)
}

// Whether a network is one that an accepted text gives.
pub fn lawful(net: Network) -> bool
    ensures { result ≡ lawful net }
{
    if !counts_fit(net) {
        return false;
    }
    let edges = (0..Board::MAX_EDGES as u32).all(|i| text_rules::edge_fits(net, i));
    let terminals = (0..Board::MAX_TERMINALS as u32).all(|j| text_rules::terminal_fits(net, j));
    lists::and(edges, lists::and(terminals, judged(net).is_ok()))
}
