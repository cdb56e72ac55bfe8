// Reading the lines of a board text: one field, one line, then the edge lines and the terminal lines.
#![tactic(auto)]

ghost use Rattle.std.specs.Prelude.{◌≡◌, ◌≤◌, ◌<◌, length, drop, IfOk};
ghost use Rattle.text.specs.Text.{field, line, edge_ranges, terminal_ranges, edge_lines, terminal_lines};
ghost use Rattle.text.specs.Views.{as_read};
ghost use Rattle.board.specs.Limits.{max_edges, max_terminals};

use board::{Board, Network};
use refusals::Refusal;
use text::{Range, Taken};

// ---- A field and a line: their parts of the slice.

// A number field at the start of s, and the byte that must end it.
fn field(s: &[u8], range: Range, end: u8) -> Result<Taken<u32>, Refusal>
    ensures s_value { as_read result s.now ≡ field range end s.now }
    ensures used_in_bounds { IfOk result (λ t. t.used ≤ length s.now) }
{
    let n = lists::index_of(s, end);
    if s.len() <= n {
        return Err(Refusal::Malformed);
    }
    let value = decimal::read_number(&s[..n]).ok_or(Refusal::Malformed)?;
    if !range.holds(value) {
        return Err(Refusal::OutOfRange);
    }
    Ok(Taken {
        value: value,
        used: n + 1,
    })
}

// A line at the start of s: its letter, then a number for each of the ranges.
#[tactic(auto, using(crate::proofs::Reading::line_comma))]
pub fn line<const N: usize>(
    s: &[u8],
    letter: u8,
    ranges: &[Range; N],
) -> Result<Taken<[u32; N]>, Refusal>
    requires { 0 < letter }
    ensures s_value { as_read result s.now ≡ line letter ranges.now s.now }
    ensures used_in_bounds { IfOk result (λ t. t.used ≤ length s.now) }
{
    if lists::at_or(s, 0, 0) != letter {
        return Err(Refusal::Malformed);
    }
    if lists::at_or(s, 1, 0) != b',' {
        return Err(Refusal::Malformed);
    }
    let mut values = [0u32; N];
    let mut at: usize = 2;
    for i in 0..N {
        let f = field(&s[at..], ranges[i], text::end_byte(N - i - 1))?;
        values[i] = f.value;
        at += f.used;
    }
    Ok(Taken {
        value: values,
        used: at,
    })
}

// ---- The edge lines and the terminal lines, read into a network.

// The ranges of `C,tail,head,flow`.
fn edge_ranges(vertices: u32) -> [Range; 3]
    requires { 0 < vertices }
    ensures { result ≡ edge_ranges vertices }
{
    let vertex = Range::below(vertices);
    let flow = Range {
        low: 0,
        high: Board::MAX_FLOW,
    };
    [vertex, vertex, flow]
}

// The edge lines, from `start` on.
pub fn edge_lines(s: &[u8], start: usize, net: Network) -> Result<Taken<Network>, Refusal>
    requires { (start ≤ length s.now) × (0 < net.vertices) × (net.edges ≤ max_edges) }
    ensures s_value { as_read result s.now ≡ edge_lines net 0 net.edges (drop start s.now) }
    ensures used_in_bounds { IfOk result (λ t. t.used ≤ length s.now) }
{
    let ranges = edge_ranges(net.vertices);
    let mut out = net;
    let mut at = start;
    for i in 0..net.edges as usize {
        let l = line(&s[at..], b'C', &ranges)?;
        let values = l.value;
        out.tails[i] = values[0];
        out.heads[i] = values[1];
        out.flows[i] = values[2];
        at += l.used;
    }
    Ok(Taken {
        value: out,
        used: at,
    })
}

// The ranges of `W,home,demand`.
fn terminal_ranges(vertices: u32) -> [Range; 2]
    requires { 0 < vertices }
    ensures { result ≡ terminal_ranges vertices }
{
    let vertex = Range::below(vertices);
    let demand = Range {
        low: 1,
        high: Board::MAX_FLOW,
    };
    [vertex, demand]
}

// The terminal lines, from `start` on.
// Its loop is not that of `edge_lines` with a closure that stores a row: such a contract is longer than the loop.
pub fn terminal_lines(s: &[u8], start: usize, net: Network) -> Result<Taken<Network>, Refusal>
    requires { (start ≤ length s.now) × (0 < net.vertices) × (net.terminals ≤ max_terminals) }
    ensures s_value { as_read result s.now ≡
        terminal_lines net 0 net.terminals (drop start s.now) }
    ensures used_in_bounds { IfOk result (λ t. t.used ≤ length s.now) }
{
    let ranges = terminal_ranges(net.vertices);
    let mut out = net;
    let mut at = start;
    for j in 0..net.terminals as usize {
        let l = line(&s[at..], b'W', &ranges)?;
        let values = l.value;
        out.homes[j] = values[0];
        out.demands[j] = values[1];
        at += l.used;
    }
    Ok(Taken {
        value: out,
        used: at,
    })
}
