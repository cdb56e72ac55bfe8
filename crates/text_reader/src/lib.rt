// The board text, read: every line and every field is a part of the slice.
#![tactic(auto)]

ghost use Rattle.std.specs.Prelude.{◌≡◌, ◌≤◌, length, IfOk};
ghost use Rattle.text.specs.Text.{head_ranges, headed, layout};
ghost use Rattle.text.specs.Views.{as_read, header_part};
ghost use Rattle.text.specs.Results.{as_reading, read_text};

use board::{Board, Network};
use refusals::Refusal;
use text::{Range, Taken};

// The ranges of `B,vertices,edges,terminals,source`.
fn head_ranges() -> [Range; 4]
    ensures { result ≡ head_ranges }
{
    [
        Range {
            low: 2,
            high: Board::MAX_VERTICES as u32,
        },
        Range {
            low: 1,
            high: Board::MAX_EDGES as u32,
        },
        Range {
            low: 1,
            high: Board::MAX_TERMINALS as u32,
        },
        Range {
            low: 0,
            high: Board::MAX_VERTICES as u32 - 1,
        },
    ]
}

// The network of a first line.
fn headed(values: [u32; 4]) -> Network
    ensures { result ≡ headed values }
{
    Network {
        vertices: values[0],
        edges: values[1],
        terminals: values[2],
        source: values[3],
        ..Network::empty()
    }
}

// The first line, at the start of s.
pub fn header(s: &[u8]) -> Result<Taken<Network>, Refusal>
    ensures s_value { as_read result s.now ≡ header_part s.now }
    ensures used_in_bounds { IfOk result (λ t. t.used ≤ length s.now) }
{
    let ranges = head_ranges();
    let l = text_lines::line(s, b'B', &ranges)?;
    let values = l.value;
    let vertices = values[0];
    let source = values[3];
    if vertices <= source {
        return Err(Refusal::OutOfRange);
    }
    Ok(Taken {
        value: headed(values),
        used: l.used,
    })
}

// The whole text, and nothing behind it.
fn layout(s: &[u8]) -> Result<Taken<Network>, Refusal>
    ensures { as_read result s.now ≡ layout s.now }
{
    let h = header(s)?;
    let e = text_lines::edge_lines(s, h.used, h.value)?;
    let t = text_lines::terminal_lines(s, e.used, e.value)?;
    if t.used < s.len() {
        return Err(Refusal::Malformed);
    }
    Ok(t)
}

// Reads a board text: its network, or the first of the five rules of a text that it breaks.
pub fn read(s: &[u8]) -> Result<Network, Refusal>
    ensures { as_reading result ≡ read_text s.now }
{
    let network = layout(s)?.value;
    text_judge::judged(network)?;
    Ok(network)
}
