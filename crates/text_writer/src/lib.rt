// Writing a board text: a network's lines into a buffer, and the call `write`.
#![tactic(auto)]

ghost use Rattle.std.specs.Prelude.{◌≡◌, List, ℕ, ◌+◌, ◌*◌, ◌≤◌, ◌<◌, length};
ghost use Rattle.std.proofs.lemmas.List.Edits.{sets};
ghost use Rattle.board.specs.Limits.{max_edges, max_terminals};
ghost use Rattle.text.specs.Text.{line_text, lines_text, edge_row, terminal_row, text_of};
ghost use Rattle.text.specs.Sizes.{line_bytes, line_numbers};
ghost use Rattle.text.specs.Room.{line_start_most};
ghost use Rattle.text_writer.specs.Rows.{Rows};
ghost use Rattle.text.specs.Results.{writable, as_written, write_text_in, written_in};

use board::{Board, Network};
use refusals::Refusal;
use std::convert::AsSlice;

// ---- The text of a network, written into a buffer. A byte past the end of the buffer is dropped, so writing into a
// short buffer measures the text.

// Writes a line, as `C,0,1,3` and a line feed, at a place of the buffer, and answers the place behind it.
pub fn put_line(buf: &mut [u8], at: usize, letter: u8, values: &[u32]) -> usize
    requires { (at ≤ line_start_most) × (length values.now ≤ line_numbers) }
    ensures value { result ≡ at + length (line_text letter values.now) }
    ensures upper_bound { result ≤ at + line_bytes (length values.now) }
    ensures buf_after { buf.new ≡ sets buf.old at (line_text letter values.now) }
{
    lists::put(buf, at, letter);
    lists::put(buf, at + 1, b',');
    let mut to = at + 2;
    for (i, value) in values.iter().enumerate() {
        let end = decimal::write_number(buf, to, *value);
        lists::put(buf, end, text::end_byte(values.len() - i - 1));
        to = end + 1;
    }
    to
}

// Writes a line for each place below count, its row.
pub fn put_rows<R: AsSlice<u32> + Copy, F: Fn(usize) -> R>(
    buf: &mut [u8],
    at: usize,
    letter: u8,
    count: usize,
    row: F,
) -> usize
    ghost rows: { Rows }
    requires width { rows.width ≤ line_numbers }
    requires room { at + line_bytes rows.width * count ≤ line_start_most }
    requires callable { (i : ℕ) → i < count → F.pre row i }
    requires rows_given { (i : ℕ) (given : _) → i < count → F.post row i given
        → (R.items given ≡ rows.row i) × (length (rows.row i) ≤ rows.width) }
    ensures value { result ≡ at + length (lines_text letter rows.row 0 count) }
    ensures upper_bound { result ≤ at + line_bytes rows.width * count }
    ensures buf_after { buf.new ≡ sets buf.old at (lines_text letter rows.row 0 count) }
{
    let mut to = at;
    for i in 0..count {
        to = put_line(buf, to, letter, row(i).as_slice());
    }
    to
}

// The three numbers of an edge. It and `terminal_row` stay two: other lists and another length, so one is no plainer.
fn edge_row(net: Network, i: usize) -> [u32; 3]
    ensures { result ≡ edge_row net i }
{
    [
        lists::at_or(&net.tails, i, 0),
        lists::at_or(&net.heads, i, 0),
        lists::at_or(&net.flows, i, 0),
    ]
}

// The two numbers of a terminal.
fn terminal_row(net: Network, j: usize) -> [u32; 2]
    ensures { result ≡ terminal_row net j }
{
    [
        lists::at_or(&net.homes, j, 0),
        lists::at_or(&net.demands, j, 0),
    ]
}

// Writes the text of a network from the start of the buffer on, and answers its length.
fn put_text(buf: &mut [u8], net: Network) -> usize
    requires { (net.edges ≤ max_edges) × (net.terminals ≤ max_terminals) }
    ensures value { result ≡ length (text_of net) }
    ensures buf_after { buf.new ≡ sets buf.old 0 (text_of net) }
{
    let edge = |i: usize|
        ensures { result ≡ edge_row net i }
    { edge_row(net, i) };
    let terminal = |j: usize|
        ensures { result ≡ terminal_row net j }
    { terminal_row(net, j) };
    let row = [net.vertices, net.edges, net.terminals, net.source];
    let head = put_line(buf, 0, b'B', &row);
    let edges = put_rows(buf, head, b'C', net.edges as usize, edge);
    put_rows(buf, edges, b'W', net.terminals as usize, terminal)
}

// ---- The call `write`.

// Whether a board of this stage and network is in play or finished, over a lawful network.
#[tactic(auto, unfolding(text::specs::Results::writable, lists::specs::Choice::both))]
fn writable(stage: u32, net: Network) -> bool
    ensures { result ≡ writable stage net }
{
    Board::staged(stage) && text_judge::lawful(net)
}

// Writes the text that was loaded: 29 where no board was loaded, then 8 where the buffer is too short for the text.
pub fn write(board: Board, buf: &mut [u8]) -> Result<usize, Refusal>
    ensures value { as_written result ≡ write_text_in board.stage board.network (length buf.old) }
    ensures buf_after { buf.new ≡ written_in board.stage board.network buf.old }
{
    let net = board.network;
    if !writable(board.stage, net) {
        return Err(Refusal::NotLoaded);
    }
    let mut none = [0u8; 1];
    let length = put_text(&mut none, net);
    if buf.len() < length {
        return Err(Refusal::ShortBuffer);
    }
    Ok(put_text(buf, net))
}
