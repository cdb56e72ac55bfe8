// The catalog: forty boards, and the call that writes the text of one of them.
#![tactic(auto)]

mod table;

ghost use Rattle.std.specs.Prelude.{◌≡◌, ◌+◌, ◌*◌, ◌≤◌, length, drop};
ghost use Rattle.std.proofs.lemmas.List.Edits.{sets};
ghost use Rattle.text.specs.Sizes.{line_bytes};
ghost use Rattle.text.specs.Room.{line_start_most};
ghost use Rattle.text.specs.Text.{lines_text};
ghost use Rattle.text.specs.Results.{as_written};
ghost use Rattle.catalog.specs.Catalog.{span, boards_from, table_row, board_text, catalog_call, catalogued};

use refusals::Refusal;
use table::TABLE;

// How many boards there are.
const BOARDS: u32 = 40;

// How many numbers the first board of a list has.
fn span(t: &[u32]) -> usize
    ensures { result ≡ span t.now }
{
    let edges = lists::at_or(t, 1, 0) as usize;
    let terminals = lists::at_or(t, 2, 0) as usize;
    4 + (3 * edges + 2 * terminals)
}

// Where board k begins, at the end of the list where there is none.
fn start(t: &[u32], k: u32) -> usize
    requires { length t.now ≤ 65536 }
    ensures upper_bound { result ≤ length t.now }
    ensures t_value { drop result t.now ≡ boards_from k t.now }
{
    let mut at: usize = 0;
    for _ in 0..k {
        at = t.len().min(at + span(&t[at..]));
    }
    at
}

// Writes lines of so many numbers each, the rows of a list.
fn put_rows(buf: &mut [u8], at: usize, letter: u8, t: &[u32], width: usize, count: usize) -> usize
    requires { (width ≤ 4) × ((width * count ≤ length t.now) × (at + line_bytes 4 * count ≤ line_start_most)) }
    ensures value { result ≡ at + length (lines_text letter (table_row width t.now) 0 count) }
    ensures upper_bound { result ≤ at + line_bytes 4 * count }
    ensures buf_after { buf.new ≡
        sets buf.old at (lines_text letter (table_row width t.now) 0 count) }
{
    let row = move |i: usize|
        requires { width * i + width ≤ length t.now }
        ensures { result.now ≡ table_row width t.entry.now i }
    { &t[width * i..width * i + width] };
    text_writer::put_rows(buf, at, letter, count, row)
}

// Writes the text of the first board of a list, and answers its length.
fn put_board(buf: &mut [u8], t: &[u32]) -> usize
    requires { (span t.now ≤ length t.now) × (length t.now ≤ 4096) }
    ensures value { result ≡ length (board_text t.now) }
    ensures buf_after { buf.new ≡ sets buf.old 0 (board_text t.now) }
{
    let edges = lists::at_or(t, 1, 0) as usize;
    let terminals = lists::at_or(t, 2, 0) as usize;
    let head = text_writer::put_line(buf, 0, b'B', &t[..4]);
    let to = put_rows(buf, head, b'C', &t[4..], 3, edges);
    put_rows(buf, to, b'W', &t[4 + 3 * edges..], 2, terminals)
}

// Writes the text of a board of the catalog: 2 where there is no board of that number, then 8 where the buffer is too
// short for the text.
pub fn write(number: u32, buf: &mut [u8]) -> Result<usize, Refusal>
    ensures value { as_written result ≡ catalog_call number (length buf.old) }
    ensures buf_after { buf.new ≡ catalogued number buf.old }
{
    if BOARDS <= number {
        return Err(Refusal::OutOfRange);
    }
    let table = TABLE;
    let from = start(&table, number);
    let mut none = [0u8; 1];
    let length = put_board(&mut none, &table[from..]);
    if buf.len() < length {
        return Err(Refusal::ShortBuffer);
    }
    Ok(put_board(buf, &table[from..]))
}
