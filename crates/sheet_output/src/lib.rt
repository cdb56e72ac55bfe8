// What the programs read and print, over slices.
#![tactic(auto)]

ghost use Rattle.std.specs.Prelude.{◌≡◌, ◌+◌, ◌≤◌, length};
ghost use Rattle.std.proofs.lemmas.List.Edits.{sets};
ghost use Rattle.journal.specs.Words.{whole_of, packed_all};
ghost use Rattle.text.specs.Sizes.{number_bytes, report_bytes};
ghost use Rattle.text.specs.Room.{start_most};
ghost use Rattle.load.specs.Load.{load_text};
ghost use Rattle.solve_finish.specs.Finishes.{finish_call};
ghost use Rattle.sheet_output.specs.Outputs.{number_line, report_of, prints, sheet_output};
ghost use Rattle.sheet_output.specs.Inputs.{lines_wanted};

use board::Board;
use journal::WORDS;
use refusals::Refusal;

// Writes a number and a line feed at a place of the buffer, and answers the place behind them. A byte past the end of
// the buffer is dropped.
pub fn put_number(buf: &mut [u8], at: usize, n: u32) -> usize
    requires { at ≤ start_most }
    ensures value { result ≡ at + length (number_line n) }
    ensures upper_bound { result ≤ at + number_bytes }
    ensures buf_after { buf.new ≡ sets buf.old at (number_line n) }
{
    let end = decimal::write_number(buf, at, n);
    lists::put(buf, end, b'\n');
    end + 1
}

// Writes the report of a board in the same way, or the number that it is refused with.
pub fn put_report(
    buf: &mut [u8],
    at: usize,
    board: Board,
    journal: &[[u64; WORDS]; Board::JOURNAL],
) -> usize
    requires { at ≤ start_most }
    ensures value { result ≡ at + length (report_of (whole_of board journal.now)) }
    ensures upper_bound { result ≤ at + report_bytes }
    ensures buf_after { buf.new ≡ sets buf.old at (report_of (whole_of board journal.now)) }
{
    match report::put_sheet(buf, at, false, board, journal) {
        Ok(used) => at + used,
        Err(refusal) => put_number(buf, at, u32::from(refusal)),
    }
}

// Loads the board of an input and finishes it.
fn finished(input: &[u8], journal: &mut [[u64; WORDS]; Board::JOURNAL]) -> Result<Board, Refusal>
    ensures value { prints result journal.new ≡ sheet_output input.now }
    ensures journal_after { journal.new ≡
        packed_all (finish_call (load_text input.now).board).board.journal }
{
    let board = load::load(input, journal)?;
    let end = solve_finish::finish(board, journal)?;
    Ok(end.board)
}

// Writes what the program `sheet` prints for an input, and answers how many bytes.
pub fn sheet_output(
    input: &[u8],
    journal: &mut [[u64; WORDS]; Board::JOURNAL],
    out: &mut [u8],
) -> usize
    ensures value { result ≡ length (sheet_output input.now) }
    ensures upper_bound { result ≤ report_bytes }
    ensures out_after { out.new ≡ sets out.old 0 (sheet_output input.now) }
    ensures journal_after { journal.new ≡
        packed_all (finish_call (load_text input.now).board).board.journal }
{
    match finished(input, journal) {
        Ok(board) => put_report(out, 0, board, journal),
        Err(refusal) => put_number(out, 0, u32::from(refusal)),
    }
}

// How many lines the board has whose text starts with this.
pub fn lines_wanted(text: &[u8]) -> u32
    ensures { result ≡ lines_wanted text.now }
{
    match text_reader::header(text) {
        Ok(head) => {
            let net = head.value;
            1 + net.edges + net.terminals
        }
        Err(_) => 1,
    }
}
