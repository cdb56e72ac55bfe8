// Boards of the catalog: for each a line with its number, its counts of vertices, edges and terminals and the carries
// and turns of its finish; its text; and its route report; or what a number with no board is refused with.
ghost use Rattle.std.specs.Prelude.{◌≤◌};

use super::framing;
use board::{Board, Move};
use journal::WORDS;
use play_session::Session;
use std::io::Stdout;

// How many of the first moves of a journal are carries.
fn carries(journal: &[[u64; WORDS]; Board::JOURNAL], moves: u32) -> u32
    ensures { result ≤ moves }
{
    let mut count: u32 = 0;
    for i in 0..moves.min(Board::JOURNAL as u32) {
        let entry = journal::entry_at(journal, i as usize);
        if let Move::Carry(_) = entry.step {
            count += 1;
        }
    }
    count
}

// The line of a board that was finished.
fn print_counts(
    number: u32,
    board: Board,
    journal: &[[u64; WORDS]; Board::JOURNAL],
    output: &mut Stdout,
) -> bool {
    let net = board.network;
    let carried = carries(journal, board.moves);
    let row = [
        number,
        net.vertices,
        net.edges,
        net.terminals,
        carried,
        board.moves - carried,
    ];
    let mut line = [0u8; 80];
    let used = text_writer::put_line(&mut line, 0, b'N', &row);
    descriptors::print_part(&line, used, output)
}

// The line of a board, its text and its report.
fn print_board(number: u32, text: &[u8], output: &mut Stdout) -> bool {
    let mut journal = [[0u64; WORDS]; Board::JOURNAL];
    let board = load::load(text, &mut journal).unwrap_or(Board::closed());
    let last = match solve_finish::finish(board, &mut journal) {
        Ok(finished) => finished.board,
        Err(_) => board,
    };
    let counted = print_counts(number, last, &journal, output);
    let written = descriptors::print_part(text, text.len(), output);
    let mut out = [0u8; Session::OUTPUT];
    let reported = descriptors::print_sheet(text, &mut journal, &mut out, output);
    counted && written && reported
}

// The board of a number, or what the number is refused with.
fn show(number: u32, output: &mut Stdout) -> bool {
    let mut space = [0u8; Session::TEXT];
    match catalog::write(number, &mut space) {
        Ok(used) => used <= space.len() && print_board(number, &space[..used], output),
        Err(refusal) => framing::print_line(u32::from(refusal), output),
    }
}

// Shows the boards of the numbers below the count; whether all of them were printed whole.
pub fn all_boards(count: u32, output: &mut Stdout) -> bool {
    for number in 0..count {
        if !show(number, output) {
            return false;
        }
    }
    true
}
