// Boards that no load gave, with counts past every limit: in play, finished, and of a stage that there is not. On each
// it makes every call, as often again as the count says, and prints the number of the refusal once.
use super::framing;
use board::{Board, Network};
use journal::WORDS;
use play_session::Session;
use std::io::Stdout;

// A call that is made on each board.
#[derive(Clone, Copy)]
enum Call {
    Carry,
    EmptyTurn,
    Turn,
    Undo,
    Hint,
    Finish,
    Sheet,
    Write,
}

// The calls, in the order of the lines.
const CALLS: [Call; 8] = [
    Call::Carry,
    Call::EmptyTurn,
    Call::Turn,
    Call::Undo,
    Call::Hint,
    Call::Finish,
    Call::Sheet,
    Call::Write,
];

// The first stage that no board has.
const NO_STAGE: u32 = 3;

// The last of the boards.
const LAST_BOARD: u32 = 3;

// The greatest number, or none.
fn greatest(is_great: bool) -> u32 {
    if is_great { u32::MAX } else { 0 }
}

// All counts are the greatest number, and the lists zeros (0); or the count of the vertices alone is (1), that of the
// terminals (2), those of the edges and the terminals (3). Source and places hold the board's number, so that no
// terminal is found at the source or at an edge.
fn past_limits(stage: u32, number: u32) -> Board {
    let mut network = Network::empty();
    network.vertices = greatest(number <= 1);
    network.edges = greatest(lists::or(number == 0, number == 3));
    network.terminals = greatest(number != 1);
    network.source = number;
    let places = [number; Board::MAX_TERMINALS];
    let mut board = Board::closed();
    board.stage = stage;
    board.network = network;
    board.places = places;
    board.moves = greatest(number == 0);
    board
}

// What a call answers: a carry of terminal 0 over edge 0, a turn along no steps or down edge 0, and with room for
// either text the sheet and the board writer.
fn answer(call: Call, board: Board, journal: &mut [[u64; WORDS]; Board::JOURNAL]) -> u32 {
    match call {
        Call::Carry => framing::number(move_carry::carry(board, journal, 0, 0)),
        Call::EmptyTurn => framing::number(move_turn::turn(board, journal, b"")),
        Call::Turn => framing::number(move_turn::turn(board, journal, b"\0")),
        Call::Undo => framing::number(move_undo::undo(board, journal)),
        Call::Hint => framing::number(solve_next::hint(board, journal)),
        Call::Finish => framing::number(solve_finish::finish(board, journal)),
        Call::Sheet => {
            let mut space = [0u8; Session::OUTPUT];
            framing::number(report::sheet(board, journal, &mut space))
        }
        Call::Write => {
            let mut space = [0u8; Session::OUTPUT];
            framing::number(text_writer::write(board, &mut space))
        }
    }
}

// What a call answers; 0 where it answers something else at one of so many times more.
fn repeated(
    call: Call,
    board: Board,
    journal: &mut [[u64; WORDS]; Board::JOURNAL],
    count: u32,
) -> u32 {
    let first = answer(call, board, journal);
    for _ in 0..count {
        if answer(call, board, journal) != first {
            return 0;
        }
    }
    first
}

// Every call on a board with an empty journal; whether all of the numbers were printed.
fn all_calls(board: Board, count: u32, output: &mut Stdout) -> bool {
    let mut journal = [[0u64; WORDS]; Board::JOURNAL];
    for call in &CALLS {
        if !framing::print_line(repeated(*call, board, &mut journal, count), output) {
            return false;
        }
    }
    true
}

// The boards of a stage; whether all of the numbers were printed.
fn all_numbers(stage: u32, count: u32, output: &mut Stdout) -> bool {
    for number in 0..=LAST_BOARD {
        if !all_calls(past_limits(stage, number), count, output) {
            return false;
        }
    }
    true
}

// The boards of all stages; whether all of the numbers were printed.
pub fn all_stages(count: u32, output: &mut Stdout) -> bool {
    for stage in Board::PLAY..=NO_STAGE {
        if !all_numbers(stage, count, output) {
            return false;
        }
    }
    true
}
