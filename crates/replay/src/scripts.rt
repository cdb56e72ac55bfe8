// Scripts: a letter, the size of pieces, a length in four bytes, the high byte first, and so many bytes. With the bytes
// it does what `sheet` (S) does, what `play` (P) does, fed in pieces of that size, or what a caller of the library (C)
// does; then it prints a line with a dash.
ghost use Rattle.std.specs.Prelude.{◌≤◌, length};

use super::framing;
use board::Board;
use journal::WORDS;
use play_session::Session;
use std::io::{Stdin, Stdout};

// Reads the next bytes: as many as a piece has, no more than are left and no more than there is room for. Answers how
// many, 0 where the input ends before.
fn read_piece(space: &mut [u8], piece: u8, left: u32, input: &mut Stdin) -> usize
    ensures upper_bound { result ≤ left }
    ensures upper_bound_2 { result ≤ length space.new }
{
    let n = u32::from(piece).min(left) as usize;
    if space.len() < n {
        return 0;
    }
    let came = streams::read_full(input, &mut space[..n]);
    if came < n {
        return 0;
    }
    n
}

// A session behind a piece, and how many bytes the piece had.
#[derive(Clone, Copy)]
struct Stepped {
    session: Session,
    taken: u32,
}

// Reads a piece and serves it.
fn serve_piece(
    session: Session,
    journal: &mut [[u64; WORDS]; Board::JOURNAL],
    piece: u8,
    left: u32,
    input: &mut Stdin,
    output: &mut Stdout,
) -> Stepped
    ensures { result.taken ≤ left }
{
    let mut space = [0u8; 255];
    let n = read_piece(&mut space, piece, left, input);
    let served = descriptors::serve(session, journal, &space[..n], output);
    let next = served.session;
    Stepped {
        session: next,
        taken: n as u32,
    }
}

// Plays a script of so many bytes.
fn play_script(piece: u8, length: u32, input: &mut Stdin, output: &mut Stdout) -> bool {
    let mut journal = [[0u64; WORDS]; Board::JOURNAL];
    let mut session = Session::start();
    let mut left = length;
    while 0 < left {
        let next = serve_piece(session, &mut journal, piece, left, input, output);
        let taken = next.taken;
        session = next.session;
        if taken == 0 {
            return false;
        }
        left -= taken;
    }
    let mut out = [0u8; Session::OUTPUT];
    descriptors::close(session, &mut journal, &mut out, output)
}

// Reads past so many bytes.
fn skip(length: u32, input: &mut Stdin) -> bool {
    let mut left = length;
    while 0 < left {
        let mut space = [0u8; 255];
        let n = read_piece(&mut space, 255, left, input) as u32;
        if n == 0 {
            return false;
        }
        left -= n;
    }
    true
}

// What the call `sheet` answers on a board, with this room, and its text.
fn report_into(
    board: Board,
    journal: &[[u64; WORDS]; Board::JOURNAL],
    room: &mut [u8],
    output: &mut Stdout,
) -> bool {
    let written = report::sheet(board, journal, room);
    let answer_printed = framing::print_line(framing::number(written), output);
    let printed = descriptors::print_part(room, written.unwrap_or(0), output);
    answer_printed && printed
}

// The same with so many bytes of room.
fn report(
    board: Board,
    journal: &[[u64; WORDS]; Board::JOURNAL],
    length: usize,
    output: &mut Stdout,
) -> bool {
    let mut space = [0u8; Session::OUTPUT];
    if space.len() < length {
        return false;
    }
    report_into(board, journal, &mut space[..length], output)
}

// The report before a finish; the finish; and the report with too little room and with enough.
fn call_script(text: &[u8], output: &mut Stdout) -> bool {
    let mut journal = [[0u64; WORDS]; Board::JOURNAL];
    let loaded = load::load(text, &mut journal);
    let board = loaded.unwrap_or(Board::closed());
    let loading = framing::print_line(framing::number(loaded), output);
    let before = report(board, &journal, Session::OUTPUT, output);
    let finish = solve_finish::finish(board, &mut journal);
    let finishing = framing::print_line(framing::number(finish), output);
    let last = match finish {
        Ok(finished) => finished.board,
        Err(_) => board,
    };
    let short = report(last, &journal, 10, output);
    let whole = report(last, &journal, Session::OUTPUT, output);
    loading && before && finishing && short && whole
}

// Reads so many bytes into the front of the space; answers whether the input had them and there was room.
fn fill(space: &mut [u8], n: usize, input: &mut Stdin) -> bool {
    if space.len() < n {
        return false;
    }
    let came = streams::read_full(input, &mut space[..n]);
    came == n
}

// What `sheet` (S) or a caller prints for a text.
fn answer(letter: u8, text: &[u8], output: &mut Stdout) -> bool {
    if letter == b'S' {
        let mut journal = [[0u64; WORDS]; Board::JOURNAL];
        let mut out = [0u8; Session::OUTPUT];
        descriptors::print_sheet(text, &mut journal, &mut out, output)
    } else {
        call_script(text, output)
    }
}

// A script for `sheet` or a caller: the first bytes decide, the rest is read past.
fn text_script(letter: u8, length: u32, input: &mut Stdin, output: &mut Stdout) -> bool {
    let mut space = [0u8; Session::TEXT];
    let kept = length.min(Session::TEXT as u32);
    let n = kept as usize;
    let came = fill(&mut space, n, input);
    if !came || space.len() < n {
        return false;
    }
    let printed = answer(letter, &space[..n], output);
    let skipped = skip(length - kept, input);
    printed && skipped
}

// One script: answers whether there was one, and it was read and answered whole.
fn next_script(input: &mut Stdin, output: &mut Stdout) -> bool {
    let mut before = [0u8; 6];
    let got = streams::read_full(input, &mut before);
    if got < 6 {
        return false;
    }
    let length = u32::from_be_bytes([before[2], before[3], before[4], before[5]]);
    let done = if before[0] == b'P' {
        play_script(before[1], length, input, output)
    } else {
        text_script(before[0], length, input, output)
    };
    if !done {
        return false;
    }
    streams::write_all(output, b"-\n")
}

// Does so many scripts; whether all of them were there and answered whole.
pub fn all_scripts(count: u32, input: &mut Stdin, output: &mut Stdout) -> bool {
    for _ in 0..count {
        if !next_script(input, output) {
            return false;
        }
    }
    true
}
