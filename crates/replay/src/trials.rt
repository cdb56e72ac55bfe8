// Trials: a board text, the steps of the turns and a list of calls, each with its length in two bytes before it, the
// high byte first. For each it plays the calls, finishes the board, and prints the answers and the moves of the
// finished board.
ghost use Rattle.std.specs.Prelude.{◌≤◌, length, IfSome};

use super::framing;
use board::Board;
use journal::WORDS;
use play_session::Session;
use playthrough::Outcome;
use solve_finish::Finished;
use std::io::{Stdin, Stdout};

// The length that the next two bytes give; none where the input ends before.
fn read_length(input: &mut Stdin) -> Option<usize> {
    let mut before = [0u8; 2];
    let got = streams::read_full(input, &mut before);
    if got < 2 {
        return None;
    }
    Some(usize::from(u16::from_be_bytes(before)))
}

// Reads a length and so many bytes, into the front of the space, and answers the length; none where the part is cut
// short or has no room.
fn read_part(space: &mut [u8], input: &mut Stdin) -> Option<usize>
    ensures { IfSome result (λ n. n ≤ length space.new) }
{
    let n = read_length(input)?;
    if space.len() < n {
        return None;
    }
    let came = streams::read_full(input, &mut space[..n]);
    if came < n {
        return None;
    }
    Some(n)
}

// Reads the nine bytes of a call as its three numbers; none where the input ends before.
fn read_call(input: &mut Stdin) -> Option<[u32; 3]> {
    let mut bytes = [0u8; 9];
    let got = streams::read_full(input, &mut bytes);
    if got < 9 {
        return None;
    }
    let kind = u32::from(bytes[0]);
    let first = u32::from_be_bytes([bytes[1], bytes[2], bytes[3], bytes[4]]);
    let second = u32::from_be_bytes([bytes[5], bytes[6], bytes[7], bytes[8]]);
    Some([kind, first, second])
}

// Fills the codes with calls; answers whether the input had them all.
fn fill_codes(codes: &mut [u32], input: &mut Stdin) -> bool {
    let (whole, _) = codes.as_chunks_mut::<3>();
    for code in whole.iter_mut() {
        let Some(call) = read_call(input) else {
            return false;
        };
        *code = call;
    }
    true
}

// Reads a count and so many calls, into the front of the codes, and answers how many numbers they are, three a call;
// none where the input is cut short or the calls have no room.
fn read_codes(codes: &mut [u32], input: &mut Stdin) -> Option<usize>
    ensures { IfSome result (λ n. n ≤ length codes.new) }
{
    let count = read_length(input)?;
    if codes.len() / 3 < count {
        return None;
    }
    let size = count * 3;
    let all_came = fill_codes(&mut codes[..size], input);
    if !all_came {
        return None;
    }
    Some(size)
}

// A number, and the mark behind it.
fn print_number(n: u64, mark: &[u8], output: &mut Stdout) -> bool {
    let is_printed = streams::print_decimal(output, n);
    if !is_printed {
        return false;
    }
    streams::write_all(output, mark)
}

// Numbers, each alone on a line.
fn print_numbers(numbers: &[u32], output: &mut Stdout) -> bool {
    for n in numbers {
        if !framing::print_line(*n, output) {
            return false;
        }
    }
    true
}

// The five numbers of a move on a line, parted by commas.
fn print_move(w: [u64; WORDS], output: &mut Stdout) -> bool {
    let first = print_number(w[0], b",", output);
    let second = print_number(w[1], b",", output);
    let third = print_number(w[2], b",", output);
    let fourth = print_number(w[3], b",", output);
    let fifth = print_number(w[4], b"\n", output);
    first && second && third && fourth && fifth
}

// The first so many moves of the journal, a line for each.
fn print_journal(
    journal: &[[u64; WORDS]; Board::JOURNAL],
    moves: u32,
    output: &mut Stdout,
) -> bool {
    if Board::JOURNAL < moves as usize {
        return false;
    }
    for words in &journal[..moves as usize] {
        if !print_move(*words, output) {
            return false;
        }
    }
    true
}

// What the finish gave: its answer, the count of its moves, and the moves that stand on its board, after their count.
fn print_finish(
    outcome: Outcome,
    journal: &[[u64; WORDS]; Board::JOURNAL],
    output: &mut Stdout,
) -> bool {
    let last = match outcome.finish {
        Ok(finished) => finished,
        Err(_) => Finished {
            count: 0,
            board: outcome.board,
        },
    };
    let moves = last.board.moves;
    let answer_printed = framing::print_line(framing::number(outcome.finish), output);
    let count_printed = framing::print_line(last.count, output);
    let moves_printed = framing::print_line(moves, output);
    if !(answer_printed && count_printed && moves_printed) {
        return false;
    }
    print_journal(journal, moves, output)
}

// Plays one trial and prints what it gave.
fn run_trial(text: &[u8], codes: &[u32], steps: &[u8], output: &mut Stdout) -> bool {
    let mut journal = [[0u64; WORDS]; Board::JOURNAL];
    let mut given = [0u32; 200];
    let mut hints = [0u32; 8];
    let outcome = playthrough::play_through(
        text,
        codes,
        steps,
        &mut given,
        &mut hints,
        &mut journal,
    );
    let count = codes.len() / 3;
    if given.len() < count {
        return false;
    }
    let loading_printed = framing::print_line(framing::number(outcome.loading), output);
    let answers_printed = print_numbers(&given[..count], output);
    if !(loading_printed && answers_printed) {
        return false;
    }
    print_finish(outcome, &journal, output)
}

// One trial: answers whether there was one, and it was read and printed whole.
fn next_trial(input: &mut Stdin, output: &mut Stdout) -> bool {
    let mut text = [0u8; Session::TEXT];
    let Some(n) = read_part(&mut text, input) else {
        return false;
    };
    let mut steps = [0u8; 4000];
    let Some(m) = read_part(&mut steps, input) else {
        return false;
    };
    let mut codes = [0u32; 600];
    let Some(size) = read_codes(&mut codes, input) else {
        return false;
    };
    run_trial(&text[..n], &codes[..size], &steps[..m], output)
}

// Plays so many trials; whether all of them were there and printed whole.
pub fn all_trials(count: u32, input: &mut Stdin, output: &mut Stdout) -> bool {
    for _ in 0..count {
        if !next_trial(input, output) {
            return false;
        }
    }
    true
}
