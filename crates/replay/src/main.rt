// The test program. Reads parts from standard input: a letter, a count in four bytes, the highest first, and so many
// pieces of that kind, which it answers: texts (T), lists of calls (L), inputs of the programs (P), boards of the
// catalog (C). A part of boards that no load gave (U) has no pieces: its count says how often each call is made again.
#![tactic(auto)]

mod corpus;
mod framing;
mod listing;
mod scripts;
mod trials;
mod unloaded;

use std::io::{Stdin, Stdout};

// Answers the pieces of one part.
fn answer(letter: u8, count: u32, input: &mut Stdin, output: &mut Stdout) -> bool {
    if letter == b'T' {
        corpus::all_texts(count, input, output)
    } else if letter == b'L' {
        trials::all_trials(count, input, output)
    } else if letter == b'P' {
        scripts::all_scripts(count, input, output)
    } else if letter == b'C' {
        listing::all_boards(count, output)
    } else if letter == b'U' {
        unloaded::all_stages(count, output)
    } else {
        false
    }
}

// One part: answers whether there was one, and it was read and answered whole.
fn next_part(input: &mut Stdin, output: &mut Stdout) -> bool {
    let mut before = [0u8; 5];
    let got = streams::read_full(input, &mut before);
    if got < 5 {
        return false;
    }
    let count = u32::from_be_bytes([before[1], before[2], before[3], before[4]]);
    answer(before[0], count, input, output)
}

// A proved loop has to end, and nothing says that the input does. So the loop counts its rounds, up to a number that no
// run reaches.
fn main(rt: HostRuntime) {
    let mut input = rt.stdin();
    let mut output = rt.stdout();
    for _ in 0..u64::MAX {
        if !next_part(&mut input, &mut output) {
            return;
        }
    }
}
