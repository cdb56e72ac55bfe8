// Texts, each with its length in two bytes before it, the high byte first. For each it prints what reading the text
// answers, and after a 0 the text written back from what was read.
use super::framing;
use board::{Board, Network};
use play_session::Session;
use std::io::{Stdin, Stdout};

// The text of the network, or on a line the number that writing it is refused with.
fn print_text(network: Network, output: &mut Stdout) -> bool {
    let mut board = Board::closed();
    board.stage = Board::PLAY;
    board.network = network;
    let mut space = [0u8; Session::TEXT];
    match text_writer::write(board, &mut space) {
        Ok(used) => descriptors::print_part(&space, used, output),
        Err(refusal) => framing::print_line(u32::from(refusal), output),
    }
}

// What reading the text answers, and after a 0 the text of what was read.
fn answer(text: &[u8], output: &mut Stdout) -> bool {
    match text_reader::read(text) {
        Ok(network) => framing::print_line(0, output) && print_text(network, output),
        Err(refusal) => framing::print_line(u32::from(refusal), output),
    }
}

// One text: answers whether there was one, and it was read and answered whole.
fn next_text(space: &mut [u8], input: &mut Stdin, output: &mut Stdout) -> bool {
    let mut before = [0u8; 2];
    let got = streams::read_full(input, &mut before);
    if got < 2 {
        return false;
    }
    let n = usize::from(u16::from_be_bytes(before));
    if space.len() < n {
        return false;
    }
    let came = streams::read_full(input, &mut space[..n]);
    if came < n {
        return false;
    }
    answer(&space[..n], output)
}

// Answers so many texts; whether all of them were there and answered whole.
pub fn all_texts(count: u32, input: &mut Stdin, output: &mut Stdout) -> bool {
    let mut space = [0u8; 65536];
    for _ in 0..count {
        if !next_text(&mut space, input, output) {
            return false;
        }
    }
    true
}
