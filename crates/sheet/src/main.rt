// Reads a board on standard input, finishes it and prints its route report, or the number that it is refused with.
#![tactic(auto)]

use board::Board;
use journal::WORDS;
use play_session::Session;

fn main(rt: HostRuntime) {
    // No input past this is read: its first bytes decide.
    let mut space = [0u8; Session::TEXT];
    let got = streams::read_full(&mut rt.stdin(), &mut space);
    let mut journal = [[0u64; WORDS]; Board::JOURNAL];
    let mut out = [0u8; Session::OUTPUT];
    descriptors::print_sheet(&space[..got], &mut journal, &mut out, &mut rt.stdout());
}
