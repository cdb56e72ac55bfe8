// Reads a board on standard input and then lines, and prints what each is answered with.
#![tactic(auto)]

ghost use Rattle.play_session.specs.Lent.{session_of};
ghost use Rattle.descriptors.specs.Inner.{BehindPieces};

use board::Board;
use descriptors::Served;
use journal::WORDS;
use play_session::Session;
use std::io::{Stdin, Stdout};

// Reads a piece of the input, as much as there is, and serves it. At the end of the input the session goes on no more.
fn next_piece(
    session: Session,
    journal: &mut [[u64; WORDS]; Board::JOURNAL],
    input: &mut Stdin,
    output: &mut Stdout,
) -> Served
    ensures { BehindPieces (session_of session journal.old)
        (session_of result.session journal.new) }
{
    let mut space = [0u8; 4096];
    let got = streams::read_some(input, &mut space);
    if got == 0 {
        return Served {
            session,
            going: false,
        };
    }
    descriptors::serve(session, journal, &space[..got], output)
}

// A proved loop has to end, and nothing says that the input does. So the loop has as many rounds as no run uses up.
fn all_pieces(
    session: Session,
    journal: &mut [[u64; WORDS]; Board::JOURNAL],
    input: &mut Stdin,
    output: &mut Stdout,
) -> Session
    ensures { BehindPieces (session_of session journal.old) (session_of result journal.new) }
{
    let mut current = session;
    for _ in 0..u64::MAX {
        let served = next_piece(current, journal, input, output);
        current = served.session;
        if !served.going {
            break;
        }
    }
    current
}

fn main(rt: HostRuntime) {
    let mut input = rt.stdin();
    let mut output = rt.stdout();
    let mut journal = [[0u64; WORDS]; Board::JOURNAL];
    let session = Session::start();
    let last = all_pieces(session, &mut journal, &mut input, &mut output);
    let mut out = [0u8; Session::OUTPUT];
    descriptors::close(last, &mut journal, &mut out, &mut output);
}
