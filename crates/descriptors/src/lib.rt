// What the programs do with their streams: bytes are handed on, and what the library answers is printed.
#![tactic(auto)]

ghost use Rattle.std.specs.Prelude.{◌≡◌, true, ◌≤◌, eqb, length};
ghost use Rattle.std.proofs.lemmas.List.Edits.{sets};
ghost use Rattle.sheet_output.specs.Outputs.{sheet_output};
ghost use Rattle.play_session.specs.Machine.{over_stage, end_told, taken_of, fed_session, fed_told};
ghost use Rattle.play_session.specs.Lent.{stage_number, session_of};
ghost use Rattle.descriptors.specs.Serving.{ServedPart};

use board::Board;
use journal::WORDS;
use play_session::{Session, Stage};
use std::io::Write;

// A session behind a piece of its input, how many bytes of the piece it took, and whether what it said was printed. The
// flag says nothing of the other two, which hold where the printing failed, too: no Result has them.
#[derive(Clone, Copy)]
struct Handed {
    session: Session,
    taken: usize,
    printed: bool,
}

// A session, and whether it goes on: what it said was printed, and its board was not refused. The session is there
// either way, and `ServedPart` speaks of both fields, so they stand side by side.
#[derive(Clone, Copy)]
pub struct Served {
    pub session: Session,
    pub going: bool,
}

// Prints the first bytes of a buffer, so many.
pub fn print_part<W: Write>(out: &[u8], used: usize, output: &mut W) -> bool
    ensures { result ≡ true → used ≤ length out.now }
{
    if out.len() < used {
        return false;
    }
    streams::write_all(output, &out[..used])
}

// Hands bytes to the session, which takes those up to its first line feed, and prints what it says, by way of the
// buffer.
fn hand_on<W: Write>(
    session: Session,
    journal: &mut [[u64; WORDS]; Board::JOURNAL],
    bytes: &[u8],
    out: &mut [u8],
    output: &mut W,
) -> Handed
    ensures journal_after { session_of result.session journal.new ≡
        fed_session (session_of session journal.old) bytes.now }
    ensures taken_value { result.taken ≡ taken_of bytes.now }
    ensures bytes_in_bounds { result.printed ≡ true →
        length (fed_told (session_of session journal.old) bytes.now) ≤
        length out.old }
    ensures out_after { out.new ≡
        sets out.old 0 (fed_told (session_of session journal.old) bytes.now) }
{
    let fed = play_session::feed(session, journal, bytes, out);
    let printed = print_part(out, fed.used, output);
    Handed {
        session: fed.session,
        taken: fed.taken,
        printed,
    }
}

// Whether the board of a session was refused, by its stage.
fn is_over(stage: Stage) -> bool
    ensures { result ≡ eqb (stage_number stage) over_stage }
{
    matches!(stage, Stage::Over)
}

// Hands all of the bytes to the session, and prints its answers, by way of the buffer. Where one cannot be printed, the
// bytes behind it are left.
fn hand_all<W: Write>(
    session: Session,
    journal: &mut [[u64; WORDS]; Board::JOURNAL],
    bytes: &[u8],
    out: &mut [u8],
    output: &mut W,
) -> Served
    ensures { ServedPart (session_of session journal.old) bytes.now
        (session_of result.session journal.new) result.going }
{
    let mut current = session;
    let mut from: usize = 0;
    // The place grows by what the session takes, which no range and no iterator gives.
    while from < bytes.len() {
        let handed = hand_on(current, journal, &bytes[from..], out, output);
        current = handed.session;
        from += handed.taken;
        if !handed.printed {
            return Served {
                session: current,
                going: false,
            };
        }
    }
    Served {
        session: current,
        going: !is_over(current.stage),
    }
}

// The same with a buffer of its own.
pub fn serve<W: Write>(
    session: Session,
    journal: &mut [[u64; WORDS]; Board::JOURNAL],
    bytes: &[u8],
    output: &mut W,
) -> Served
    ensures { ServedPart (session_of session journal.old) bytes.now
        (session_of result.session journal.new) result.going }
{
    let mut out = [0u8; Session::OUTPUT];
    hand_all(session, journal, bytes, &mut out, output)
}

// Prints what the session says at the end of its input, by way of the buffer.
pub fn close<W: Write>(
    session: Session,
    journal: &mut [[u64; WORDS]; Board::JOURNAL],
    out: &mut [u8],
    output: &mut W,
) -> bool
    ensures journal_in_bounds { result ≡ true →
        length (end_told (session_of session journal.old)) ≤ length out.old }
    ensures out_after { out.new ≡
        sets out.old 0 (end_told (session_of session journal.old)) }
{
    let used = play_session::close(session, journal, out);
    print_part(out, used, output)
}

// Prints what the program `sheet` says of an input, by way of the buffer.
pub fn print_sheet<W: Write>(
    input: &[u8],
    journal: &mut [[u64; WORDS]; Board::JOURNAL],
    out: &mut [u8],
    output: &mut W,
) -> bool
    ensures input_in_bounds { result ≡ true → length (sheet_output input.now) ≤ length out.old }
    ensures out_after { out.new ≡ sets out.old 0 (sheet_output input.now) }
{
    let size = sheet_output::sheet_output(input, journal, out);
    print_part(out, size, output)
}
