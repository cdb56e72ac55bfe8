// The program `play` over pieces of its input.
#![tactic(auto)]

ghost use Rattle.std.specs.Prelude.{◌≡◌, false, List, ℕ, ◌≤◌, length, take};
ghost use Rattle.std.proofs.lemmas.List.Edits.{sets};
ghost use Rattle.refusals.specs.Refusals.{answer_of};
ghost use Rattle.board.specs.Whole.{Table};
ghost use Rattle.journal.specs.Words.{whole_of, given_of, no_words};
ghost use Rattle.solve_next.specs.Hints.{hint_refusal, hint_call};
ghost use Rattle.solve_next.specs.Views.{suggestion_of};
ghost use Rattle.load.specs.Lent.{loaded_of};
ghost use Rattle.play_lines.specs.Scans.{is_hint, scanned};
ghost use Rattle.text.specs.Sizes.{number_bytes};
ghost use Rattle.sheet_output.specs.Outputs.{number_line};
ghost use Rattle.play_session.specs.Machine.{
  output_bytes,
  turn_replied,
  form_replied,
  suggestion_text,
  played_text,
  form_text,
  new_session,
  text_grown,
  scan_grown,
  grown,
  lines_left,
  ready,
  board_line,
  load_told,
  board_told,
  played_line,
  line_ended,
  line_told,
  end_told,
  taken_of,
  fed_session,
  fed_told,
};
ghost use Rattle.play_session.specs.Inner.{StageOf};
ghost use Rattle.play_session.specs.Lent.{session_of};

use board::Board;
use journal::WORDS;
use move_list::AdviceNumbers;
use play_lines::{Form, Kind, Scan};
use refusals::Refusal;
use solve_next::Advice;

// What a session does: the board is read, lines are played, or the board was refused.
#[derive(Clone, Copy, PartialEq, Eq)]
pub enum Stage {
    Reading,
    Playing,
    Over,
    // A stage that there is not, by how far its number is past these; it takes bytes as where the board was refused.
    Unknown(u32),
}

impl From<u32> for Stage {
    ghost from_gives = { StageOf };

    // The stage of a number, in the order above.
    fn from(number: u32) -> Stage {
        match number {
            0 => Stage::Reading,
            1 => Stage::Playing,
            2 => Stage::Over,
            _ => Stage::Unknown(number - 3),
        }
    }
}

// Its stage; how many lines of the board are still to come, 0 before the first has ended; the text of the board as far
// as it is kept; the line as far as it was read; and the board.
// `session_of` names these fields; no heap: the text's places are fixed, so how many are used stands beside them.
#[derive(Clone, Copy)]
pub struct Session {
    pub stage: Stage,
    pub left: u32,
    pub used: usize,
    pub text: [u8; Session::TEXT],
    pub scan: Scan,
    pub board: Board,
}

// The session behind a line feed, and how many bytes were printed.
#[derive(Clone, Copy)]
pub struct AfterLine {
    pub session: Session,
    pub used: usize,
}

// The session behind a piece of the input, how many bytes of the piece were taken, and how many were printed.
#[derive(Clone, Copy)]
pub struct Fed {
    pub session: Session,
    pub taken: usize,
    pub used: usize,
}

impl Session {
    // No board text is longer: a line of n fields, of seven digits each, is read up to 2 + 8 × n bytes, and one byte
    // more shows that nothing follows.
    pub const TEXT: usize = 34 + 26 * Board::MAX_EDGES + 18 * Board::MAX_TERMINALS + 1;

    // The most that a line's answer takes: a number, and the longest report.
    pub const OUTPUT: usize = 11 + report::REPORT_BYTES;

    // Nothing was read yet, and the journal is empty.
    pub fn start() -> Session
        ensures { session_of result no_words ≡ new_session }
    {
        Session {
            stage: Stage::Reading,
            left: 0,
            used: 0,
            text: [0; Session::TEXT],
            scan: Scan::none(),
            board: Board::closed(),
        }
    }

    // The text of the board as far as it is kept.
    fn kept(&self) -> &[u8]
        ensures { result.now ≡ take self.now.used self.now.text }
    {
        &self.text[..self.used.min(Session::TEXT)]
    }
}

// A turn.
#[tactic(auto, unfolding(crate::specs::Machine::turn_replied, lists::specs::Choice::pick, lists::specs::Choice::both))]
fn turn_replied(
    board: Board,
    journal: &mut [[u64; WORDS]; Board::JOURNAL],
    form: Form,
) -> Result<Board, Refusal>
    ensures { given_of board result journal.new ≡ turn_replied (whole_of board journal.old) form }
{
    let few = form.count <= Board::MAX_EDGES as u32;
    let known = form.greatest < board.network.edges;
    if few && known {
        move_turn::turn_steps(board, journal, &form.steps[..form.count as usize])
    } else {
        Err(move_turn::turn_unkept(board, journal, form.greatest))
    }
}

// What a line that asks for no hint is answered with: the board after it, or why it is refused.
#[tactic(auto, unfolding(crate::specs::Machine::form_replied))]
fn form_replied(
    board: Board,
    journal: &mut [[u64; WORDS]; Board::JOURNAL],
    form: Form,
) -> Result<Board, Refusal>
    requires { is_hint form.kind ≡ false }
    ensures { given_of board result journal.new ≡ form_replied (whole_of board journal.old) form }
{
    match form.kind {
        Kind::CarryWhole => move_carry::carry(board, journal, form.first, form.second),
        Kind::Turn => turn_replied(board, journal, form),
        Kind::Undo => move_undo::undo(board, journal),
        Kind::Finish => {
            let finished = solve_finish::finish(board, journal)?;
            Ok(finished.board)
        }
        _ => Err(Refusal::Malformed),
    }
}

// Writes the number of an answer, 0 where nothing is refused; answers how many bytes.
fn put_answer<T: Copy>(out: &mut [u8], given: Result<T, Refusal>) -> usize
    ensures value { result ≡ length (number_line (answer_of given)) }
    ensures upper_bound { result ≤ number_bytes }
    ensures out_after { out.new ≡ sets out.old 0 (number_line (answer_of given)) }
{
    let number = match given {
        Ok(_) => 0,
        Err(refusal) => u32::from(refusal),
    };
    sheet_output::put_number(out, 0, number)
}

// Writes the number of a hint, and after an accepted one its move as a line; answers how many bytes.
fn put_hint(out: &mut [u8], given: Result<Option<Advice>, Refusal>) -> usize
    ensures value { result ≡ length (suggestion_text (suggestion_of given)) }
    ensures upper_bound { result ≤ output_bytes }
    ensures out_after { out.new ≡ sets out.old 0 (suggestion_text (suggestion_of given)) }
{
    let behind = put_answer(out, given);
    match given {
        Ok(advice) => play_lines::put_move(out, behind, AdviceNumbers::from(advice)),
        Err(_) => behind,
    }
}

// Writes the number of an answer, and the report after an accepted finish; answers how many bytes.
fn put_reply(
    out: &mut [u8],
    form: Form,
    given: Result<Board, Refusal>,
    journal: &[[u64; WORDS]; Board::JOURNAL],
) -> usize
    ensures value { (old : Table) →
        result ≡ length (played_text form (given_of old given journal.now)) }
    ensures upper_bound { result ≤ output_bytes }
    ensures out_after { (old : Table) →
        out.new ≡ sets out.old 0 (played_text form (given_of old given journal.now)) }
{
    let number = put_answer(out, given);
    match (form.kind, given) {
        (Kind::Finish, Ok(board)) => sheet_output::put_report(out, number, board, journal),
        _ => number,
    }
}

// Stores bytes from a place on, as many as there is room for.
fn put_bytes(text: [u8; Session::TEXT], at: usize, bytes: &[u8]) -> [u8; Session::TEXT]
    ensures { result ≡ sets text at bytes.now }
{
    let mut next = text;
    let from = at.min(Session::TEXT);
    let kept = bytes.len().min(Session::TEXT - from);
    next[from..from + kept].copy_from_slice(&bytes[..kept]);
    next
}

// Bytes of the board's text.
#[tactic(auto, unfolding(lists::specs::Choice::pick))]
fn text_grown(session: Session, bytes: &[u8]) -> Session
    ensures { (w : List (List ℕ)) → session_of result w ≡ text_grown (session_of session w) bytes.now }
{
    Session {
        used: session.used.saturating_add(bytes.len()).min(Session::TEXT),
        text: put_bytes(session.text, session.used, bytes),
        ..session
    }
}

// Bytes of a line of the play.
fn scan_grown(session: Session, bytes: &[u8]) -> Session
    ensures { (w : List (List ℕ)) → session_of result w ≡ scan_grown (session_of session w) bytes.now }
{
    Session {
        scan: play_lines::read_on(session.scan, bytes),
        ..session
    }
}

// Bytes with no line feed among them.
#[tactic(auto, unfolding(crate::specs::Machine::grown, lists::specs::Choice::pick))]
fn grown(session: Session, bytes: &[u8]) -> Session
    ensures { (w : List (List ℕ)) → session_of result w ≡ grown (session_of session w) bytes.now }
{
    match session.stage {
        Stage::Reading => text_grown(session, bytes),
        Stage::Playing => scan_grown(session, bytes),
        Stage::Over | Stage::Unknown(_) => session,
    }
}

// How many lines of the board are still to come behind one that has ended. The first one says how many there are.
#[tactic(auto, unfolding(crate::specs::Machine::lines_left, lists::specs::Choice::pick))]
fn lines_left(session: Session) -> u32
    ensures { (w : List (List ℕ)) → result ≡ lines_left (session_of session w) }
{
    if session.left == 0 {
        sheet_output::lines_wanted(session.kept()).saturating_sub(1)
    } else {
        session.left - 1
    }
}

// The session with the board loaded: it is played, or it was refused.
#[tactic(auto, unfolding(lists::specs::Choice::pick))]
fn ready(session: Session, loaded: Result<Board, Refusal>) -> Session
    ensures { (w : List (List ℕ)) → session_of result w ≡ ready (loaded_of loaded w) (session_of session w) }
{
    let (stage, board) = match loaded {
        Ok(board) => (Stage::Playing, board),
        Err(_) => (Stage::Over, Board::closed()),
    };
    Session {
        stage,
        left: 0,
        scan: Scan::none(),
        board,
        ..session
    }
}

// Writes the number of a refused board, and nothing for another; answers how many bytes.
#[tactic(auto, unfolding(crate::specs::Machine::load_told, lists::specs::Choice::pick))]
fn put_load(out: &mut [u8], loaded: Result<Board, Refusal>) -> usize
    ensures by_index { (w : List (List ℕ)) → result ≡ length (load_told (loaded_of loaded w)) }
    ensures upper_bound { result ≤ output_bytes }
    ensures by_index_2 { (w : List (List ℕ)) →
        out.new ≡ sets out.old 0 (load_told (loaded_of loaded w)) }
{
    match loaded {
        Ok(_) => 0,
        Err(refusal) => sheet_output::put_number(out, 0, u32::from(refusal)),
    }
}

// A line of the board has ended: the next one is expected, or the board is loaded.
fn board_line(
    session: Session,
    journal: &mut [[u64; WORDS]; Board::JOURNAL],
    out: &mut [u8],
) -> AfterLine
    ensures journal_after { session_of result.session journal.new ≡
        board_line (session_of session journal.old) }
    ensures used_value { result.used ≡ length (board_told (session_of session journal.old)) }
    ensures used_le_output_bytes { result.used ≤ output_bytes }
    ensures out_after { out.new ≡
        sets out.old 0 (board_told (session_of session journal.old)) }
{
    let left = lines_left(session);
    if left != 0 {
        return AfterLine {
            session: Session { left, ..session },
            used: 0,
        };
    }
    let loaded = load::load(session.kept(), journal);
    AfterLine {
        session: ready(session, loaded),
        used: put_load(out, loaded),
    }
}

// A line that asks for a hint has ended: the hint is worked out once, and the board stays.
fn hint_line(
    session: Session,
    journal: &[[u64; WORDS]; Board::JOURNAL],
    out: &mut [u8],
) -> AfterLine
    ensures journal_value { session_of result.session journal.now ≡ played_line (record {
      answer = hint_refusal (whole_of session.board journal.now);
      board = whole_of session.board journal.now;
    }) (session_of session journal.now) }
    ensures used_value { result.used ≡
        length (suggestion_text (hint_call (whole_of session.board journal.now))) }
    ensures used_le_output_bytes { result.used ≤ output_bytes }
    ensures out_after { out.new ≡
        sets out.old 0 (suggestion_text (hint_call (whole_of session.board journal.now))) }
{
    let given = solve_next::hint(session.board, journal);
    let used = put_hint(out, given);
    AfterLine {
        session: Session {
            scan: Scan::none(),
            ..session
        },
        used,
    }
}

// A line of the play has ended: it is answered.
fn played_line(
    session: Session,
    journal: &mut [[u64; WORDS]; Board::JOURNAL],
    out: &mut [u8],
) -> AfterLine
    ensures journal_after { session_of result.session journal.new ≡
        played_line (form_replied (whole_of session.board journal.old) (scanned session.scan))
        (session_of session journal.old) }
    ensures used_value { result.used ≡
        length (form_text (whole_of session.board journal.old) (scanned session.scan)) }
    ensures used_le_output_bytes { result.used ≤ output_bytes }
    ensures out_after { out.new ≡ sets out.old 0
        (form_text (whole_of session.board journal.old) (scanned session.scan)) }
{
    let form = play_lines::whole(session.scan);
    match form.kind {
        Kind::Hint => hint_line(session, journal, out),
        _ => {
            let given = form_replied(session.board, journal, form);
            let used = put_reply(out, form, given, journal);
            AfterLine {
                session: Session {
                    scan: Scan::none(),
                    board: given.unwrap_or(session.board),
                    ..session
                },
                used,
            }
        }
    }
}

// A line feed.
fn line_ended(
    session: Session,
    journal: &mut [[u64; WORDS]; Board::JOURNAL],
    out: &mut [u8],
) -> AfterLine
    ensures journal_after { session_of result.session journal.new ≡
        line_ended (session_of session journal.old) }
    ensures used_value { result.used ≡ length (line_told (session_of session journal.old)) }
    ensures used_le_output_bytes { result.used ≤ output_bytes }
    ensures out_after { out.new ≡
        sets out.old 0 (line_told (session_of session journal.old)) }
{
    match session.stage {
        Stage::Reading => board_line(text_grown(session, &[b'\n']), journal, out),
        Stage::Playing => played_line(session, journal, out),
        Stage::Over | Stage::Unknown(_) => AfterLine { session, used: 0 },
    }
}

// Takes a piece of the input, up to and with its first line feed, and writes what is printed for it: OUTPUT bytes at
// most. What has no room in the buffer is dropped.
pub fn feed(
    session: Session,
    journal: &mut [[u64; WORDS]; Board::JOURNAL],
    bytes: &[u8],
    out: &mut [u8],
) -> Fed
    ensures journal_after { session_of result.session journal.new ≡
        fed_session (session_of session journal.old) bytes.now }
    ensures taken_value { result.taken ≡ taken_of bytes.now }
    ensures used_value { result.used ≡
        length (fed_told (session_of session journal.old) bytes.now) }
    ensures used_le_output_bytes { result.used ≤ output_bytes }
    ensures out_after { out.new ≡
        sets out.old 0 (fed_told (session_of session journal.old) bytes.now) }
    ensures taken_in_bounds { result.taken ≤ length bytes.now }
{
    let at = lists::index_of(bytes, b'\n');
    if bytes.len() <= at {
        return Fed {
            session: grown(session, bytes),
            taken: bytes.len(),
            used: 0,
        };
    }
    let taken = at + 1;
    let next = grown(session, &bytes[..at]);
    let told = line_ended(next, journal, out);
    Fed {
        session: told.session,
        taken,
        used: told.used,
    }
}

// Writes what is printed at the end of the input, and answers how many bytes.
#[tactic(auto, unfolding(crate::specs::Machine::end_told, lists::specs::Choice::pick))]
pub fn close(
    session: Session,
    journal: &mut [[u64; WORDS]; Board::JOURNAL],
    out: &mut [u8],
) -> usize
    ensures value { result ≡ length (end_told (session_of session journal.old)) }
    ensures upper_bound { result ≤ output_bytes }
    ensures out_after { out.new ≡
        sets out.old 0 (end_told (session_of session journal.old)) }
{
    match session.stage {
        Stage::Reading => {
            let loaded = load::load(session.kept(), journal);
            put_load(out, loaded)
        }
        Stage::Playing => {
            if play_lines::is_blank(session.scan) {
                0
            } else {
                sheet_output::put_number(out, 0, u32::from(Refusal::Malformed))
            }
        }
        Stage::Over | Stage::Unknown(_) => 0,
    }
}
