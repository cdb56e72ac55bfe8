// A line of a play, read byte by byte in fixed memory.
#![tactic(auto)]

ghost use Rattle.std.specs.Prelude.{◌≡◌, ◌+◌, ◌-◌, ◌*◌, ◌<◌, ◌≤◌, leb, ltb, length};
ghost use Rattle.std.proofs.lemmas.List.Edits.{sets};
ghost use Rattle.lists.specs.Choice.{pick, both};
ghost use Rattle.board.specs.Limits.{max_edges};
ghost use Rattle.move_cycle.specs.Steps.{code_step, code_steps};
ghost use Rattle.solve_next.specs.Choosing.{relocate, augment};
ghost use Rattle.move_list.specs.Told.{numbered};
ghost use Rattle.text.specs.Sizes.{line_bytes};
ghost use Rattle.text.specs.Room.{start_most};
ghost use Rattle.play_lines.specs.Inner.{OfNumber, step_bytes, turn_bytes};
ghost use Rattle.play_lines.specs.MoveLines.{way_letter, step_text, steps_text, move_line, hint_line};
ghost use Rattle.play_lines.specs.Scans.{
  no_piece,
  is_digit,
  piece_taken,
  piece_number,
  piece_is,
  no_form,
  kept_code,
  with_step,
  begun,
  way_taken,
  form_taken,
  no_scan,
  scan_taken,
  scan_all,
  scanned,
  is_blank,
};

use board::Board;
use move_cycle::StepCode;
use move_list::AdviceNumbers;
use solve_next::Advice;

// A field as far as it was read: how many bytes, with 8 for more than 7, the first of them, whether all are digits, and
// their number. `piece_taken` and `piece_number` of `Scans` name these fields.
#[derive(Clone, Copy)]
pub struct Piece {
    pub size: u32,
    pub initial: u8,
    pub digits: bool,
    pub value: u32,
}

// Which line the fields begin.
#[derive(Clone, Copy, PartialEq, Eq)]
pub enum Kind {
    // Nothing was read yet.
    Nothing,
    // A line of another form.
    Other,
    Hint,
    Undo,
    Finish,
    // A carry with no number yet, with its first, and with both.
    Carry,
    CarryFrom,
    CarryWhole,
    // A turn, and one with an edge whose way is to come.
    Turn,
    TurnEdge,
    // A kind that there is not, by how far its number is past these; it goes on as a line of another form.
    Unknown(u32),
}

impl From<u32> for Kind {
    ghost from_gives = { OfNumber };

    // The kind of a number, in the order above.
    fn from(number: u32) -> Kind {
        match number {
            0 => Kind::Nothing,
            1 => Kind::Other,
            2 => Kind::Hint,
            3 => Kind::Undo,
            4 => Kind::Finish,
            5 => Kind::Carry,
            6 => Kind::CarryFrom,
            7 => Kind::CarryWhole,
            8 => Kind::Turn,
            9 => Kind::TurnEdge,
            _ => Kind::Unknown(number - 10),
        }
    }
}

// What the fields before it make: the kind of line; the numbers of a carry, or the edge of a step whose way is to come;
// and the steps of a turn: how many, one more than there may be edges standing for all above, their greatest edge, and
// the first of them.
// The definitions in `Scans` name these fields; no heap: the places of steps are fixed, so the count stands beside.
#[derive(Clone, Copy)]
pub struct Form {
    pub kind: Kind,
    pub first: u32,
    pub second: u32,
    pub count: u32,
    pub greatest: u32,
    pub steps: [StepCode; Board::MAX_EDGES],
}

// A line as far as it was read.
#[derive(Clone, Copy)]
pub struct Scan {
    pub form: Form,
    pub piece: Piece,
}

impl Piece {
    // The most digits of a number.
    const DIGITS: u32 = 7;

    // Nothing of a field.
    pub fn none() -> Piece
        ensures { result ≡ no_piece }
    {
        Piece {
            size: 0,
            initial: 0,
            digits: true,
            value: 0,
        }
    }
}

impl Form {
    // No field.
    pub fn none() -> Form
        ensures { result ≡ no_form }
    {
        Form {
            kind: Kind::Nothing,
            first: 0,
            second: 0,
            count: 0,
            greatest: 0,
            steps: [0; Board::MAX_EDGES],
        }
    }
}

impl Scan {
    // Nothing of a line.
    pub fn none() -> Scan
        ensures { result ≡ no_scan }
    {
        Scan {
            form: Form::none(),
            piece: Piece::none(),
        }
    }
}

// A count with one more; one that is past the most stays.
#[tactic(auto, unfolding(lists::specs::Choice::pick))]
fn counted(count: u32, most: u32) -> u32
    requires { most < u32.MAX }
    ensures { result ≡ pick (leb count most) (count + 1) count }
{
    if count <= most { count + 1 } else { count }
}

// The number with one digit more.
#[tactic(auto, unfolding(lists::specs::Choice::pick, lists::specs::Choice::both))]
fn value_taken(value: u32, c: u8) -> u32
    ensures { result ≡ pick (both (is_digit c) (ltb value 1000000)) (value * 10 + (c - 48)) value }
{
    if c.is_ascii_digit() && value < 1_000_000 {
        value * 10 + (c - b'0') as u32
    } else {
        value
    }
}

// A field with one byte more.
#[tactic(auto, unfolding(crate::specs::Scans::piece_taken, lists::specs::Choice::pick, lists::specs::Choice::both))]
fn piece_taken(piece: Piece, c: u8) -> Piece
    ensures { result ≡ piece_taken piece c }
{
    Piece {
        size: counted(piece.size, Piece::DIGITS),
        initial: if piece.size == 0 { c } else { piece.initial },
        digits: piece.digits && c.is_ascii_digit(),
        value: value_taken(piece.value, c),
    }
}

// The number that a field is.
#[tactic(auto, unfolding(crate::specs::Scans::piece_number, lists::specs::Choice::pick, lists::specs::Choice::both))]
fn piece_number(piece: Piece) -> Option<u32>
    ensures { result ≡ piece_number piece }
{
    let sized = 0 < piece.size && piece.size <= Piece::DIGITS;
    let padded = 1 < piece.size && piece.initial == b'0';
    if piece.digits && sized && !padded {
        Some(piece.value)
    } else {
        None
    }
}

// Whether a field is this letter alone.
#[tactic(auto, unfolding(crate::specs::Scans::piece_is, lists::specs::Choice::both))]
fn piece_is(letter: u8, piece: Piece) -> bool
    ensures { result ≡ piece_is letter piece }
{
    piece.size == 1 && piece.initial == letter
}

// The code of a step over e; 0 where e is too large for one, as `kept_code` of `Scans` has it.
#[tactic(auto, unfolding(crate::specs::Scans::kept_code, lists::specs::Choice::pick))]
fn kept_code(goes_up: bool, e: u32) -> StepCode
    ensures { result ≡ kept_code goes_up e }
{
    if move_cycle::has_code(e) {
        move_cycle::stride(goes_up, e)
    } else {
        0
    }
}

// A turn with one step more, over the edge that was read.
#[tactic(auto, unfolding(crate::specs::Scans::with_step, lists::specs::Choice::pick))]
fn with_step(goes_up: bool, form: Form) -> Form
    ensures { result ≡ with_step goes_up form }
{
    let step = kept_code(goes_up, form.first);
    Form {
        kind: Kind::Turn,
        first: 0,
        second: form.second,
        count: counted(form.count, Board::MAX_EDGES as u32),
        greatest: form.greatest.max(form.first),
        steps: move_cycle::put_step(form.steps, form.count as usize, step),
    }
}

// The first field.
#[tactic(auto, unfolding(crate::specs::Scans::begun, lists::specs::Choice::pick, lists::specs::Choice::both))]
fn begun(form: Form, piece: Piece) -> Form
    ensures { result ≡ begun form piece }
{
    let kind = match (piece.size, piece.initial) {
        (1, b'K') => Kind::Carry,
        (1, b'T') => Kind::Turn,
        (1, b'H') => Kind::Hint,
        (1, b'U') => Kind::Undo,
        (1, b'F') => Kind::Finish,
        _ => Kind::Other,
    };
    Form { kind, ..form }
}

// A way: down or up.
#[tactic(auto, unfolding(crate::specs::Scans::way_taken, lists::specs::Choice::pick))]
fn way_taken(form: Form, piece: Piece) -> Form
    ensures { result ≡ way_taken form piece }
{
    if piece_is(b'D', piece) {
        return with_step(false, form);
    }
    if piece_is(b'U', piece) {
        return with_step(true, form);
    }
    Form {
        kind: Kind::Other,
        ..form
    }
}

// One field more.
#[tactic(auto, unfolding(crate::specs::Scans::form_taken))]
fn form_taken(form: Form, piece: Piece) -> Form
    ensures { result ≡ form_taken form piece }
{
    match (form.kind, piece_number(piece)) {
        (Kind::Nothing, _) => begun(form, piece),
        (Kind::Carry, Some(n)) => Form {
            kind: Kind::CarryFrom,
            first: n,
            ..form
        },
        (Kind::CarryFrom, Some(n)) => Form {
            kind: Kind::CarryWhole,
            second: n,
            ..form
        },
        (Kind::Turn, Some(n)) => Form {
            kind: Kind::TurnEdge,
            first: n,
            ..form
        },
        (Kind::TurnEdge, _) => way_taken(form, piece),
        _ => Form {
            kind: Kind::Other,
            ..form
        },
    }
}

// One byte more; a comma ends a field.
#[tactic(auto, unfolding(crate::specs::Scans::scan_taken, lists::specs::Choice::pick))]
fn scan_taken(scan: &mut Scan, c: u8)
    ensures { scan.new ≡ scan_taken scan.old c }
{
    if c == b',' {
        scan.form = form_taken(scan.form, scan.piece);
        scan.piece = Piece::none();
    } else {
        scan.piece = piece_taken(scan.piece, c);
    }
}

// Bytes more.
#[tactic(auto, unfolding(crate::specs::Scans::scan_all))]
pub fn read_on(scan: Scan, bytes: &[u8]) -> Scan
    ensures { result ≡ scan_all scan bytes.now }
{
    let mut state = scan;
    for c in bytes {
        scan_taken(&mut state, *c);
    }
    state
}

// The form of the whole line, at its end.
#[tactic(auto, unfolding(crate::specs::Scans::scanned))]
pub fn whole(scan: Scan) -> Form
    ensures { result ≡ scanned scan }
{
    form_taken(scan.form, scan.piece)
}

// Whether no byte of the line was read yet.
#[tactic(auto, unfolding(crate::specs::Scans::is_blank, lists::specs::Choice::both))]
pub fn is_blank(scan: Scan) -> bool
    ensures { result ≡ is_blank scan }
{
    matches!(scan.form.kind, Kind::Nothing) && scan.piece.size == 0
}

// ---- A move as a line.

// The letter of a step's way: D for down, U for up.
fn way_letter(step: StepCode) -> u8
    ensures { result ≡ way_letter (code_step step) }
{
    if move_cycle::is_up(step) { b'U' } else { b'D' }
}

// Writes a step behind a comma, as `,7,D`, at a place of the buffer, and answers the place behind it.
#[tactic(auto, using(text_writer::proofs::Writing::sets_append))]
fn put_pair(buf: &mut [u8], at: usize, step: StepCode) -> usize
    requires { at ≤ start_most + turn_bytes max_edges }
    ensures value { result ≡ at + length (step_text (code_step step)) }
    ensures upper_bound { result ≤ at + step_bytes }
    ensures buf_after { buf.new ≡ sets buf.old at (step_text (code_step step)) }
{
    let edge = move_cycle::edge_of(step);
    let way = way_letter(step);
    lists::put(buf, at, b',');
    let end = decimal::write_number(buf, at + 1, edge);
    lists::put(buf, end, b',');
    lists::put(buf, end + 1, way);
    end + 2
}

// Writes steps in their order.
fn put_pairs(buf: &mut [u8], at: usize, steps: &[StepCode]) -> usize
    requires { (at ≤ start_most + 1) × (length steps.now ≤ max_edges) }
    ensures value { result ≡ at + length (steps_text (code_steps steps.now)) }
    ensures upper_bound { result ≤ at + step_bytes * length steps.now }
    ensures buf_after { buf.new ≡ sets buf.old at (steps_text (code_steps steps.now)) }
{
    let mut to = at;
    for step in steps {
        to = put_pair(buf, to, *step);
    }
    to
}

// Writes the line of a turn: `T`, its steps, and a line feed.
#[tactic(auto, using(text_writer::proofs::Writing::sets_append), unfolding(crate::specs::MoveLines::move_line))]
fn put_turn(buf: &mut [u8], at: usize, steps: &[StepCode]) -> usize
    requires { (at ≤ start_most) × (length steps.now ≤ max_edges) }
    ensures value { result ≡ at + length (move_line (augment (code_steps steps.now))) }
    ensures upper_bound { result ≤ at + turn_bytes (length steps.now) }
    ensures buf_after { buf.new ≡
        sets buf.old at (move_line (augment (code_steps steps.now))) }
{
    lists::put(buf, at, b'T');
    let end = put_pairs(buf, at + 1, steps);
    lists::put(buf, end, b'\n');
    end + 1
}

// Writes the line of a carry: `K`, the terminal, the edge, and a line feed.
#[tactic(auto, using(crate::proofs::MovesWritten::carry_line))]
fn put_carry(buf: &mut [u8], at: usize, terminal: u32, edge: u32) -> usize
    requires { at ≤ start_most }
    ensures value { result ≡ at + length (move_line (relocate terminal edge)) }
    ensures upper_bound { result ≤ at + line_bytes 2 }
    ensures buf_after { buf.new ≡ sets buf.old at (move_line (relocate terminal edge)) }
{
    let row = [terminal, edge];
    text_writer::put_line(buf, at, b'K', &row)
}

// Writes the move of a hint as a line, or `N` where there is none, at a place of the buffer, and answers the place
// behind it. A byte past the end of the buffer is dropped.
pub fn put_move(buf: &mut [u8], at: usize, advice: AdviceNumbers) -> usize
    requires { at ≤ start_most }
    ensures value { result ≡ at + length (hint_line (numbered advice)) }
    ensures upper_bound { result ≤ at + turn_bytes max_edges }
    ensures buf_after { buf.new ≡ sets buf.old at (hint_line (numbered advice)) }
{
    match advice.kind {
        Advice::NONE => {
            lists::put(buf, at, b'N');
            lists::put(buf, at + 1, b'\n');
            at + 2
        }
        Advice::CARRY => put_carry(buf, at, advice.terminal, advice.edge),
        _ => {
            let count = (advice.count as usize).min(Board::MAX_EDGES);
            put_turn(buf, at, &advice.steps[..count])
        }
    }
}
