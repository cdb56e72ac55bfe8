// The engine as C links it: the calls over the parts of a game's memory, which crates/boundary_c exports.
// library/vulprow.c has the functions of include/vulprow.h, each of which makes one of these calls.
#![tactic(auto)]

ghost use Rattle.std.specs.Prelude.{◌≡◌, List, ℕ, length};
ghost use Rattle.refusals.specs.Refusals.{answer_of};
ghost use Rattle.text.specs.Results.{as_written, write_text, written};
ghost use Rattle.boundary.specs.Inner.{memory_given};
ghost use Rattle.load.specs.Load.{load_text};
ghost use Rattle.move_cycle.specs.Steps.{steps_of};
ghost use Rattle.solve_next.specs.Hints.{hint_call};
ghost use Rattle.solve_next.specs.Views.{advice_given};
ghost use Rattle.solve_finish.specs.Finishes.{finish_call};
ghost use Rattle.report.specs.Reports.{sheet_call, sheeted};
ghost use Rattle.catalog.specs.Catalog.{catalog_call, catalogued};
ghost use Rattle.move_list.specs.Calls.{carry, turn, undo, finish};
ghost use Rattle.boundary_parts.specs.Memory.{memory, board_of, memory_loaded};
ghost use Rattle.boundary_parts.specs.Games.{memory_answer, memory_made};
ghost use Rattle.boundary_parts.specs.Shown.{
  advice_numbers,
  advice_bytes,
  look_refusal,
  view_numbers,
  view_edges,
  view_terminals,
  entry_refusal,
  entry_numbers,
  entry_rows,
  engine_limits,
};

use board::Board;
use boundary_parts::{
    EDGE_ROWS, ENTRY_NUMBERS, ENTRY_ROWS, MOVE_NUMBERS, NUMBERS, TERMINAL_ROWS, VIEW_NUMBERS,
};
use journal::WORDS;
use move_list::AdviceNumbers;
use refusals::Refusal;
use sets::EdgeSet;
use solve_next::Advice;

// Stores the board that a call gave in the memory, which a refused call leaves as it was. Answers 0 or the number of the
// refusal.
fn store_given(
    given: Result<Board, Refusal>,
    numbers: &mut [u32; NUMBERS],
    edges: &mut [[u32; Board::MAX_EDGES]; EDGE_ROWS],
    terminals: &mut [[u32; Board::MAX_TERMINALS]; TERMINAL_ROWS],
    marks: &mut EdgeSet,
) -> u32
    ensures value { result ≡ answer_of given }
    ensures marks_after { (words : List (List ℕ)) → memory numbers.new edges.new terminals.new marks.new words ≡
        memory_given given (memory numbers.old edges.old terminals.old marks.old words) }
{
    match given {
        Ok(next) => {
            boundary_parts::store(next, numbers, edges, terminals, marks);
            0
        }
        Err(refusal) => u32::from(refusal),
    }
}

// Stores the length of what was written, 0 where nothing was. Answers 0 or the number of the refusal.
fn store_used(written: Result<usize, Refusal>, used: &mut usize) -> u32
    ensures value { result ≡ (as_written written).answer }
    ensures used_after { used.new ≡ (as_written written).used }
{
    match written {
        Ok(length) => {
            *used = length;
            0
        }
        Err(refusal) => {
            *used = 0;
            u32::from(refusal)
        }
    }
}

// Reads a board text and opens it for play. Answers what the load answered; the memory is then that of the board that
// it gave, with no move standing.
pub fn vulprow_parts_load(
    numbers: &mut [u32; NUMBERS],
    edges: &mut [[u32; Board::MAX_EDGES]; EDGE_ROWS],
    terminals: &mut [[u32; Board::MAX_TERMINALS]; TERMINAL_ROWS],
    marks: &mut EdgeSet,
    journal: &mut [[u64; WORDS]; Board::JOURNAL],
    text: &[u8],
) -> u32
    ensures value { result ≡ (load_text text.now).answer }
    ensures journal_after { memory numbers.new edges.new terminals.new marks.new
        journal.new ≡ memory_loaded (load_text text.now).board }
{
    match load::load(text, journal) {
        Ok(board) => {
            boundary_parts::store(board, numbers, edges, terminals, marks);
            0
        }
        Err(refusal) => {
            boundary_parts::store(Board::closed(), numbers, edges, terminals, marks);
            u32::from(refusal)
        }
    }
}

// Relocates a terminal over an edge.
pub fn vulprow_parts_carry(
    numbers: &mut [u32; NUMBERS],
    edges: &mut [[u32; Board::MAX_EDGES]; EDGE_ROWS],
    terminals: &mut [[u32; Board::MAX_TERMINALS]; TERMINAL_ROWS],
    marks: &mut EdgeSet,
    journal: &mut [[u64; WORDS]; Board::JOURNAL],
    terminal: u32,
    edge: u32,
) -> u32
    ensures value { result ≡ memory_answer (memory numbers.old edges.old terminals.old
        marks.old journal.old) (carry terminal edge) }
    ensures journal_after { memory numbers.new edges.new terminals.new marks.new
        journal.new ≡
        memory_made (memory numbers.old edges.old terminals.old
        marks.old journal.old) (carry terminal edge) }
{
    let board = boundary_parts::board_in(numbers, edges, terminals, marks);
    let played = move_carry::carry(board, journal, terminal, edge);
    store_given(played, numbers, edges, terminals, marks)
}

// Augments along a cycle, a byte a step.
pub fn vulprow_parts_turn(
    numbers: &mut [u32; NUMBERS],
    edges: &mut [[u32; Board::MAX_EDGES]; EDGE_ROWS],
    terminals: &mut [[u32; Board::MAX_TERMINALS]; TERMINAL_ROWS],
    marks: &mut EdgeSet,
    journal: &mut [[u64; WORDS]; Board::JOURNAL],
    steps: &[u8],
) -> u32
    ensures value { result ≡ memory_answer (memory numbers.old edges.old terminals.old
        marks.old journal.old) (turn (steps_of steps.now)) }
    ensures journal_after { memory numbers.new edges.new terminals.new marks.new
        journal.new ≡
        memory_made (memory numbers.old edges.old terminals.old
        marks.old journal.old) (turn (steps_of steps.now)) }
{
    let board = boundary_parts::board_in(numbers, edges, terminals, marks);
    let turned = move_turn::turn(board, journal, steps);
    store_given(turned, numbers, edges, terminals, marks)
}

// Takes the last standing move back, or a finish that stands.
pub fn vulprow_parts_undo(
    numbers: &mut [u32; NUMBERS],
    edges: &mut [[u32; Board::MAX_EDGES]; EDGE_ROWS],
    terminals: &mut [[u32; Board::MAX_TERMINALS]; TERMINAL_ROWS],
    marks: &mut EdgeSet,
    journal: &mut [[u64; WORDS]; Board::JOURNAL],
) -> u32
    ensures value { result ≡ memory_answer (memory numbers.old edges.old terminals.old
        marks.old journal.old) undo }
    ensures journal_after { memory numbers.new edges.new terminals.new marks.new
        journal.new ≡
        memory_made (memory numbers.old edges.old terminals.old
        marks.old journal.old) undo }
{
    let board = boundary_parts::board_in(numbers, edges, terminals, marks);
    let back = move_undo::undo(board, journal);
    store_given(back, numbers, edges, terminals, marks)
}

// Plays to the end; `count` gets how many moves that took.
pub fn vulprow_parts_finish(
    numbers: &mut [u32; NUMBERS],
    edges: &mut [[u32; Board::MAX_EDGES]; EDGE_ROWS],
    terminals: &mut [[u32; Board::MAX_TERMINALS]; TERMINAL_ROWS],
    marks: &mut EdgeSet,
    journal: &mut [[u64; WORDS]; Board::JOURNAL],
    count: &mut u32,
) -> u32
    ensures value { result ≡ memory_answer (memory numbers.old edges.old terminals.old
        marks.old journal.old) finish }
    ensures count_after { count.new ≡ (finish_call (board_of (memory numbers.old edges.old
        terminals.old marks.old journal.old))).count }
    ensures journal_after { memory numbers.new edges.new terminals.new marks.new
        journal.new ≡
        memory_made (memory numbers.old edges.old terminals.old
        marks.old journal.old) finish }
{
    let board = boundary_parts::board_in(numbers, edges, terminals, marks);
    match solve_finish::finish(board, journal) {
        Ok(finished) => {
            *count = finished.count;
            boundary_parts::store(finished.board, numbers, edges, terminals, marks);
            0
        }
        Err(refusal) => {
            *count = 0;
            u32::from(refusal)
        }
    }
}

// A hint's move in numbers, and its steps in bytes.
fn show_hint(
    advice: Option<Advice>,
    parts: &mut [u32; MOVE_NUMBERS],
    steps: &mut [u8; Board::MAX_EDGES],
)
    ensures parts_after { parts.new ≡ advice_numbers (advice_given advice) }
    ensures steps_after { steps.new ≡ advice_bytes (advice_given advice) }
{
    let numbers = AdviceNumbers::from(advice);
    *parts = [numbers.kind, numbers.terminal, numbers.edge, numbers.count];
    *steps = boundary_parts::step_bytes(numbers.steps);
}

// Gives the move that a finish would make next: kind, terminal, edge and how many steps; and the steps, a byte each.
pub fn vulprow_parts_hint<'a>(
    numbers: &'a [u32; NUMBERS],
    edges: &'a [[u32; Board::MAX_EDGES]; EDGE_ROWS],
    terminals: &'a [[u32; Board::MAX_TERMINALS]; TERMINAL_ROWS],
    marks: &'a EdgeSet,
    journal: &[[u64; WORDS]; Board::JOURNAL],
    parts: &mut [u32; MOVE_NUMBERS],
    steps: &mut [u8; Board::MAX_EDGES],
) -> u32
    ensures value { result ≡ (hint_call (board_of (memory numbers.now edges.now
        terminals.now marks.now journal.now))).answer }
    ensures parts_after { parts.new ≡ advice_numbers (hint_call (board_of (memory numbers.now
        edges.now terminals.now marks.now journal.now))).advice }
    ensures steps_after { steps.new ≡ advice_bytes (hint_call (board_of (memory numbers.now
        edges.now terminals.now marks.now journal.now))).advice }
{
    let board = boundary_parts::board_in(numbers, edges, terminals, marks);
    match solve_next::hint(board, journal) {
        Ok(advice) => {
            show_hint(advice, parts, steps);
            0
        }
        Err(refusal) => {
            show_hint(None, parts, steps);
            u32::from(refusal)
        }
    }
}

// Writes the route report of a finished board; `used` gets its length.
pub fn vulprow_parts_sheet<'a>(
    numbers: &'a [u32; NUMBERS],
    edges: &'a [[u32; Board::MAX_EDGES]; EDGE_ROWS],
    terminals: &'a [[u32; Board::MAX_TERMINALS]; TERMINAL_ROWS],
    marks: &'a EdgeSet,
    journal: &[[u64; WORDS]; Board::JOURNAL],
    buf: &mut [u8],
    used: &mut usize,
) -> u32
    ensures value { result ≡ (sheet_call (board_of (memory numbers.now edges.now
        terminals.now marks.now journal.now)) (length buf.old)).answer }
    ensures used_after { used.new ≡ (sheet_call (board_of (memory numbers.now edges.now
        terminals.now marks.now journal.now)) (length buf.old)).used }
    ensures buf_after { buf.new ≡ sheeted (board_of (memory numbers.now edges.now
        terminals.now marks.now journal.now)) buf.old }
{
    let board = boundary_parts::board_in(numbers, edges, terminals, marks);
    let sheet = report::sheet(board, journal, buf);
    store_used(sheet, used)
}

// Writes the text that was loaded; `used` gets its length.
pub fn vulprow_parts_write<'a>(
    numbers: &'a [u32; NUMBERS],
    edges: &'a [[u32; Board::MAX_EDGES]; EDGE_ROWS],
    terminals: &'a [[u32; Board::MAX_TERMINALS]; TERMINAL_ROWS],
    marks: &'a EdgeSet,
    journal: &[[u64; WORDS]; Board::JOURNAL],
    buf: &mut [u8],
    used: &mut usize,
) -> u32
    ensures value { result ≡ (write_text (board_of (memory numbers.now edges.now
        terminals.now marks.now journal.now)) (length buf.old)).answer }
    ensures used_after { used.new ≡ (write_text (board_of (memory numbers.now edges.now
        terminals.now marks.now journal.now)) (length buf.old)).used }
    ensures buf_after { buf.new ≡ written (board_of (memory numbers.now edges.now
        terminals.now marks.now journal.now)) buf.old }
{
    let board = boundary_parts::board_in(numbers, edges, terminals, marks);
    let text = text_writer::write(board, buf);
    store_used(text, used)
}

// Writes the text of a board of the catalog; `used` gets its length.
pub fn vulprow_parts_catalog(number: u32, buf: &mut [u8], used: &mut usize) -> u32
    ensures value { result ≡ (catalog_call number (length buf.old)).answer }
    ensures used_after { used.new ≡ (catalog_call number (length buf.old)).used }
    ensures buf_after { buf.new ≡ catalogued number buf.old }
{
    let board_text = catalog::write(number, buf);
    store_used(board_text, used)
}

// Gives what a screen draws: numbers, rows over the edges and rows over the terminals.
pub fn vulprow_parts_look<'a>(
    numbers: &'a [u32; NUMBERS],
    edges: &'a [[u32; Board::MAX_EDGES]; EDGE_ROWS],
    terminals: &'a [[u32; Board::MAX_TERMINALS]; TERMINAL_ROWS],
    marks: &'a EdgeSet,
    journal: &[[u64; WORDS]; Board::JOURNAL],
    counts: &mut [u32; VIEW_NUMBERS],
    lines: &mut [[u32; Board::MAX_EDGES]; EDGE_ROWS],
    posts: &mut [[u32; Board::MAX_TERMINALS]; TERMINAL_ROWS],
) -> u32
    ensures value { result ≡ look_refusal (board_of (memory numbers.now edges.now
        terminals.now marks.now journal.now)) }
    ensures counts_after { counts.new ≡ view_numbers (board_of (memory numbers.now edges.now
        terminals.now marks.now journal.now)) }
    ensures lines_after { lines.new ≡ view_edges (board_of (memory numbers.now edges.now
        terminals.now marks.now journal.now)) }
    ensures posts_after { posts.new ≡ view_terminals (board_of (memory numbers.now edges.now
        terminals.now marks.now journal.now)) }
{
    let board = boundary_parts::board_in(numbers, edges, terminals, marks);
    if !move_guard::loaded(board, journal) {
        *counts = [0; VIEW_NUMBERS];
        *lines = [[0; Board::MAX_EDGES]; EDGE_ROWS];
        *posts = [[0; Board::MAX_TERMINALS]; TERMINAL_ROWS];
        return u32::from(Refusal::NotLoaded);
    }
    boundary_parts::show_board(board, counts, lines, posts);
    0
}

// Gives the standing move at a place: numbers and rows over the edges.
pub fn vulprow_parts_journal<'a>(
    numbers: &'a [u32; NUMBERS],
    edges: &'a [[u32; Board::MAX_EDGES]; EDGE_ROWS],
    terminals: &'a [[u32; Board::MAX_TERMINALS]; TERMINAL_ROWS],
    marks: &'a EdgeSet,
    journal: &[[u64; WORDS]; Board::JOURNAL],
    place: u32,
    parts: &mut [u32; ENTRY_NUMBERS],
    rows: &mut [[u32; Board::MAX_EDGES]; ENTRY_ROWS],
) -> u32
    ensures value { result ≡ entry_refusal (board_of (memory numbers.now edges.now
        terminals.now marks.now journal.now)) place }
    ensures parts_after { parts.new ≡ entry_numbers (board_of (memory numbers.now edges.now
        terminals.now marks.now journal.now)) place }
    ensures rows_after { rows.new ≡ entry_rows (board_of (memory numbers.now edges.now
        terminals.now marks.now journal.now)) place }
{
    let board = boundary_parts::board_in(numbers, edges, terminals, marks);
    match boundary_parts::entry_refusal(board, journal, place) {
        Ok(()) => {
            let entry = journal::entry_at(journal, place as usize);
            boundary_parts::show_move(entry.step, parts, rows);
            0
        }
        Err(refusal) => {
            *parts = [0; ENTRY_NUMBERS];
            *rows = [[0; Board::MAX_EDGES]; ENTRY_ROWS];
            u32::from(refusal)
        }
    }
}

// Gives the numbers that the header has as macros and in enums.
pub fn vulprow_parts_limits(out: &mut [u32; boundary_parts::LIMITS])
    ensures { out.new ≡ engine_limits }
{
    *out = [
        boundary_parts::VERSION,
        Board::MAX_VERTICES as u32,
        Board::MAX_EDGES as u32,
        Board::MAX_TERMINALS as u32,
        Board::MAX_EDGES as u32,
        Board::JOURNAL as u32,
        boundary_parts::TEXT_BYTES,
        boundary_parts::SHEET_BYTES,
        Board::CLOSED,
        Board::PLAY,
        Board::FINISHED,
        Advice::NONE,
        Advice::CARRY,
        Advice::TURN,
        move_cycle::UP_BYTE as u32,
    ];
}
