// What C links: the calls of crates/boundary under their own names, each with its clauses. library/vulprow.c has the
// functions of include/vulprow.h, each of which makes one of these calls.
// C links each export by its name, so each is a function of its own with the clauses of its call in crates/boundary.
#![tactic(auto)]

ghost use Rattle.std.specs.Prelude.{◌≡◌, length};
ghost use Rattle.text.specs.Results.{write_text, written};
ghost use Rattle.load.specs.Load.{load_text};
ghost use Rattle.move_cycle.specs.Steps.{steps_of};
ghost use Rattle.solve_next.specs.Hints.{hint_call};
ghost use Rattle.solve_finish.specs.Finishes.{finish_call};
ghost use Rattle.report.specs.Reports.{sheet_call, sheeted};
ghost use Rattle.catalog.specs.Catalog.{catalog_call, catalogued};
ghost use Rattle.move_list.specs.Calls.{carry, turn, undo, finish};
ghost use Rattle.boundary_parts.specs.Memory.{memory, board_of, memory_loaded};
ghost use Rattle.boundary_parts.specs.Games.{memory_answer, memory_made};
ghost use Rattle.boundary_parts.specs.Shown.{
  advice_numbers,
  advice_bytes,
  look_refusal,
  view_numbers,
  view_edges,
  view_terminals,
  entry_refusal,
  entry_numbers,
  entry_rows,
  engine_limits,
};

use board::Board;
use boundary_parts::{
    EDGE_ROWS, ENTRY_NUMBERS, ENTRY_ROWS, MOVE_NUMBERS, NUMBERS, TERMINAL_ROWS, VIEW_NUMBERS,
};
use journal::WORDS;
use sets::EdgeSet;

// Reads a board text and opens it for play. Answers what the load answered; the memory is then that of the board that
// it gave, with no move standing.
#[unsafe(no_mangle)]
pub extern "C" fn vulprow_parts_load(
    numbers: &mut [u32; NUMBERS],
    edges: &mut [[u32; Board::MAX_EDGES]; EDGE_ROWS],
    terminals: &mut [[u32; Board::MAX_TERMINALS]; TERMINAL_ROWS],
    marks: &mut EdgeSet,
    journal: &mut [[u64; WORDS]; Board::JOURNAL],
    text: &[u8],
) -> u32
    ensures value { result ≡ (load_text text.now).answer }
    ensures journal_after { memory numbers.new edges.new terminals.new marks.new
        journal.new ≡ memory_loaded (load_text text.now).board }
{
    boundary::vulprow_parts_load(numbers, edges, terminals, marks, journal, text)
}

// Relocates a terminal over an edge.
#[unsafe(no_mangle)]
pub extern "C" fn vulprow_parts_carry(
    numbers: &mut [u32; NUMBERS],
    edges: &mut [[u32; Board::MAX_EDGES]; EDGE_ROWS],
    terminals: &mut [[u32; Board::MAX_TERMINALS]; TERMINAL_ROWS],
    marks: &mut EdgeSet,
    journal: &mut [[u64; WORDS]; Board::JOURNAL],
    terminal: u32,
    edge: u32,
) -> u32
    ensures value { result ≡ memory_answer (memory numbers.old edges.old terminals.old
        marks.old journal.old) (carry terminal edge) }
    ensures journal_after { memory numbers.new edges.new terminals.new marks.new
        journal.new ≡
        memory_made (memory numbers.old edges.old terminals.old
        marks.old journal.old) (carry terminal edge) }
{
    boundary::vulprow_parts_carry(numbers, edges, terminals, marks, journal, terminal, edge)
}

// Augments along a cycle, a byte a step.
#[unsafe(no_mangle)]
pub extern "C" fn vulprow_parts_turn(
    numbers: &mut [u32; NUMBERS],
    edges: &mut [[u32; Board::MAX_EDGES]; EDGE_ROWS],
    terminals: &mut [[u32; Board::MAX_TERMINALS]; TERMINAL_ROWS],
    marks: &mut EdgeSet,
    journal: &mut [[u64; WORDS]; Board::JOURNAL],
    steps: &[u8],
) -> u32
    ensures value { result ≡ memory_answer (memory numbers.old edges.old terminals.old
        marks.old journal.old) (turn (steps_of steps.now)) }
    ensures journal_after { memory numbers.new edges.new terminals.new marks.new
        journal.new ≡
        memory_made (memory numbers.old edges.old terminals.old
        marks.old journal.old) (turn (steps_of steps.now)) }
{
    boundary::vulprow_parts_turn(numbers, edges, terminals, marks, journal, steps)
}

// Takes the last standing move back, or a finish that stands.
#[unsafe(no_mangle)]
pub extern "C" fn vulprow_parts_undo(
    numbers: &mut [u32; NUMBERS],
    edges: &mut [[u32; Board::MAX_EDGES]; EDGE_ROWS],
    terminals: &mut [[u32; Board::MAX_TERMINALS]; TERMINAL_ROWS],
    marks: &mut EdgeSet,
    journal: &mut [[u64; WORDS]; Board::JOURNAL],
) -> u32
    ensures value { result ≡ memory_answer (memory numbers.old edges.old terminals.old
        marks.old journal.old) undo }
    ensures journal_after { memory numbers.new edges.new terminals.new marks.new
        journal.new ≡
        memory_made (memory numbers.old edges.old terminals.old
        marks.old journal.old) undo }
{
    boundary::vulprow_parts_undo(numbers, edges, terminals, marks, journal)
}

// Plays to the end; `count` gets how many moves that took.
#[unsafe(no_mangle)]
pub extern "C" fn vulprow_parts_finish(
    numbers: &mut [u32; NUMBERS],
    edges: &mut [[u32; Board::MAX_EDGES]; EDGE_ROWS],
    terminals: &mut [[u32; Board::MAX_TERMINALS]; TERMINAL_ROWS],
    marks: &mut EdgeSet,
    journal: &mut [[u64; WORDS]; Board::JOURNAL],
    count: &mut u32,
) -> u32
    ensures value { result ≡ memory_answer (memory numbers.old edges.old terminals.old
        marks.old journal.old) finish }
    ensures count_after { count.new ≡ (finish_call (board_of (memory numbers.old edges.old
        terminals.old marks.old journal.old))).count }
    ensures journal_after { memory numbers.new edges.new terminals.new marks.new
        journal.new ≡
        memory_made (memory numbers.old edges.old terminals.old
        marks.old journal.old) finish }
{
    boundary::vulprow_parts_finish(numbers, edges, terminals, marks, journal, count)
}

// Gives the move that a finish would make next: kind, terminal, edge and how many steps; and the steps, a byte each.
#[unsafe(no_mangle)]
pub extern "C" fn vulprow_parts_hint<'a>(
    numbers: &'a [u32; NUMBERS],
    edges: &'a [[u32; Board::MAX_EDGES]; EDGE_ROWS],
    terminals: &'a [[u32; Board::MAX_TERMINALS]; TERMINAL_ROWS],
    marks: &'a EdgeSet,
    journal: &[[u64; WORDS]; Board::JOURNAL],
    parts: &mut [u32; MOVE_NUMBERS],
    steps: &mut [u8; Board::MAX_EDGES],
) -> u32
    ensures value { result ≡ (hint_call (board_of (memory numbers.now edges.now
        terminals.now marks.now journal.now))).answer }
    ensures parts_after { parts.new ≡ advice_numbers (hint_call (board_of (memory numbers.now
        edges.now terminals.now marks.now journal.now))).advice }
    ensures steps_after { steps.new ≡ advice_bytes (hint_call (board_of (memory numbers.now
        edges.now terminals.now marks.now journal.now))).advice }
{
    boundary::vulprow_parts_hint(numbers, edges, terminals, marks, journal, parts, steps)
}

// Writes the route report of a finished board; `used` gets its length.
#[unsafe(no_mangle)]
pub extern "C" fn vulprow_parts_sheet<'a>(
    numbers: &'a [u32; NUMBERS],
    edges: &'a [[u32; Board::MAX_EDGES]; EDGE_ROWS],
    terminals: &'a [[u32; Board::MAX_TERMINALS]; TERMINAL_ROWS],
    marks: &'a EdgeSet,
    journal: &[[u64; WORDS]; Board::JOURNAL],
    buf: &mut [u8],
    used: &mut usize,
) -> u32
    ensures value { result ≡ (sheet_call (board_of (memory numbers.now edges.now
        terminals.now marks.now journal.now)) (length buf.old)).answer }
    ensures used_after { used.new ≡ (sheet_call (board_of (memory numbers.now edges.now
        terminals.now marks.now journal.now)) (length buf.old)).used }
    ensures buf_after { buf.new ≡ sheeted (board_of (memory numbers.now edges.now
        terminals.now marks.now journal.now)) buf.old }
{
    boundary::vulprow_parts_sheet(numbers, edges, terminals, marks, journal, buf, used)
}

// Writes the text that was loaded; `used` gets its length.
#[unsafe(no_mangle)]
pub extern "C" fn vulprow_parts_write<'a>(
    numbers: &'a [u32; NUMBERS],
    edges: &'a [[u32; Board::MAX_EDGES]; EDGE_ROWS],
    terminals: &'a [[u32; Board::MAX_TERMINALS]; TERMINAL_ROWS],
    marks: &'a EdgeSet,
    journal: &[[u64; WORDS]; Board::JOURNAL],
    buf: &mut [u8],
    used: &mut usize,
) -> u32
    ensures value { result ≡ (write_text (board_of (memory numbers.now edges.now
        terminals.now marks.now journal.now)) (length buf.old)).answer }
    ensures used_after { used.new ≡ (write_text (board_of (memory numbers.now edges.now
        terminals.now marks.now journal.now)) (length buf.old)).used }
    ensures buf_after { buf.new ≡ written (board_of (memory numbers.now edges.now
        terminals.now marks.now journal.now)) buf.old }
{
    boundary::vulprow_parts_write(numbers, edges, terminals, marks, journal, buf, used)
}

// Writes the text of a board of the catalog; `used` gets its length.
#[unsafe(no_mangle)]
pub extern "C" fn vulprow_parts_catalog(number: u32, buf: &mut [u8], used: &mut usize) -> u32
    ensures value { result ≡ (catalog_call number (length buf.old)).answer }
    ensures used_after { used.new ≡ (catalog_call number (length buf.old)).used }
    ensures buf_after { buf.new ≡ catalogued number buf.old }
{
    boundary::vulprow_parts_catalog(number, buf, used)
}

// Gives what a screen draws: numbers, rows over the edges and rows over the terminals.
#[unsafe(no_mangle)]
pub extern "C" fn vulprow_parts_look<'a>(
    numbers: &'a [u32; NUMBERS],
    edges: &'a [[u32; Board::MAX_EDGES]; EDGE_ROWS],
    terminals: &'a [[u32; Board::MAX_TERMINALS]; TERMINAL_ROWS],
    marks: &'a EdgeSet,
    journal: &[[u64; WORDS]; Board::JOURNAL],
    counts: &mut [u32; VIEW_NUMBERS],
    lines: &mut [[u32; Board::MAX_EDGES]; EDGE_ROWS],
    posts: &mut [[u32; Board::MAX_TERMINALS]; TERMINAL_ROWS],
) -> u32
    ensures value { result ≡ look_refusal (board_of (memory numbers.now edges.now
        terminals.now marks.now journal.now)) }
    ensures counts_after { counts.new ≡ view_numbers (board_of (memory numbers.now edges.now
        terminals.now marks.now journal.now)) }
    ensures lines_after { lines.new ≡ view_edges (board_of (memory numbers.now edges.now
        terminals.now marks.now journal.now)) }
    ensures posts_after { posts.new ≡ view_terminals (board_of (memory numbers.now edges.now
        terminals.now marks.now journal.now)) }
{
    boundary::vulprow_parts_look(
        numbers, edges, terminals, marks, journal, counts, lines, posts,
    )
}

// Gives the standing move at a place: numbers and rows over the edges.
#[unsafe(no_mangle)]
pub extern "C" fn vulprow_parts_journal<'a>(
    numbers: &'a [u32; NUMBERS],
    edges: &'a [[u32; Board::MAX_EDGES]; EDGE_ROWS],
    terminals: &'a [[u32; Board::MAX_TERMINALS]; TERMINAL_ROWS],
    marks: &'a EdgeSet,
    journal: &[[u64; WORDS]; Board::JOURNAL],
    place: u32,
    parts: &mut [u32; ENTRY_NUMBERS],
    rows: &mut [[u32; Board::MAX_EDGES]; ENTRY_ROWS],
) -> u32
    ensures value { result ≡ entry_refusal (board_of (memory numbers.now edges.now
        terminals.now marks.now journal.now)) place }
    ensures parts_after { parts.new ≡ entry_numbers (board_of (memory numbers.now edges.now
        terminals.now marks.now journal.now)) place }
    ensures rows_after { rows.new ≡ entry_rows (board_of (memory numbers.now edges.now
        terminals.now marks.now journal.now)) place }
{
    boundary::vulprow_parts_journal(
        numbers, edges, terminals, marks, journal, place, parts, rows,
    )
}

// Gives the numbers that the header has as macros and in enums.
#[unsafe(no_mangle)]
pub extern "C" fn vulprow_parts_limits(out: &mut [u32; boundary_parts::LIMITS])
    ensures { out.new ≡ engine_limits }
{
    boundary::vulprow_parts_limits(out);
}
