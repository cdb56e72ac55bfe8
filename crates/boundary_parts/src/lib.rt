// A game's memory, as C lends it, and the rows of what calls give.
#![tactic(auto)]

ghost use Rattle.std.specs.Prelude.{◌≡◌, [], map, length};
ghost use Rattle.board.specs.Limits.{max_edges};
ghost use Rattle.board.specs.Whole.{Carry, Turn, relocation_of, augmentation_of, move_of};
ghost use Rattle.lists.specs.Lists.{tabulated};
ghost use Rattle.refusals.specs.Refusals.{answer_of};
ghost use Rattle.boundary_parts.specs.Shown.{
  byte_at,
  marked_in,
  way_in,
  elements,
  in_row,
  move_numbers,
  move_rows,
  board_numbers,
  board_edges,
  board_terminals,
  entry_refusal,
};
ghost use Rattle.boundary_parts.specs.Inner.{IsBoardOf};
ghost use Rattle.sets.specs.Sets.{set_of};
ghost use Rattle.journal.specs.Words.{whole_of};
ghost use Rattle.boundary_parts.specs.Memory.{
  stage_read,
  network_in,
  version_of,
  numbers_of,
  edge_rows,
  terminal_rows,
};

use board::{Augmentation, Board, Move, Network, Relocation};
use journal::WORDS;
use move_cycle::StepCode;
use refusals::Refusal;
use sets::EdgeSet;
use solve_next::Advice;

// What the memory of a loaded game begins with. It rises when the form of the memory changes.
pub const VERSION: u32 = 1;

// The parts of a game's memory: how many numbers, rows over the edges and rows over the terminals there are.
// C lends them one by one (`vulprow_parts_load` and the others), so they stay parameters beside one another.
pub const NUMBERS: usize = 8;

pub const EDGE_ROWS: usize = 5;

pub const TERMINAL_ROWS: usize = 3;

// How many numbers the header has of the engine's.
pub const LIMITS: usize = 15;

// The bytes of the longest board text and of the longest route report.
pub const TEXT_BYTES: u32 = 1246;

pub const SHEET_BYTES: u32 = 2948;

// What the view of a board has before its rows: how many numbers. Its rows are as many as the memory's.
pub const VIEW_NUMBERS: usize = 6;

// A hint's move: how many numbers come with its steps.
pub const MOVE_NUMBERS: usize = 4;

// A standing move: how many numbers and rows over the edges.
pub const ENTRY_NUMBERS: usize = 6;

pub const ENTRY_ROWS: usize = 3;

// The stage of a board whose memory begins with these two numbers.
fn stage_in(first: u32, stage: u32) -> u32
    ensures { result ≡ stage_read first stage }
{
    if first == VERSION {
        stage
    } else {
        Board::CLOSED
    }
}

// The network that the memory has.
fn network_in<'a>(
    numbers: &'a [u32; NUMBERS],
    edges: &'a [[u32; Board::MAX_EDGES]; EDGE_ROWS],
    terminals: &'a [[u32; Board::MAX_TERMINALS]; TERMINAL_ROWS],
) -> Network
    ensures { result ≡ network_in numbers.now edges.now terminals.now }
{
    Network {
        vertices: numbers[2],
        edges: numbers[3],
        terminals: numbers[4],
        source: numbers[5],
        tails: edges[0],
        heads: edges[1],
        flows: edges[2],
        homes: terminals[0],
        demands: terminals[1],
    }
}

// The board that the memory stands for, without its journal.
pub fn board_in<'a>(
    numbers: &'a [u32; NUMBERS],
    edges: &'a [[u32; Board::MAX_EDGES]; EDGE_ROWS],
    terminals: &'a [[u32; Board::MAX_TERMINALS]; TERMINAL_ROWS],
    marks: &'a EdgeSet,
) -> Board
    ensures { IsBoardOf result numbers.now edges.now terminals.now
        marks.now }
{
    Board {
        stage: stage_in(numbers[0], numbers[1]),
        network: network_in(numbers, edges, terminals),
        acyclic: edges[3],
        flows: edges[4],
        marks: *marks,
        places: terminals[2],
        moves: numbers[6],
        finish_from: numbers[7],
    }
}

// What the memory of a board of this stage begins with.
fn version_of(stage: u32) -> u32
    ensures { result ≡ version_of stage }
{
    if stage == Board::CLOSED { 0 } else { VERSION }
}

// Stores a board, without its journal, in the memory.
pub fn store(
    board: Board,
    numbers: &mut [u32; NUMBERS],
    edges: &mut [[u32; Board::MAX_EDGES]; EDGE_ROWS],
    terminals: &mut [[u32; Board::MAX_TERMINALS]; TERMINAL_ROWS],
    marks: &mut EdgeSet,
)
    ensures numbers_after { numbers.new ≡ numbers_of (whole_of board []) }
    ensures edges_after { edges.new ≡ edge_rows (whole_of board []) }
    ensures terminals_after { terminals.new ≡ terminal_rows (whole_of board []) }
    ensures marks_after { set_of marks.new ≡ set_of board.marks }
{
    let net = board.network;
    *numbers = [
        version_of(board.stage),
        board.stage,
        net.vertices,
        net.edges,
        net.terminals,
        net.source,
        board.moves,
        board.finish_from,
    ];
    let tails = net.tails;
    let heads = net.heads;
    let texts = net.flows;
    let acyclic = board.acyclic;
    let flows = board.flows;
    *edges = [tails, heads, texts, acyclic, flows];
    let homes = net.homes;
    let demands = net.demands;
    let places = board.places;
    *terminals = [homes, demands, places];
    *marks = board.marks;
}

// ---- The rows of what calls give.

// The edges of a set by ascending number, and of each whether it is in another set; zeros behind them.
// C's memory has rows of a fixed length (`vulprow_parts_journal`), so the count stands beside them.
#[derive(Clone, Copy)]
pub struct EdgeList {
    pub count: u32,
    pub edges: [u32; Board::MAX_EDGES],
    pub ways: [u32; Board::MAX_EDGES],
}

// The steps of a hint as bytes.
pub fn step_bytes(steps: [StepCode; Board::MAX_EDGES]) -> [u8; Board::MAX_EDGES]
    ensures { result ≡ tabulated (byte_at steps) 0 max_edges }
{
    let mut bytes = [0u8; Board::MAX_EDGES];
    for (i, code) in steps.iter().enumerate() {
        bytes[i] = move_cycle::encoded(*code);
    }
    bytes
}

// Of each edge of the board whether it is marked.
pub fn marked_row(edges: u32, marks: EdgeSet) -> [u32; Board::MAX_EDGES]
    ensures { result ≡ tabulated (marked_in edges (set_of marks)) 0 max_edges }
{
    let mut row = [0u32; Board::MAX_EDGES];
    for e in 0..Board::MAX_EDGES {
        row[e] = u32::from(lists::and(e < edges as usize, sets::has(marks, e)));
    }
    row
}

// The edges of a set by ascending number, and of each whether it is one of `ups`.
pub fn elements(set: EdgeSet, ups: EdgeSet) -> EdgeList
    ensures count_value { result.count ≡ length (elements (set_of set)) }
    ensures edges_value { result.edges ≡ in_row (elements (set_of set)) }
    ensures ways_value { result.ways ≡ in_row (map (way_in (set_of ups)) (elements (set_of set))) }
{
    let mut edges = [0u32; Board::MAX_EDGES];
    let mut ways = [0u32; Board::MAX_EDGES];
    let mut count: usize = 0;
    for e in 0..Board::MAX_EDGES {
        if sets::has(set, e) {
            edges[count] = e as u32;
            ways[count] = u32::from(sets::has(ups, e));
            count += 1;
        }
    }
    EdgeList {
        count: count as u32,
        edges,
        ways,
    }
}

// A move of the journal in numbers and rows.
pub fn show_move(
    step: Move,
    numbers: &mut [u32; ENTRY_NUMBERS],
    rows: &mut [[u32; Board::MAX_EDGES]; ENTRY_ROWS],
)
    ensures numbers_after { numbers.new ≡ move_numbers (move_of step) }
    ensures rows_after { rows.new ≡ move_rows (move_of step) }
{
    match step {
        Move::Carry(carry) => {
            *numbers = [Advice::CARRY, carry.terminal, carry.edge, 0, 0, 0];
            *rows = [[0; Board::MAX_EDGES]; ENTRY_ROWS];
        }
        Move::Turn(turn) => {
            let cycle = elements(sets::joined(turn.down, turn.up), turn.up);
            let newly = elements(turn.marked, sets::none());
            *numbers = [Advice::TURN, 0, 0, turn.amount, cycle.count, newly.count];
            let edges = cycle.edges;
            let ways = cycle.ways;
            let marked = newly.edges;
            *rows = [edges, ways, marked];
        }
    }
}

// What a screen draws of a board.
pub fn show_board(
    board: Board,
    numbers: &mut [u32; VIEW_NUMBERS],
    edges: &mut [[u32; Board::MAX_EDGES]; EDGE_ROWS],
    terminals: &mut [[u32; Board::MAX_TERMINALS]; TERMINAL_ROWS],
)
    ensures numbers_after { numbers.new ≡ board_numbers (whole_of board []) }
    ensures edges_after { edges.new ≡ board_edges (whole_of board []) }
    ensures terminals_after { terminals.new ≡ board_terminals (whole_of board []) }
{
    let net = board.network;
    *numbers = [
        board.stage,
        net.vertices,
        net.edges,
        net.terminals,
        net.source,
        board.moves,
    ];
    let marked = marked_row(net.edges, board.marks);
    let tails = net.tails;
    let heads = net.heads;
    let acyclic = board.acyclic;
    let flows = board.flows;
    *edges = [tails, heads, acyclic, flows, marked];
    let homes = net.homes;
    let places = board.places;
    let demands = net.demands;
    *terminals = [homes, places, demands];
}

// Whether a move stands at a place: not where no board was loaded, then not where no move stands there.
pub fn entry_refusal(
    board: Board,
    journal: &[[u64; WORDS]; Board::JOURNAL],
    place: u32,
) -> Result<(), Refusal>
    ensures { answer_of result ≡ entry_refusal (whole_of board journal.now) place }
{
    if !move_guard::loaded(board, journal) {
        return Err(Refusal::NotLoaded);
    }
    if place < board.moves {
        Ok(())
    } else {
        Err(Refusal::OutOfRange)
    }
}
