// The call `sheet`: the route report.
#![tactic(auto)]

ghost use Rattle.std.specs.Prelude.{◌≡◌, ◌∷◌, ℕ, ◌+◌, ◌*◌, ◌≤◌, ◌<◌, leb, length, get_or, take, IfOk};
ghost use Rattle.std.proofs.lemmas.List.Edits.{sets};
ghost use Rattle.board.specs.Limits.{max_vertices, max_edges, max_terminals};
ghost use Rattle.journal.specs.Words.{whole_of};
ghost use Rattle.text.specs.Text.{line_text, lines_text};
ghost use Rattle.text.specs.Sizes.{line_bytes, line_numbers, routes_bytes, loads_bytes, report_bytes};
ghost use Rattle.text.specs.Room.{start_most, line_start_most};
ghost use Rattle.report_routes.specs.Inner.{Moderate};
ghost use Rattle.report.specs.Reports.{unreported_in, sheet_call, sheeted, put_call, put_in};
ghost use Rattle.refusals.specs.Refusals.{answer_of};
ghost use Rattle.text.specs.Results.{as_written};
ghost use Rattle.sets.specs.Inner.{sets_of};
ghost use Rattle.report.specs.Rows.{set_load_row, table_route_row, table_load_row, table_text, Printable};

use board::{Board, Network};
use journal::WORDS;
use refusals::Refusal;
use report_routes::Routes;
use std::convert::AsSlice;

// How many numbers the line of a route has at most: the terminal, how many edges, and the edges.
const ROUTE_NUMBERS: usize = Board::MAX_VERTICES + 2;

// A report has at most so many bytes: a line of 2 numbers, one of ROUTE_NUMBERS for each terminal, and one of 3 for
// each edge. A line of n numbers has at most 2 + 11 × n.
pub const REPORT_BYTES: usize = 24
    + (2 + 11 * ROUTE_NUMBERS) * Board::MAX_TERMINALS
    + 35 * Board::MAX_EDGES;

// Refuses a loaded board that has no report, with 29 or 28, in this order. `fit`: its routes have room in their rows.
#[tactic(auto, unfolding(lists::specs::Choice::pick))]
fn unreported_in(stage: u32, fit: bool) -> Result<(), Refusal>
    ensures { answer_of result ≡ unreported_in stage fit }
{
    if !fit {
        Err(Refusal::NotLoaded)
    } else if stage != Board::FINISHED {
        Err(Refusal::NotFinished)
    } else {
        Ok(())
    }
}

// The line of a route: its numbers are the first of these, used of them.
// No heap: the places are fixed, so the count stands beside them.
#[derive(Clone, Copy)]
struct RouteRow {
    numbers: [u32; ROUTE_NUMBERS],
    used: usize,
    ghost within: { used ≤ length numbers },
}

impl AsSlice<u32> for RouteRow {
    ghost items = { λ row. take row.used row.numbers };

    fn as_slice(&self) -> &[u32] {
        &self.numbers[..self.used]
    }
}

// The line of a terminal's route, whose edges are the first of these, count of them.
fn route_row(terminal: u32, count: u32, edges: [u32; Board::MAX_VERTICES]) -> RouteRow
    requires { count ≤ max_vertices }
    ensures { take result.used result.numbers ≡ terminal ∷ count ∷ take count edges }
{
    let mut numbers = [0u32; ROUTE_NUMBERS];
    numbers[0] = terminal;
    numbers[1] = count;
    numbers[2..].copy_from_slice(&edges);
    let used = count as usize + 2;
    RouteRow { numbers, used }
}

// Writes the lines of the routes.
fn put_routes(buf: &mut [u8], at: usize, routes: &Routes, terminals: u32) -> usize
    requires { (at ≤ start_most + line_bytes 2)
        × ((terminals ≤ max_terminals) × ((i : ℕ) → i < terminals → get_or routes.now.counts i 0 ≤ max_vertices)) }
    ensures value { result ≡ at
        + length (lines_text 77 (table_route_row routes.now.counts routes.now.rows) 0 terminals) }
    ensures upper_bound { result ≤ at + routes_bytes }
    ensures buf_after { buf.new ≡ sets buf.old at
        (lines_text 77 (table_route_row routes.now.counts routes.now.rows) 0 terminals) }
{
    // Tried: a closure over `routes` itself. Its proof did not close, so it holds the two tables.
    let counts = &routes.counts;
    let rows = &routes.rows;
    let row = move |i: usize|
        requires few { i < max_terminals }
        requires fits { get_or counts.now i 0 ≤ max_vertices }
        ensures { take result.used result.numbers ≡ table_route_row counts.entry.now rows.entry.now i }
    { route_row(i as u32, counts[i], rows[i]) };
    text_writer::put_rows(buf, at, b'M', terminals as usize, row)
}

// Writes the lines of the loads.
fn put_loads(
    buf: &mut [u8],
    at: usize,
    net: Network,
    acyclic: &[u32; Board::MAX_EDGES],
    routes: &Routes,
) -> usize
    requires { (at ≤ start_most + (line_bytes 2 + routes_bytes))
        × ((net.edges ≤ max_edges) × ((net.terminals ≤ max_terminals) × Moderate net.demands)) }
    ensures value { result ≡ at + length (lines_text 76
        (table_load_row net acyclic.now routes.now.counts routes.now.rows) 0 net.edges) }
    ensures upper_bound { result ≤ at + loads_bytes }
    ensures buf_after { buf.new ≡ sets buf.old at (lines_text 76
        (table_load_row net acyclic.now routes.now.counts routes.now.rows) 0 net.edges) }
{
    let terminals = net.terminals;
    let demands = net.demands;
    let edges = report_routes::edge_sets(routes, terminals);
    let row = move |e: usize|
        requires edge { e < max_edges }
        requires few { (terminals ≤ max_terminals) × Moderate demands }
        ensures { result ≡ set_load_row acyclic.entry.now demands (sets_of edges) terminals e }
    {
        let load = report_routes::load(&edges, &demands, terminals, e as u32);
        [e as u32, acyclic[e], load]
    };
    text_writer::put_rows(buf, at, b'L', net.edges as usize, row)
}

// Writes the report by the routes at a place of the buffer, and answers the place behind it. A byte past the end of the
// buffer is dropped.
fn put_tables(
    buf: &mut [u8],
    at: usize,
    net: Network,
    acyclic: &[u32; Board::MAX_EDGES],
    routes: &Routes,
) -> usize
    requires { (at ≤ start_most) × Printable net routes.now.counts }
    ensures value { result ≡ at
        + length (table_text net acyclic.now routes.now.counts routes.now.rows) }
    ensures upper_bound { result ≤ at + report_bytes }
    ensures buf_after { buf.new ≡ sets buf.old at
        (table_text net acyclic.now routes.now.counts routes.now.rows) }
{
    let sizes = [net.terminals, net.edges];
    let head = text_writer::put_line(buf, at, b'R', &sizes);
    let to = put_routes(buf, head, routes, net.terminals);
    put_loads(buf, to, net, acyclic, routes)
}

// Whether the report has room in so many bytes: it is measured by writing it into a buffer that drops it.
fn has_room(room: usize, net: Network, acyclic: &[u32; Board::MAX_EDGES], routes: &Routes) -> bool
    requires { Printable net routes.now.counts }
    ensures { result ≡
        leb (length (table_text net acyclic.now routes.now.counts routes.now.rows)) room }
{
    let mut none = [0u8; 1];
    let length = put_tables(&mut none, 0, net, acyclic, routes);
    length <= room
}

// Writes the report of a board at a place of the buffer, and answers its length, or why it is refused. A byte past the
// end of the buffer is dropped. Where the report is to be whole, a buffer that is shorter than it is refused: the whole
// buffer is measured and not what is left of it behind the place, so that is asked for at place 0 alone. The routes are
// looked at where the board was loaded, and its counts are within the limits.
pub fn put_sheet(
    buf: &mut [u8],
    at: usize,
    whole: bool,
    board: Board,
    journal: &[[u64; WORDS]; Board::JOURNAL],
) -> Result<usize, Refusal>
    requires { at ≤ start_most }
    ensures value { as_written result ≡ put_call (whole_of board journal.now) whole (length buf.old) }
    ensures used_le_report_bytes { IfOk result (λ used. used ≤ report_bytes) }
    ensures buf_after { buf.new ≡ put_in (whole_of board journal.now) whole buf.old at }
{
    if !move_guard::loaded(board, journal) {
        return Err(Refusal::NotLoaded);
    }
    let net = board.network;
    let acyclic = board.acyclic;
    let routes = report_routes::fill(journal, board.moves);
    let fit = report_routes::routes_fit(&routes, net.terminals);
    unreported_in(board.stage, fit)?;
    let room = buf.len();
    if whole && room < REPORT_BYTES && !has_room(room, net, &acyclic, &routes) {
        return Err(Refusal::ShortBuffer);
    }
    let end = put_tables(buf, at, net, &acyclic, &routes);
    Ok(end - at)
}

// Writes the route report: 29 where no board was loaded, 28 before a finish, then 8 where the buffer is too short for
// the text.
pub fn sheet(
    board: Board,
    journal: &[[u64; WORDS]; Board::JOURNAL],
    buf: &mut [u8],
) -> Result<usize, Refusal>
    ensures value { as_written result ≡ sheet_call (whole_of board journal.now) (length buf.old) }
    ensures buf_after { buf.new ≡ sheeted (whole_of board journal.now) buf.old }
{
    put_sheet(buf, 0, true, board, journal)
}
