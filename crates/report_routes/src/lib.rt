// Routes and loads of a board.
#![tactic(auto)]

ghost use Rattle.std.specs.Prelude.{◌≡◌, ◌≤◌, leb, get_or, take};
ghost use Rattle.lists.specs.Lists.{all};
ghost use Rattle.board.specs.Limits.{max_vertices, max_terminals};
ghost use Rattle.sets.specs.Sets.{set_of};
ghost use Rattle.sets.specs.Inner.{sets_of};
ghost use Rattle.journal.specs.Words.{journal_of};
ghost use Rattle.report_routes.specs.Inner.{rows_of, counts_of, IsSetOf, RouteSets, set_load, Moderate};

use board::{Board, Move};
use journal::WORDS;
use sets::EdgeSet;

// The routes of a board: how many edges each has, and a row of them for each terminal, 0 behind them. A row holds as
// many as there is room for.
#[derive(Clone, Copy)]
pub struct Routes {
    pub counts: [u32; Board::MAX_TERMINALS],
    pub rows: [[u32; Board::MAX_VERTICES]; Board::MAX_TERMINALS],
}

// The routes by the first moves of a journal, from the last of them to the first.
pub fn fill(journal: &[[u64; WORDS]; Board::JOURNAL], moves: u32) -> Routes
    ensures rows_filled { result.rows ≡ rows_of (take moves (journal_of moves journal.now)) }
    ensures counts_filled { result.counts ≡ counts_of (take moves (journal_of moves journal.now)) }
{
    let words: &[[u64; WORDS]] = journal;
    let blank = [0; Board::MAX_VERTICES];
    let mut rows = [blank; Board::MAX_TERMINALS];
    let mut counts = [0; Board::MAX_TERMINALS];
    let standing = (moves as usize).min(Board::JOURNAL);
    for at in (0..standing).rev() {
        let entry = journal::entry_at(words, at);
        if let Move::Carry(r) = entry.step {
            let i = r.terminal as usize;
            if i < Board::MAX_TERMINALS {
                let n = counts[i];
                if n < Board::MAX_VERTICES as u32 {
                    rows[i][n as usize] = r.edge;
                }
                counts[i] = n + 1;
            }
        }
    }
    Routes { counts, rows }
}

// The edges as a set. A number that is no edge's is left out.
fn edge_set(edges: &[u32]) -> EdgeSet
    ensures { IsSetOf (set_of result) edges.now }
{
    let mut set = sets::none();
    for edge in edges {
        let e = *edge as usize;
        if e < Board::MAX_EDGES {
            set = sets::with(set, true, e);
        }
    }
    set
}

// The first edges of a row, count of them, as a set.
fn row_set(edges: [u32; Board::MAX_VERTICES], count: usize) -> EdgeSet
    ensures { IsSetOf (set_of result) (take count edges) }
{
    edge_set(&edges[..count.min(Board::MAX_VERTICES)])
}

// Whether every route has room in its row.
pub fn routes_fit(routes: &Routes, terminals: u32) -> bool
    ensures { result ≡ all (λ i. leb (get_or routes.now.counts i 0) max_vertices) 0 terminals }
{
    (0..terminals).all(|i| lists::at_or(&routes.counts, i as usize, 0)
        <= Board::MAX_VERTICES as u32)
}

// The route of each terminal as a set, so that whether it holds an edge is one test.
pub fn edge_sets(routes: &Routes, terminals: u32) -> [EdgeSet; Board::MAX_TERMINALS]
    requires { terminals ≤ max_terminals }
    ensures { RouteSets (sets_of result) routes.now.counts routes.now.rows terminals }
{
    let mut edges = [sets::none(); Board::MAX_TERMINALS];
    for i in 0..terminals as usize {
        let count = lists::at_or(&routes.counts, i, 0);
        edges[i] = row_set(routes.rows[i], count as usize);
    }
    edges
}

// The sum of the demands of the terminals whose routes hold e.
pub fn load(
    routes: &[EdgeSet; Board::MAX_TERMINALS],
    demands: &[u32; Board::MAX_TERMINALS],
    terminals: u32,
    e: u32,
) -> u32
    requires { (terminals ≤ max_terminals) × Moderate demands.now }
    ensures { result ≡ set_load (sets_of routes.now) demands.now e terminals }
{
    let mut sum: u32 = 0;
    for i in 0..terminals as usize {
        if sets::has(routes[i], e as usize) {
            sum += demands[i];
        }
    }
    sum
}
