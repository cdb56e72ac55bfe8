// The call `turn`.
#![tactic(auto)]

ghost use Rattle.std.specs.Prelude.{◌≡◌, true, [], ◌-◌, ◌≤◌, ◌<◌, ltb, length, get_or, take};
ghost use Rattle.refusals.specs.Refusals.{number, answer_of};
ghost use Rattle.sets.specs.Sets.{set_of};
ghost use Rattle.sets.specs.Inner.{sets_of};
ghost use Rattle.lists.specs.Choice.{pick};
ghost use Rattle.graph_flows.specs.Trails.{edge_of};
ghost use Rattle.board.specs.Limits.{max_edges};
ghost use Rattle.move_cycle.specs.Steps.{steps_of, code_step, code_steps, is_up};
ghost use Rattle.move_cycle.specs.Inner.{InSets, AtMost, greatest_edge};
ghost use Rattle.move_edges.specs.Marking.{singular_by};
ghost use Rattle.move_edges.specs.Inner.{ChartedOut};
ghost use Rattle.move_turn.specs.Turns.{turn_refusal_in, turn_change, turn_call, turn_unkept};
ghost use Rattle.move_carry.specs.Frames.{net_of};
ghost use Rattle.move_turn.specs.Lent.{change_of, made_of, augmented_by, Turnable};
ghost use Rattle.journal.specs.Words.{whole_of, given_of, words_after};
ghost use Rattle.board.specs.Limits.{max_total};

use board::{Augmentation, Board, Entry, Move};
use journal::WORDS;
use move_carry::Frame;
use move_cycle::StepCode;
use refusals::Refusal;
use sets::EdgeSet;

// What an accepted turn gives beside the flows that it changes.
#[derive(Clone, Copy)]
pub struct Augmented {
    pub marks: EdgeSet,
    pub entry: Entry,
}

// The board has the edge.
fn on_board(edges: u32, s: StepCode) -> bool
    ensures { result ≡ ltb (edge_of (code_step s)) edges }
{
    move_cycle::edge_of(s) < edges
}

// The edge has a flow.
fn has_flow(flows: &[u32], s: StepCode) -> bool
    ensures { result ≡ ltb 0 (get_or flows.now (edge_of (code_step s)) 0) }
{
    let e = move_cycle::edge_of(s) as usize;
    0 < lists::at_or(flows, e, 0)
}

// An up-step's edge is singular.
fn up_singular<'a>(
    heads: &'a [u32],
    leaving: &'a [EdgeSet],
    positive: EdgeSet,
    vertices: u32,
    s: StepCode,
) -> bool
    ensures { result ≡ pick (is_up (code_step s))
        (singular_by heads.now (sets_of leaving.now) (set_of positive) vertices
        (edge_of (code_step s))) true }
{
    if !move_cycle::is_up(s) {
        return true;
    }
    let e = move_cycle::edge_of(s) as usize;
    move_edges::singular_by(heads, leaving, positive, vertices, e)
}

// Whether the steps are accepted on a board in play; else they are refused with 6, 7, 24, 25 or 26, in this order.
pub fn judge_in<'a>(
    any_open: bool,
    frame: Frame,
    tails: &'a [u32],
    heads: &'a [u32],
    leaving: &'a [EdgeSet],
    flows: &'a [u32],
    steps: &'a [StepCode],
) -> Result<(), Refusal>
    requires edges_le_max_edges { frame.edges ≤ max_edges }
    requires charted_out { ChartedOut tails.now heads.now flows.now (sets_of leaving.now) (set_of frame.positive) }
    ensures { answer_of result ≡ turn_refusal_in true any_open (net_of frame tails.now heads.now [])
        flows.now (code_steps steps.now) }
{
    if !steps.iter().all(|s| on_board(frame.edges, *s)) {
        return Err(Refusal::NotOnBoard);
    }
    if !move_cycle::is_cycle(tails, heads, steps) {
        return Err(Refusal::NoCycle);
    }
    if any_open {
        return Err(Refusal::CarryOpen);
    }
    if !steps.iter().all(|s| has_flow(flows, *s)) {
        return Err(Refusal::NoFlow);
    }
    if !steps.iter().all(|s| up_singular(heads, leaving, frame.positive, frame.vertices, *s)) {
        return Err(Refusal::NotSingular);
    }
    Ok(())
}

// Makes an accepted turn on the flows.
fn augment<'a>(
    frame: Frame,
    heads: &'a [u32],
    demands: &'a [u32],
    leaving: &'a [EdgeSet],
    places: &'a [u32],
    steps: &'a [StepCode],
    flows: &mut [u32],
) -> Augmented
    requires at_most { AtMost max_total flows.old }
    requires at_most_2 { AtMost max_total demands.now }
    requires in_sets { InSets steps.now }
    ensures { change_of result flows.new places.now ≡
        augmented_by frame heads.now demands.now (sets_of leaving.now)
        flows.old
        places.now (code_steps steps.now) }
{
    let amount = move_cycle::least_allowed(heads, flows, places, demands, frame.terminals, steps);
    let down = move_cycle::gather(false, steps);
    let up = move_cycle::gather(true, steps);
    let fresh = move_edges::fresh_by(heads, leaving, frame.positive, frame.vertices, frame.marks);
    move_cycle::shift(amount, down, up, flows);
    let marks = sets::joined(frame.marks, fresh);
    let turn = Augmentation::of(amount, down, up, fresh);
    Augmented {
        marks: marks,
        entry: Entry {
            step: Move::Turn(turn),
        },
    }
}

// Makes a turn on the flows of a board in play, where it is accepted; `any_open` says whether a carry is open. A
// refusal leaves the flows as they were.
pub fn change<'a>(
    any_open: bool,
    frame: Frame,
    tails: &'a [u32; Board::MAX_EDGES],
    heads: &'a [u32; Board::MAX_EDGES],
    demands: &'a [u32; Board::MAX_TERMINALS],
    leaving: &'a [EdgeSet],
    places: &'a [u32; Board::MAX_TERMINALS],
    steps: &'a [StepCode],
    flows: &mut [u32; Board::MAX_EDGES],
) -> Result<Augmented, Refusal>
    requires { Turnable frame tails.now heads.now demands.now (sets_of leaving.now) flows.old }
    ensures { made_of frame.marks result flows.new places.now ≡
        turn_change true any_open (net_of frame tails.now heads.now demands.now)
        flows.old (set_of frame.marks) places.now (code_steps steps.now) }
{
    judge_in(any_open, frame, tails, heads, leaving, flows, steps)?;
    Ok(augment(frame, heads, demands, leaving, places, steps, flows))
}

// Augments along the cycle of the steps, given by their codes. A refused turn leaves the journal as it was.
pub fn turn_steps(
    board: Board,
    journal: &mut [[u64; WORDS]; Board::JOURNAL],
    steps: &[StepCode],
) -> Result<Board, Refusal>
    ensures journal_after { given_of board result journal.new ≡
        turn_call (whole_of board journal.old) (code_steps steps.now) }
    ensures journal_after_2 { journal.new ≡ words_after board.moves
        (turn_call (whole_of board journal.old) (code_steps steps.now)).board
        journal.old }
{
    if !move_guard::playing(board, journal) {
        return Err(Refusal::NotInPlay);
    }
    let net = board.network;
    let mut flows = board.flows;
    let leaving = move_edges::at_vertices(net.tails);
    let entering = move_edges::at_vertices(net.heads);
    let positive = move_edges::positive(&flows);
    let frame = Frame::of(&net, board.marks, positive, 0);
    let found = solve_carry::open_carry(
        frame,
        &net.heads,
        &net.demands,
        &entering,
        &flows,
        &board.places,
    );
    let made = change(
        found.is_some(),
        frame,
        &net.tails,
        &net.heads,
        &net.demands,
        &leaving,
        &board.places,
        steps,
        &mut flows,
    )?;
    journal::put_entry(journal, board.moves as usize, made.entry);
    let mut next = board;
    next.flows = flows;
    next.marks = made.marks;
    next.moves = board.moves + 1;
    Ok(next)
}

// What a turn is refused with whose steps are more than a board has edges, or one of whose edges is too large for a
// code: 20, 6 or 7, by the greatest edge alone.
pub fn turn_unkept(board: Board, journal: &[[u64; WORDS]; Board::JOURNAL], greatest: u32) -> Refusal
    ensures { number result ≡ turn_unkept (whole_of board journal.now) greatest }
{
    if !move_guard::playing(board, journal) {
        return Refusal::NotInPlay;
    }
    let net = board.network;
    if greatest < net.edges {
        Refusal::NoCycle
    } else {
        Refusal::NotOnBoard
    }
}

// The greatest edge of the steps of bytes, 0 for none.
fn greatest_edge(steps: &[u8]) -> u32
    ensures { result ≡ greatest_edge (steps_of steps.now) }
{
    let mut most: u32 = 0;
    for s in steps {
        most = most.max(move_cycle::edge_of(move_cycle::decoded(*s)));
    }
    most
}

// The codes of the steps of bytes, in the first places.
fn codes_of(steps: &[u8]) -> [StepCode; Board::MAX_EDGES]
    requires { length steps.now ≤ max_edges }
    ensures { code_steps (take (length steps.now) result) ≡ steps_of steps.now }
{
    let mut codes: [StepCode; Board::MAX_EDGES] = [0; Board::MAX_EDGES];
    for (i, s) in steps.iter().enumerate() {
        codes[i] = move_cycle::decoded(*s);
    }
    codes
}

// Augments along the cycle of the steps, a byte each. A refused turn leaves the journal as it was.
pub fn turn(
    board: Board,
    journal: &mut [[u64; WORDS]; Board::JOURNAL],
    steps: &[u8],
) -> Result<Board, Refusal>
    ensures journal_after { given_of board result journal.new ≡
        turn_call (whole_of board journal.old) (steps_of steps.now) }
    ensures journal_after_2 { journal.new ≡ words_after board.moves
        (turn_call (whole_of board journal.old) (steps_of steps.now)).board
        journal.old }
{
    if Board::MAX_EDGES < steps.len() {
        let greatest = greatest_edge(steps);
        return Err(turn_unkept(board, journal, greatest));
    }
    let codes = codes_of(steps);
    turn_steps(board, journal, &codes[..steps.len()])
}
