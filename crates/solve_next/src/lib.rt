// The solver's next move, and the call `hint`.
#![tactic(auto)]

ghost use Rattle.std.specs.Prelude.{◌≡◌, ◌≤◌};
ghost use Rattle.sets.specs.Sets.{set_of};
ghost use Rattle.sets.specs.Inner.{sets_of};
ghost use Rattle.board.specs.Limits.{max_edges};
ghost use Rattle.journal.specs.Words.{whole_of};
ghost use Rattle.refusals.specs.Refusals.{answer_of};
ghost use Rattle.move_edges.specs.Inner.{ChartedOut};
ghost use Rattle.move_carry.specs.Frames.{net_of};
ghost use Rattle.solve_next.specs.Parts.{Movable, advice_number_in};
ghost use Rattle.solve_next.specs.Choosing.{all_home_in};
ghost use Rattle.solve_next.specs.Hints.{next_advice_in, hint_call};
ghost use Rattle.solve_next.specs.Views.{advice_told, advice_given, suggestion_of};

use board::{Board, Relocation};
use journal::WORDS;
use move_carry::Frame;
use refusals::Refusal;
use sets::EdgeSet;
use solve_walk::Walk;

// ---- The move that the solver makes next.

// A move to make: a carry, or a turn along a cycle.
#[derive(Clone, Copy)]
pub enum Advice {
    Carry(Relocation),
    Turn(Walk),
}

impl Advice {
    // Numbers beside the variants: what kind a move is, as the C interface tells it (include/vulprow.h).
    pub const NONE: u32 = 0;

    pub const CARRY: u32 = 1;

    pub const TURN: u32 = 2;
}

// Whether every terminal is at the source.
pub fn all_home(places: &[u32], terminals: u32, source: u32) -> bool
    ensures { result ≡ all_home_in terminals source places.now }
{
    (0..terminals).all(|i| lists::at_or(places, i as usize, 0) == source)
}

// The same; this terminal is looked at before the others: that of an open carry, mostly away, which spares a finish the
// walk over those below it at each move.
fn all_home_after(places: &[u32], terminals: u32, source: u32, first: u32) -> bool
    ensures { result ≡ all_home_in terminals source places.now }
{
    let place = lists::at_or(places, first as usize, 0);
    if first < terminals && place != source {
        return false;
    }
    all_home(places, terminals, source)
}

// The move that the solver makes next, by the lists of a board in play and the sets of its edges: none where every
// terminal is at the source, else an open carry, else the cycle.
pub fn next_move<'a>(
    frame: Frame,
    tails: &'a [u32; Board::MAX_EDGES],
    heads: &'a [u32; Board::MAX_EDGES],
    demands: &'a [u32; Board::MAX_TERMINALS],
    leaving: &'a [EdgeSet],
    entering: &'a [EdgeSet],
    flows: &'a [u32; Board::MAX_EDGES],
    places: &'a [u32; Board::MAX_TERMINALS],
) -> Option<Advice>
    requires { Movable frame tails.now heads.now demands.now (sets_of leaving.now)
        (sets_of entering.now) flows.now
        places.now }
    ensures { advice_given result ≡ next_advice_in
        (net_of frame tails.now heads.now demands.now)
        flows.now (set_of frame.marks) places.now }
{
    if let Some(carry) = solve_carry::open_carry(frame, heads, demands, entering, flows, places) {
        if all_home_after(places, frame.terminals, frame.source, carry.terminal) {
            return None;
        }
        return Some(Advice::Carry(carry));
    }
    if all_home(places, frame.terminals, frame.source) {
        return None;
    }
    let walk = solve_walk::cycle(
        tails,
        heads,
        leaving,
        entering,
        frame.positive,
        flows,
        frame.vertices,
        frame.source,
    );
    Some(Advice::Turn(walk))
}

// ---- The call `hint`.

// Whether a move is accepted, by the lists of a board in play. A turn is judged where no carry is open.
fn judge_in<'a>(
    frame: Frame,
    tails: &'a [u32],
    heads: &'a [u32],
    demands: &'a [u32],
    leaving: &'a [EdgeSet],
    flows: &'a [u32],
    places: &'a [u32],
    advice: Advice,
) -> Result<(), Refusal>
    requires edges_le_max_edges { frame.edges ≤ max_edges }
    requires charted_out { ChartedOut tails.now heads.now flows.now (sets_of leaving.now) (set_of frame.positive) }
    requires count_le_max_edges { (advice_told advice).count ≤ max_edges }
    ensures { answer_of result ≡ advice_number_in
        (net_of frame tails.now heads.now demands.now)
        flows.now (set_of frame.marks) places.now (advice_told advice) }
{
    match advice {
        Advice::Carry(carry) => move_carry::judge_in(
            true,
            frame,
            heads,
            demands,
            flows,
            places,
            carry.terminal,
            carry.edge,
        ),
        Advice::Turn(walk) => {
            let count = walk.count as usize;
            move_turn::judge_in(
                false,
                frame,
                tails,
                heads,
                leaving,
                flows,
                &walk.steps[..count],
            )
        }
    }
}

// The move that the solver would make next; none where every terminal is at the source.
pub fn hint(
    board: Board,
    journal: &[[u64; WORDS]; Board::JOURNAL],
) -> Result<Option<Advice>, Refusal>
    ensures { suggestion_of result ≡ hint_call (whole_of board journal.now) }
{
    if !move_guard::playing(board, journal) {
        return Err(Refusal::NotInPlay);
    }
    let net = board.network;
    let leaving = move_edges::at_vertices(net.tails);
    let entering = move_edges::at_vertices(net.heads);
    let positive = move_edges::positive(&board.flows);
    let frame = Frame::of(&net, board.marks, positive, 0);
    let next = next_move(
        frame,
        &net.tails,
        &net.heads,
        &net.demands,
        &leaving,
        &entering,
        &board.flows,
        &board.places,
    );
    let Some(advice) = next else {
        return Ok(None);
    };
    match judge_in(
        frame,
        &net.tails,
        &net.heads,
        &net.demands,
        &leaving,
        &board.flows,
        &board.places,
        advice,
    ) {
        Ok(()) => Ok(next),
        Err(_) => Err(Refusal::NotInPlay),
    }
}
