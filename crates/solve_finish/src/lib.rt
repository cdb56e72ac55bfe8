// The call `finish`.
#![tactic(auto)]

ghost use Rattle.std.specs.Prelude.{◌≡◌, true, false, List, [], ℕ, ◌-◌, ◌≤◌, length};
ghost use Rattle.sets.specs.Sets.{set_of};
ghost use Rattle.sets.specs.Inner.{sets_of};
ghost use Rattle.move_edges.specs.Incidence.{PositiveSet};
ghost use Rattle.move_guard.specs.Guard.{playing};
ghost use Rattle.move_carry.specs.Frames.{net_of};
ghost use Rattle.board.specs.Limits.{max_edges, max_moves};
ghost use Rattle.board.specs.Whole.{move_of, entry_of};
ghost use Rattle.journal.specs.Words.{whole_of, words_after};
ghost use Rattle.move_cycle.specs.Steps.{code_steps};
ghost use Rattle.move_turn.specs.Turns.{turn_change};
ghost use Rattle.move_turn.specs.Lent.{Turnable};
ghost use Rattle.solve_finish.specs.Finishes.{finish_call};
ghost use Rattle.solve_finish.specs.Lent.{ended_of};
ghost use Rattle.solve_finish.specs.Run.{
  all_small,
  positive_after,
  carry_step,
  step_change,
  Makes,
  shifted_edges,
  resumption,
  RightBut,
  Sees,
  made_of,
  Going,
  Stores,
  RanOut,
  RanFull,
};

use board::{Board, Entry, Move, Relocation};
use journal::WORDS;
use move_carry::Frame;
use move_cycle::StepCode;
use refusals::Refusal;
use sets::EdgeSet;
use solve_next::Advice;

// What a finish gives: how many moves it made, and the board at the end.
#[derive(Clone, Copy)]
pub struct Finished {
    pub count: u32,
    pub board: Board,
}

// A move of the solver on lists that are lent: its entry, the marks and the positive edges after it, and whether the
// flows are small then.
// No Option on `small`: the marks and the positive edges hold where the flows are not small, too, and the move is made.
#[derive(Clone, Copy)]
pub struct Progress {
    pub entry: Entry,
    pub marks: EdgeSet,
    pub positive: EdgeSet,
    pub small: bool,
}

// What a look at flows shows: the positive edges, and whether the flows are small.
#[derive(Clone, Copy)]
pub struct Seen {
    pub positive: EdgeSet,
    pub small: bool,
}

// How a run ended: the marks and the count of moves then, and how many of these the journal holds: all of them, or
// those before the first place that was not blank.
#[derive(Clone, Copy)]
pub struct Ran {
    pub filled: u32,
    pub marks: EdgeSet,
    pub moves: u32,
}

// The positive edges where edge e has the rest of its flow.
fn positive_after(positive: EdgeSet, rest: u32, e: u32) -> EdgeSet
    ensures { set_of result ≡ positive_after (set_of positive) rest e }
{
    if rest == 0 {
        return sets::drop(positive, e);
    }
    positive
}

// The edges whose flows a move shifts: those of a turn.
#[tactic(auto, unfolding(crate::specs::Run::shifted_edges))]
fn shifted_edges(step: Move) -> EdgeSet
    ensures { set_of result ≡ shifted_edges (move_of step) }
{
    match step {
        Move::Carry(_) => sets::none(),
        Move::Turn(turn) => sets::joined(turn.fell(), turn.rose()),
    }
}

// The terminal at which the search for an open carry goes on after a move: that of a carry, the first after a turn.
#[tactic(auto, unfolding(crate::specs::Run::resumption))]
fn resumption(step: Move) -> u32
    ensures { result ≡ resumption (move_of step) }
{
    match step {
        Move::Carry(carry) => carry.terminal,
        Move::Turn(_) => 0,
    }
}

// The positive edges, and whether the flows are small, by a look at the changed edges alone.
fn look_again(changed: EdgeSet, positive: EdgeSet, flows: &[u32; Board::MAX_EDGES]) -> Seen
    requires { RightBut flows.now (set_of positive) (set_of changed) }
    ensures { Sees flows.now result }
{
    let mut rest = changed;
    let mut after = positive;
    let mut small = true;
    // No index is counted here: each round takes the lowest edge off the set.
    while !sets::is_empty(rest) {
        let e = sets::lowest(rest);
        let f = lists::at_or(flows, e as usize, 0);
        let others = sets::drop(after, e);
        after = sets::with(others, 0 < f, e as usize);
        small = lists::and(small, f <= Board::MAX_TOTAL);
        rest = sets::drop(rest, e);
    }
    Seen {
        positive: after,
        small,
    }
}

// Makes a carry; a terminal at the source halts the run.
fn carry_on<'a>(
    frame: Frame,
    tails: &'a [u32; Board::MAX_EDGES],
    demands: &'a [u32; Board::MAX_TERMINALS],
    carry: Relocation,
    flows: &mut [u32; Board::MAX_EDGES],
    places: &mut [u32; Board::MAX_TERMINALS],
) -> Result<Progress, Refusal>
    requires positive_set { PositiveSet flows.old (set_of frame.positive) }
    requires flows_value { all_small flows.old ≡ true }
    requires flows_len { length flows.old ≡ max_edges }
    ensures { Makes (carry_step (net_of frame tails.now [] demands.now)
        flows.old (set_of frame.marks) places.old carry.terminal carry.edge)
        (made_of frame result flows.new places.new) }
{
    let terminal = carry.terminal as usize;
    let edge = carry.edge as usize;
    let place = lists::at_or(places, terminal, 0);
    if place == frame.source {
        return Err(Refusal::AtSource);
    }
    let demand = lists::at_or(demands, terminal, 0);
    let flow = lists::at_or(flows, edge, 0);
    let tail = lists::at_or(tails, edge, 0);
    let rest = flow.saturating_sub(demand);
    lists::put(flows, edge, rest);
    lists::put(places, terminal, tail);
    let after = positive_after(frame.positive, rest, carry.edge);
    Ok(Progress {
        entry: Entry {
            step: Move::Carry(carry),
        },
        marks: frame.marks,
        positive: after,
        small: true,
    })
}

// Augments along the steps of a cycle, where no carry is open.
fn turn_on<'a>(
    frame: Frame,
    tails: &'a [u32; Board::MAX_EDGES],
    heads: &'a [u32; Board::MAX_EDGES],
    demands: &'a [u32; Board::MAX_TERMINALS],
    leaving: &'a [EdgeSet],
    flows: &mut [u32; Board::MAX_EDGES],
    places: &'a [u32; Board::MAX_TERMINALS],
    steps: &'a [StepCode],
) -> Result<Progress, Refusal>
    requires turnable { Turnable frame tails.now heads.now demands.now (sets_of leaving.now) flows.old }
    requires flows_value { all_small flows.old ≡ true }
    ensures { Makes (turn_change true false
        (net_of frame tails.now heads.now demands.now)
        flows.old (set_of frame.marks) places.now (code_steps steps.now))
        (made_of frame result flows.new places.now) }
{
    let made = move_turn::change(
        false, frame, tails, heads, demands, leaving, places, steps, flows,
    )?;
    let changed = shifted_edges(made.entry.step);
    let seen = look_again(changed, frame.positive, flows);
    Ok(Progress {
        entry: made.entry,
        marks: made.marks,
        positive: seen.positive,
        small: seen.small,
    })
}

// Makes the solver's next move on the lists of a board in play; there is none where every terminal is at the source.
fn advance<'a>(
    frame: Frame,
    tails: &'a [u32; Board::MAX_EDGES],
    heads: &'a [u32; Board::MAX_EDGES],
    demands: &'a [u32; Board::MAX_TERMINALS],
    leaving: &'a [EdgeSet],
    entering: &'a [EdgeSet],
    flows: &mut [u32; Board::MAX_EDGES],
    places: &mut [u32; Board::MAX_TERMINALS],
) -> Result<Progress, Refusal>
    requires { Going frame tails.now heads.now demands.now (sets_of leaving.now)
        (sets_of entering.now) flows.old
        places.old }
    ensures { Makes (step_change
        (net_of frame tails.now heads.now demands.now)
        flows.old (set_of frame.marks) places.old)
        (made_of frame result flows.new places.new) }
{
    let next = solve_next::next_move(
        frame, tails, heads, demands, leaving, entering, flows, places,
    );
    let Some(advice) = next else {
        // No caller sees this refusal: it ends the run. The definition `stepped` has its number.
        return Err(Refusal::NotFinished);
    };
    match advice {
        Advice::Carry(carry) => carry_on(frame, tails, demands, carry, flows, places),
        Advice::Turn(walk) => {
            let count = walk.count as usize;
            turn_on(
                frame,
                tails,
                heads,
                demands,
                leaving,
                flows,
                places,
                &walk.steps[..count],
            )
        }
    }
}

// Stores the entry of a move where the journal holds all the moves before it and its place is blank; answers how many
// moves the journal holds then.
fn store(journal: &mut [[u64; WORDS]; Board::JOURNAL], filled: u32, moves: u32, entry: Entry) -> u32
    requires { moves ≤ max_moves }
    ensures { Stores filled moves (entry_of entry) journal.old journal.new result }
{
    if filled != moves {
        return filled;
    }
    let m = moves as usize;
    if !journal::is_blank(journal, m) {
        return filled;
    }
    journal::put_entry(journal, m, entry);
    moves + 1
}

// Plays on as long as a move is accepted. Behind a place that is not blank nothing is stored any more.
fn play_out(
    board: Board,
    journal: &mut [[u64; WORDS]; Board::JOURNAL],
    flows: &mut [u32; Board::MAX_EDGES],
    places: &mut [u32; Board::MAX_TERMINALS],
) -> Ran
    requires journal_value { playing (whole_of board journal.old) ≡ true }
    requires flows_value { (flows.old ≡ board.flows) × (places.old ≡ board.places) }
    ensures { RanOut board journal.old journal.new flows.new
        places.new result }
{
    let net = board.network;
    let leaving = move_edges::at_vertices(net.tails);
    let entering = move_edges::at_vertices(net.heads);
    let mut marks = board.marks;
    let mut positive = move_edges::positive(flows);
    let mut moves = board.moves;
    let mut filled = board.moves;
    let mut resume: u32 = 0;
    for _ in 0..Board::JOURNAL {
        let frame = Frame::of(&net, marks, positive, resume);
        let Ok(made) = advance(
            frame,
            &net.tails,
            &net.heads,
            &net.demands,
            &leaving,
            &entering,
            flows,
            places,
        ) else {
            break;
        };
        filled = store(journal, filled, moves, made.entry);
        resume = resumption(made.entry.step);
        marks = made.marks;
        positive = made.positive;
        moves += 1;
        if !(moves <= Board::JOURNAL as u32 && made.small) {
            break;
        }
    }
    Ran {
        filled,
        marks,
        moves,
    }
}

// Plays once more where the journal does not hold all the moves of a run, since one of the places that they need was
// not blank: all of these are blanked first.
fn play_again(
    ran: Ran,
    board: Board,
    journal: &mut [[u64; WORDS]; Board::JOURNAL],
    flows: &mut [u32; Board::MAX_EDGES],
    places: &mut [u32; Board::MAX_TERMINALS],
) -> Ran
    requires journal_value { playing (whole_of board journal.old) ≡ true }
    requires moves_bound { ran.moves - board.moves ≤ max_moves }
    ensures { (old : List (List ℕ)) →
        RanOut board old journal.old flows.old places.old ran →
        RanFull board old journal.new flows.new places.new result }
{
    if ran.filled == ran.moves {
        return ran;
    }
    let from = board.moves;
    let count = ran.moves.saturating_sub(from);
    journal::wipe(journal, from as usize, count as usize);
    // By two variables: an array of a field that is stored straight has no generated proof.
    let first_flows = board.flows;
    let first_places = board.places;
    *flows = first_flows;
    *places = first_places;
    play_out(board, journal, flows, places)
}

// Plays to the end, and answers how many moves that took. Where the run ends with a terminal away, the places that were
// filled are blanked again: a refused finish leaves the journal as it was.
pub fn finish(
    board: Board,
    journal: &mut [[u64; WORDS]; Board::JOURNAL],
) -> Result<Finished, Refusal>
    ensures journal_after { ended_of board result journal.new ≡ finish_call (whole_of board journal.old) }
    ensures journal_after_2 { journal.new ≡
        words_after board.moves (finish_call (whole_of board journal.old)).board journal.old }
{
    if !move_guard::playing(board, journal) {
        return Err(Refusal::NotInPlay);
    }
    let net = board.network;
    let from = board.moves;
    let mut flows = board.flows;
    let mut places = board.places;
    let ran = play_out(board, journal, &mut flows, &mut places);
    if !solve_next::all_home(&places, net.terminals, net.source) {
        let filled = ran.filled.saturating_sub(from);
        journal::wipe(journal, from as usize, filled as usize);
        return Err(Refusal::NotInPlay);
    }
    let whole = play_again(ran, board, journal, &mut flows, &mut places);
    let count = whole.moves.saturating_sub(from);
    Ok(Finished {
        count,
        board: Board {
            stage: Board::FINISHED,
            flows,
            marks: whole.marks,
            places,
            moves: whole.moves,
            finish_from: from,
            ..board
        },
    })
}
