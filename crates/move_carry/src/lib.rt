// Which flows a carry fits, and the call `carry`.
#![tactic(auto)]

ghost use Rattle.std.specs.Prelude.{◌≡◌, []};
ghost use Rattle.refusals.specs.Refusals.{answer_of};
ghost use Rattle.sets.specs.Sets.{set_of};
ghost use Rattle.board.specs.Whole.{entry_of};
ghost use Rattle.journal.specs.Words.{whole_of, given_of, words_after};
ghost use Rattle.move_carry.specs.Opens.{flow_fits};
ghost use Rattle.move_carry.specs.Carries.{carry_call, carry_refusal_in, carry_entry};
ghost use Rattle.move_carry.specs.Frames.{frame_of, net_of};

use board::{Board, Entry, Move, Network, Relocation};
use journal::WORDS;
use refusals::Refusal;
use sets::EdgeSet;

// The numbers that a move goes by, beside the lists of its board: the counts, the source, the marked edges, the
// positive ones, and where the search for an open carry goes on: no terminal below `resume` has one.
#[derive(Clone, Copy)]
pub struct Frame {
    pub vertices: u32,
    pub edges: u32,
    pub terminals: u32,
    pub source: u32,
    pub marks: EdgeSet,
    pub positive: EdgeSet,
    pub resume: u32,
}

impl Frame {
    // The frame of a network with these marked and positive edges; the search for an open carry goes on at `resume`.
    pub fn of(net: &Network, marks: EdgeSet, positive: EdgeSet, resume: u32) -> Frame
        ensures { result ≡ frame_of net.now marks positive resume }
    {
        Frame {
            vertices: net.vertices,
            edges: net.edges,
            terminals: net.terminals,
            source: net.source,
            marks: marks,
            positive: positive,
            resume: resume,
        }
    }
}

// Whether the flow of an edge allows a carry of that demand.
pub fn flow_fits(mark: bool, flow: u32, demand: u32) -> bool
    ensures { result ≡ flow_fits mark flow demand }
{
    if mark { flow == demand } else { demand <= flow }
}

// Whether a carry is accepted; else it is refused with 20, 6, 21, 22 or 23, in this order. No carry looks at the set of
// the positive edges.
pub fn judge_in<'a>(
    in_play: bool,
    frame: Frame,
    heads: &'a [u32],
    demands: &'a [u32],
    flows: &'a [u32],
    places: &'a [u32],
    i: u32,
    e: u32,
) -> Result<(), Refusal>
    ensures { answer_of result ≡ carry_refusal_in in_play (net_of frame [] heads.now demands.now)
        flows.now (set_of frame.marks) places.now i e }
{
    if !in_play {
        return Err(Refusal::NotInPlay);
    }
    if !lists::and(i < frame.terminals, e < frame.edges) {
        return Err(Refusal::NotOnBoard);
    }
    let place = lists::at_or(places, i as usize, 0);
    if place == frame.source {
        return Err(Refusal::AtSource);
    }
    if lists::at_or(heads, e as usize, 0) != place {
        return Err(Refusal::NotEntering);
    }
    let mark = sets::has(frame.marks, e as usize);
    let flow = lists::at_or(flows, e as usize, 0);
    let demand = lists::at_or(demands, i as usize, 0);
    if !flow_fits(mark, flow, demand) {
        return Err(Refusal::NotOpen);
    }
    Ok(())
}

// The entry of a carry of terminal i over edge e.
fn entry_of(i: u32, e: u32) -> Entry
    ensures { entry_of result ≡ carry_entry i e }
{
    Entry {
        step: Move::Carry(Relocation {
            terminal: i,
            edge: e,
        }),
    }
}

// Relocates terminal i over edge e, to its tail. A refused carry leaves the journal as it was.
pub fn carry(
    mut board: Board,
    journal: &mut [[u64; WORDS]; Board::JOURNAL],
    i: u32,
    e: u32,
) -> Result<Board, Refusal>
    ensures journal_after { given_of board result journal.new ≡ carry_call (whole_of board journal.old) i e }
    ensures journal_after_2 { journal.new ≡
        words_after board.moves (carry_call (whole_of board journal.old) i e).board
        journal.old }
{
    let in_play = move_guard::playing(board, journal);
    let frame = Frame::of(&board.network, board.marks, sets::none(), 0);
    judge_in(
        in_play,
        frame,
        &board.network.heads,
        &board.network.demands,
        &board.flows,
        &board.places,
        i,
        e,
    )?;
    let terminal = i as usize;
    let edge = e as usize;
    let flow = lists::at_or(&board.flows, edge, 0);
    let demand = lists::at_or(&board.network.demands, terminal, 0);
    let tail = lists::at_or(&board.network.tails, edge, 0);
    let rest = flow.saturating_sub(demand);
    let m = board.moves;
    board.flows[edge] = rest;
    board.places[terminal] = tail;
    board.moves = m + 1;
    journal::put_entry(journal, m as usize, entry_of(i, e));
    Ok(board)
}
