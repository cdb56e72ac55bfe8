// The call `undo`.
#![tactic(auto)]

ghost use Rattle.std.specs.Prelude.{◌≡◌, true};
ghost use Rattle.board.specs.Record.{finished_stage};
ghost use Rattle.move_guard.specs.Guard.{intact, loaded};
ghost use Rattle.journal.specs.Words.{whole_of, given_of, words_after};
ghost use Rattle.move_undo.specs.Undone.{undone, taken_back, Taken, undo_call};

use board::{Board, Entry, Move};
use journal::WORDS;
use refusals::Refusal;

// Takes the last standing move back; its words stay where they are, behind the moves that stand then.
fn back_one(mut board: Board, journal: &[[u64; WORDS]; Board::JOURNAL]) -> Board
    requires { intact (whole_of board journal.now) ≡ true }
    ensures { whole_of result journal.now ≡ undone (whole_of board journal.now) }
{
    let last = journal::last_entry(journal, board.moves);
    let step = last.step;
    board.moves = board.moves.saturating_sub(1);
    match step {
        Move::Carry(r) => {
            let flow = lists::at_or(&board.flows, r.edge as usize, 0);
            let demand = lists::at_or(&board.network.demands, r.terminal as usize, 0);
            let head = lists::at_or(&board.network.heads, r.edge as usize, 0);
            lists::put(&mut board.flows, r.edge as usize, flow + demand);
            lists::put(&mut board.places, r.terminal as usize, head);
        }
        Move::Turn(a) => {
            let rose = a.rose();
            let fell = a.fell();
            let marked = a.newly_marked();
            let flows = board.flows;
            let shifted = move_cycle::shifted(a.amount, rose, fell, flows);
            board.flows = shifted;
            board.marks = sets::without(board.marks, marked);
        }
    }
    board
}

// Takes so many moves back, one by one, each on an intact board.
fn back_many(
    board: Board,
    journal: &[[u64; WORDS]; Board::JOURNAL],
    count: u32,
) -> Result<Board, Refusal>
    ensures { Taken result journal.now (taken_back count (whole_of board journal.now)) }
{
    let mut b = board;
    for _ in 0..count {
        if !move_guard::intact(b, journal) {
            return Err(Refusal::NotInPlay);
        }
        b = back_one(b, journal);
    }
    Ok(b)
}

// Takes a finish back: the way back is worked out first, and then the places of its moves are blanked.
fn undo_finish(board: Board, journal: &mut [[u64; WORDS]; Board::JOURNAL]) -> Result<Board, Refusal>
    requires journal_value { loaded (whole_of board journal.old) ≡ true }
    requires stage_value { board.stage ≡ finished_stage }
    ensures journal_after { given_of board result journal.new ≡ undo_call (whole_of board journal.old) }
    ensures journal_after_2 { journal.new ≡
        words_after board.moves (undo_call (whole_of board journal.old)).board journal.old }
{
    let from = board.finish_from;
    if board.moves < from {
        return Err(Refusal::NotInPlay);
    }
    let count = board.moves - from;
    let mut last = back_many(board, journal, count)?;
    journal::wipe(journal, from as usize, count as usize);
    last.stage = Board::PLAY;
    last.finish_from = 0;
    Ok(last)
}

// Takes the last standing move back, or a finish that stands with all its moves. A refused undo leaves the journal as
// it was.
pub fn undo(board: Board, journal: &mut [[u64; WORDS]; Board::JOURNAL]) -> Result<Board, Refusal>
    ensures journal_after { given_of board result journal.new ≡ undo_call (whole_of board journal.old) }
    ensures journal_after_2 { journal.new ≡
        words_after board.moves (undo_call (whole_of board journal.old)).board journal.old }
{
    if !move_guard::loaded(board, journal) {
        return Err(Refusal::NotInPlay);
    }
    if board.stage == Board::FINISHED {
        return undo_finish(board, journal);
    }
    if board.moves == 0 {
        return Err(Refusal::NothingToUndo);
    }
    let last = back_one(board, journal);
    journal::put_entry(journal, last.moves as usize, Entry::blank());
    Ok(last)
}
