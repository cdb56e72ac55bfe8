// A whole play as one call: load, a list of calls, and a finish.
#![tactic(auto)]

ghost use Rattle.std.specs.Prelude.{◌≡◌};
ghost use Rattle.std.proofs.lemmas.List.Edits.{sets};
ghost use Rattle.journal.specs.Words.{packed_all};
ghost use Rattle.load.specs.Load.{load_text};
ghost use Rattle.move_list.specs.Calls.{game_of, answers, hints_of, noted};
ghost use Rattle.move_list.specs.Codes.{calls_of};
ghost use Rattle.playthrough.specs.Through.{outcome, Holds};
ghost use Rattle.playthrough.specs.Lent.{outcome_of};

use board::Board;
use journal::WORDS;
use refusals::Refusal;
use solve_finish::Finished;

// What a whole play gives: whether the load was accepted, the board after the calls, and what the finish gave.
#[derive(Clone, Copy)]
pub struct Outcome {
    pub loading: Result<(), Refusal>,
    pub board: Board,
    pub finish: Result<Finished, Refusal>,
}

// Loads a text, makes the calls (crates/move_list: three numbers a call, and the steps of the turns), and finishes the
// board; where a finish among the calls stands, this one is refused. The answers and the moves of the hints go into the
// buffers, the standing moves and those of the finish into the journal.
pub fn play_through(
    text: &[u8],
    codes: &[u32],
    steps: &[u8],
    given: &mut [u32],
    hints: &mut [u32],
    journal: &mut [[u64; WORDS]; Board::JOURNAL],
) -> Outcome
    ensures journal_after { outcome_of result journal.new ≡
        outcome text.now (calls_of steps.now codes.now) }
    ensures given_after { given.new ≡
        sets given.old 0 (answers (game_of (load_text text.now).board)
        (calls_of steps.now codes.now)) }
    ensures hints_after { hints.new ≡
        noted hints.old 0 (hints_of (game_of (load_text text.now).board)
        (calls_of steps.now codes.now)) }
    ensures journal_after_2 { journal.new ≡ packed_all (outcome text.now
        (calls_of steps.now codes.now)).finish.board.journal }
    ensures holds { Holds text.now (calls_of steps.now codes.now) given.old
        given.new hints.old hints.new (outcome_of result journal.new) }
{
    let loaded = load::load(text, journal);
    let start = loaded.unwrap_or(Board::closed());
    let loading = loaded.and(Ok(()));
    let board = move_list::run(start, journal, codes, steps, given, hints);
    let finish = solve_finish::finish(board, journal);
    Outcome {
        loading,
        board,
        finish,
    }
}
