// Checkpoints: the calls `keep`, `back` and `restart`. A checkpoint is a whole board that is kept under a letter.
#![tactic(auto)]

ghost use Rattle.std.specs.Prelude.{◌≡◌, List, ℕ, IfOk};
ghost use Rattle.refusals.specs.Refusals.{answer_of};
ghost use Rattle.journal.specs.Words.{whole_of, no_words};
ghost use Rattle.load.specs.Load.{load_text};
ghost use Rattle.checkpoints.specs.Letters.{letter_of, place_of};
ghost use Rattle.checkpoints.specs.Games.{
  checkpoint_at,
  keep_refusal,
  keep_call,
  back_refusal,
  back_call,
  restart_call,
};
ghost use Rattle.checkpoints.specs.Lent.{
  lent_of,
  FourJournals,
  game_in,
  lent_kept,
  lent_back,
  kept_of,
  back_of,
  begun_of,
};

use board::Board;
use journal::WORDS;
use refusals::Refusal;

// How many letters there are, and the byte of the first.
pub const LETTERS: usize = 4;

pub const FIRST_LETTER: u32 = 65;

// The number of a letter, from A to D.
pub fn letter_of(letter: u32) -> Option<usize>
    ensures { result ≡ place_of (letter_of letter) }
{
    let k = letter.checked_sub(FIRST_LETTER)? as usize;
    if k < LETTERS { Some(k) } else { None }
}

// The number of the letter under which the board is kept; or why it is not: 30 or 20, in this order.
pub fn judge_keep(
    board: Board,
    journal: &[[u64; WORDS]; Board::JOURNAL],
    letter: u32,
) -> Result<usize, Refusal>
    ensures answer { answer_of result ≡ keep_refusal (whole_of board journal.now) letter }
    ensures place { IfOk result (λ k. k ≡ letter_of letter) }
{
    let Some(k) = letter_of(letter) else {
        return Err(Refusal::NoLetter);
    };
    if move_guard::loaded(board, journal) {
        Ok(k)
    } else {
        Err(Refusal::NotInPlay)
    }
}

// Keeps the board under a letter, its journal included: what is kept then. A refusal leaves all that is kept.
pub fn keep(
    board: Board,
    journal: &[[u64; WORDS]; Board::JOURNAL],
    kept: [Board; LETTERS],
    journals: &mut [[[u64; WORDS]; Board::JOURNAL]; LETTERS],
    letter: u32,
) -> Result<[Board; LETTERS], Refusal>
    ensures journals_after { kept_of board kept result (lent_of journal.now journals.new) ≡
        keep_call (game_in board kept (lent_of journal.now journals.old)) letter }
    ensures journals_after_2 { lent_of journal.now journals.new ≡
        lent_kept (game_in board kept (lent_of journal.now journals.old)) letter
        (lent_of journal.now journals.old) }
{
    let k = judge_keep(board, journal, letter)?;
    let mut next = kept;
    next[k] = board;
    journals[k] = *journal;
    Ok(next)
}

// The number of the letter that the way back leads to; or why there is none: 30, 20 or 31, in this order.
fn judge_back(
    board: Board,
    journal: &[[u64; WORDS]; Board::JOURNAL],
    kept: [Board; LETTERS],
    journals: &[[[u64; WORDS]; Board::JOURNAL]; LETTERS],
    letter: u32,
) -> Result<usize, Refusal>
    ensures answer { answer_of result ≡ back_refusal (whole_of board journal.now)
        (checkpoint_at (game_in board kept (lent_of journal.now journals.now))
        (letter_of letter)) letter }
    ensures place { IfOk result (λ k. k ≡ letter_of letter) }
{
    let Some(k) = letter_of(letter) else {
        return Err(Refusal::NoLetter);
    };
    if !move_guard::loaded(board, journal) {
        return Err(Refusal::NotInPlay);
    }
    let rows: &[[[u64; WORDS]; Board::JOURNAL]] = journals;
    if move_guard::loaded(kept[k], &rows[k]) {
        Ok(k)
    } else {
        Err(Refusal::NothingKept)
    }
}

// Goes back to what is kept under a letter: the board is that one, and the journal gets its moves. A refusal leaves the
// journal as it was.
pub fn back(
    board: Board,
    journal: &mut [[u64; WORDS]; Board::JOURNAL],
    kept: [Board; LETTERS],
    journals: &[[[u64; WORDS]; Board::JOURNAL]; LETTERS],
    letter: u32,
) -> Result<Board, Refusal>
    ensures journals_after { back_of board kept result (lent_of journal.new journals.now) ≡
        back_call (game_in board kept (lent_of journal.old journals.now)) letter }
    ensures journals_after_2 { lent_of journal.new journals.now ≡
        lent_back (game_in board kept (lent_of journal.old journals.now)) letter
        (lent_of journal.old journals.now) }
{
    let k = judge_back(board, journal, kept, journals, letter)?;
    let rows: &[[[u64; WORDS]; Board::JOURNAL]] = journals;
    *journal = rows[k];
    Ok(kept[k])
}

// What `restart` gives: what the load gave, and what is kept then: nothing.
#[derive(Clone, Copy)]
pub struct Restarted {
    pub loaded: Result<Board, Refusal>,
    pub checkpoints: [Board; LETTERS],
}

// Loads a text into a game: nothing is kept under any letter then, also where the text is refused.
pub fn restart(text: &[u8], journal: &mut [[u64; WORDS]; Board::JOURNAL]) -> Restarted
    ensures journals_after { (journals : List (List (List ℕ))) → FourJournals journals →
        begun_of result.loaded result.checkpoints (lent_of journal.new journals) ≡
        restart_call text.now }
    ensures journal_after { journal.new ≡ no_words }
{
    let loaded = load::load(text, journal);
    let closed = Board::closed();
    Restarted {
        loaded: loaded,
        checkpoints: [closed; LETTERS],
    }
}
