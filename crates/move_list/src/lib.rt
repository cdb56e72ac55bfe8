// Lists of calls in numbers, for programs that drive the engine.
#![tactic(auto)]

ghost use Rattle.std.specs.Prelude.{◌≡◌, List, ◌++◌, ℕ, ◌+◌, ◌≤◌, length, slice_index};
ghost use Rattle.move_turn.specs.Turns.{turn_call};
ghost use Rattle.move_cycle.specs.Steps.{steps_of};
ghost use Rattle.journal.specs.Words.{whole_of, given_of, words_after};
ghost use Rattle.move_list.specs.Words.{words_played};
ghost use Rattle.move_list.specs.Calls.{
  game_of,
  made,
  played,
  answers,
  hint_given,
  hints_of,
  advice_head,
  advice_code,
  behind,
  noted,
};
ghost use Rattle.move_list.specs.Inner.{last_place};
ghost use Rattle.move_list.specs.Codes.{part, call_of, calls_of};
ghost use Rattle.move_list.specs.Told.{told, stated, replied_by, Tells};
ghost use Rattle.refusals.specs.Refusals.{answer_of};
ghost use Rattle.std.specs.Result.{result_unwrap_or};
ghost use Rattle.solve_next.specs.Views.{advice_given};
ghost use Rattle.solve_next.specs.Advices.{Suggestion};
ghost use Rattle.std.proofs.lemmas.List.Edits.{sets};

use board::Board;
use journal::WORDS;
use move_cycle::StepCode;
use refusals::Refusal;
use solve_next::Advice;

// A call of a list.
#[derive(Clone, Copy)]
pub enum Call {
    // A terminal is carried over an edge.
    Carry { terminal: u32, edge: u32 },
    // A turn along the steps from one place up to another.
    Turn { from: u32, to: u32 },
    Undo,
    Hint,
    Finish,
}

impl Call {
    // The kinds in numbers, since callers of `run` hand the calls in as numbers. The first of the two numbers more is a
    // carry's terminal or where a turn's steps begin, the second a carry's edge or where the steps end.
    pub const CARRY: u32 = 0;

    pub const TURN: u32 = 1;

    pub const UNDO: u32 = 2;

    pub const HINT: u32 = 3;

    pub const FINISH: u32 = 4;

    // The call of a kind and two numbers more; none where the kind has no number.
    pub fn from_numbers(code: [u32; 3]) -> Option<Call>
        ensures { (steps : List ℕ) → stated steps result ≡
            call_of steps (slice_index code 0) (slice_index code 1) (slice_index code 2) }
    {
        let [kind, first, second] = code;
        match kind {
            Call::CARRY => Some(Call::Carry {
                terminal: first,
                edge: second,
            }),
            Call::TURN => Some(Call::Turn {
                from: first,
                to: second,
            }),
            Call::UNDO => Some(Call::Undo),
            Call::HINT => Some(Call::Hint),
            Call::FINISH => Some(Call::Finish),
            _ => None,
        }
    }
}

// The move of a hint in numbers, as lists of calls and C (`vulprow_parts_hint`) have it: its kind, terminal, edge and
// how many steps it has; and the codes of the steps, zeros behind them. NONE is the kind where there is no move.
#[derive(Clone, Copy)]
pub struct AdviceNumbers {
    pub kind: u32,
    pub terminal: u32,
    pub edge: u32,
    pub count: u32,
    pub steps: [StepCode; Board::MAX_EDGES],
}

impl From<Option<Advice>> for AdviceNumbers {
    ghost from_gives = { Tells };

    fn from(advice: Option<Advice>) -> AdviceNumbers {
        match advice {
            None => AdviceNumbers {
                kind: Advice::NONE,
                terminal: 0,
                edge: 0,
                count: 0,
                steps: [0; Board::MAX_EDGES],
            },
            Some(Advice::Carry(carry)) => AdviceNumbers {
                kind: Advice::CARRY,
                terminal: carry.terminal,
                edge: carry.edge,
                count: 0,
                steps: [0; Board::MAX_EDGES],
            },
            Some(Advice::Turn(walk)) => {
                let steps = walk.steps;
                AdviceNumbers {
                    kind: Advice::TURN,
                    terminal: 0,
                    edge: 0,
                    count: walk.count,
                    steps,
                }
            }
        }
    }
}

// How many numbers of a hint stand before its steps, and how many it has.
const ADVICE_HEAD: usize = 4;

const ADVICE_WIDTH: usize = ADVICE_HEAD + Board::MAX_EDGES;

// A turn along the steps from a up to c.
fn turn_part(
    board: Board,
    journal: &mut [[u64; WORDS]; Board::JOURNAL],
    steps: &[u8],
    a: u32,
    c: u32,
) -> Result<Board, Refusal>
    ensures journal_after { given_of board result journal.new ≡
        turn_call (whole_of board journal.old) (steps_of (part steps.now a c)) }
    ensures journal_after_2 { journal.new ≡ words_after board.moves
        (turn_call (whole_of board journal.old) (steps_of (part steps.now a c))).board
        journal.old }
{
    let from = a as usize;
    let to = c as usize;
    let inside = lists::and(from <= to, to <= steps.len());
    if !inside {
        return move_turn::turn(board, journal, &steps[..0]);
    }
    move_turn::turn(board, journal, &steps[from..to])
}

// Stores the codes of the steps from place k on.
fn put_steps(buf: &mut [u32], k: usize, steps: [StepCode; Board::MAX_EDGES])
    requires { k ≤ last_place + advice_head }
    ensures { buf.new ≡ sets buf.old k steps }
{
    for (i, step) in steps.iter().enumerate() {
        lists::put(buf, k + i, u32::from(*step));
    }
}

// Stores the move of a hint from place k on.
fn put_advice(buf: &mut [u32], k: usize, advice: Option<Advice>)
    requires { k ≤ last_place }
    ensures { buf.new ≡ sets buf.old k (advice_code (advice_given advice)) }
{
    let numbers = AdviceNumbers::from(advice);
    lists::put(buf, k, numbers.kind);
    lists::put(buf, k + 1, numbers.terminal);
    lists::put(buf, k + 2, numbers.edge);
    lists::put(buf, k + 3, numbers.count);
    put_steps(buf, k + ADVICE_HEAD, numbers.steps);
}

// Stores the move of a hint from place k on, where the buffer reaches that far; gives the place of the next.
fn note(buf: &mut [u32], k: usize, advice: Option<Advice>) -> usize
    ensures value { result ≡ behind buf.old k }
    ensures buf_after { buf.new ≡ sets buf.old k (advice_code (advice_given advice)) }
{
    if buf.len() <= k {
        return k;
    }
    put_advice(buf, k, advice);
    k + ADVICE_WIDTH
}

// The board that a call gave takes the place of the one before it, which a refused call leaves.
fn store_given(board: &mut Board, given: Result<Board, Refusal>) -> Result<(), Refusal>
    ensures value { answer_of result ≡ answer_of given }
    ensures board_after { board.new ≡ result_unwrap_or given board.old }
{
    *board = given?;
    Ok(())
}

// Makes a call on the board. It is lent, so that a hint and a refused call leave it where it is and hand no copy back.
// The move of a hint goes into the buffer, which is then filled up to the place that is left.
fn make(
    board: &mut Board,
    journal: &mut [[u64; WORDS]; Board::JOURNAL],
    steps: &[u8],
    call: Call,
    hints: &mut [u32],
    place: &mut usize,
) -> Result<(), Refusal>
    ensures value { replied_by result board.new journal.new ≡
        made (game_of (whole_of board.old journal.old)) (told steps.now call) }
    ensures journal_after { journal.new ≡ words_after board.old.moves
        (made (game_of (whole_of board.old journal.old)) (told steps.now call)).game.board journal.old }
    ensures hints_after { (rest : List Suggestion) → noted hints.new place.new rest ≡
        noted hints.old place.old (hint_given (whole_of board.old journal.old) (told steps.now call) ++ rest) }
{
    match call {
        Call::Carry { terminal, edge } => {
            let given = move_carry::carry(*board, journal, terminal, edge);
            store_given(board, given)
        }
        Call::Turn { from, to } => {
            let given = turn_part(*board, journal, steps, from, to);
            store_given(board, given)
        }
        Call::Undo => {
            let given = move_undo::undo(*board, journal);
            store_given(board, given)
        }
        Call::Hint => match solve_next::hint(*board, journal) {
            Ok(advice) => {
                *place = note(hints, *place, advice);
                Ok(())
            }
            Err(refusal) => {
                *place = note(hints, *place, None);
                Err(refusal)
            }
        },
        Call::Finish => {
            let finished = solve_finish::finish(*board, journal)?;
            *board = finished.board;
            Ok(())
        }
    }
}

// Makes the calls, one after the other, and leaves out what is none; writes their answers into one buffer, and the
// moves of the hints into the other.
pub fn run(
    board: Board,
    journal: &mut [[u64; WORDS]; Board::JOURNAL],
    codes: &[u32],
    steps: &[u8],
    buf: &mut [u32],
    hints: &mut [u32],
) -> Board
    ensures journal_after { whole_of result journal.new ≡
        (played (game_of (whole_of board journal.old)) (calls_of steps.now codes.now)
        ).board }
    ensures journal_after_2 { journal.new ≡
        words_played (game_of (whole_of board journal.old)) (calls_of steps.now codes.now)
        journal.old }
    ensures buf_after { buf.new ≡ sets buf.old 0
        (answers (game_of (whole_of board journal.old))
        (calls_of steps.now codes.now)) }
    ensures hints_after { hints.new ≡ noted hints.old 0
        (hints_of (game_of (whole_of board journal.old))
        (calls_of steps.now codes.now)) }
{
    let mut b = board;
    let mut k: usize = 0;
    let mut j: usize = 0;
    let (whole, _) = codes.as_chunks::<3>();
    for code in whole {
        let Some(call) = Call::from_numbers(*code) else {
            continue;
        };
        let given = make(&mut b, journal, steps, call, hints, &mut j);
        lists::put(buf, k, refusals::number_of(given));
        // Counted here, since an element of the list that is no call is left out.
        k += 1;
    }
    b
}
