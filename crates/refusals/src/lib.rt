// What a call is refused with.
#![tactic(auto)]

ghost use Rattle.std.specs.Prelude.{◌≡◌};
ghost use Rattle.refusals.specs.Refusals.{Numbers, answer_of};

// Why a call is refused, in the order of document 01's numbers.
#[derive(Clone, Copy, Debug, PartialEq, Eq)]
pub enum Refusal {
    // The text breaks the layout, or a line of a play has another form.
    Malformed,
    // A number is outside its range.
    OutOfRange,
    // An edge's tail is its head.
    EdgeIsLoop,
    // A terminal of the text is at the source.
    TerminalAtSource,
    // A vertex is out of balance.
    Unbalanced,
    // The board has no such terminal or edge.
    NotOnBoard,
    // The steps are no cycle.
    NoCycle,
    // The buffer is too short for the text.
    ShortBuffer,
    // The board is not in play.
    NotInPlay,
    // The terminal of a carry is at the source.
    AtSource,
    // The edge of a carry does not enter the terminal's vertex.
    NotEntering,
    // The flow of the edge does not allow the carry.
    NotOpen,
    // A carry is open, so there is no turn.
    CarryOpen,
    // An edge of the steps has no flow.
    NoFlow,
    // An up-step goes over an edge that is not singular.
    NotSingular,
    // No move stands.
    NothingToUndo,
    // The board is not finished.
    NotFinished,
    // No board was loaded.
    NotLoaded,
    // There is no such letter.
    NoLetter,
    // Nothing is kept under the letter.
    NothingKept,
}

impl From<Refusal> for u32 {
    ghost from_gives = { Numbers };

    // Document 01's number.
    fn from(refusal: Refusal) -> u32 {
        match refusal {
            Refusal::Malformed => 1,
            Refusal::OutOfRange => 2,
            Refusal::EdgeIsLoop => 3,
            Refusal::TerminalAtSource => 4,
            Refusal::Unbalanced => 5,
            Refusal::NotOnBoard => 6,
            Refusal::NoCycle => 7,
            Refusal::ShortBuffer => 8,
            Refusal::NotInPlay => 20,
            Refusal::AtSource => 21,
            Refusal::NotEntering => 22,
            Refusal::NotOpen => 23,
            Refusal::CarryOpen => 24,
            Refusal::NoFlow => 25,
            Refusal::NotSingular => 26,
            Refusal::NothingToUndo => 27,
            Refusal::NotFinished => 28,
            Refusal::NotLoaded => 29,
            Refusal::NoLetter => 30,
            Refusal::NothingKept => 31,
        }
    }
}

// 0 where the call was accepted, or the number that it is refused with.
pub fn number_of<T: Copy>(given: Result<T, Refusal>) -> u32
    ensures { result ≡ answer_of given }
{
    match given {
        Ok(_) => 0,
        Err(refusal) => u32::from(refusal),
    }
}
