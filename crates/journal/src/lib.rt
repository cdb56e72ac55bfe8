// The journal as words that the caller lends.
#![tactic(auto)]

ghost use Rattle.std.specs.Prelude.{◌≡◌, [], ◌+◌, ◌-◌, ◌≤◌, get_or, set};
ghost use Rattle.board.specs.Record.{blank};
ghost use Rattle.board.specs.Limits.{max_moves};
ghost use Rattle.board.specs.Whole.{entry_of};
ghost use Rattle.journal.specs.Words.{packed, unpacked, entries_of, entry_in, journal_of, no_words, packed_on};
ghost use Rattle.journal.specs.Inner.{place_words, is_zeros, is_blank_at};

use board::{Augmentation, Board, Entry, Move, Relocation};

// How many words a place of the journal has.
pub const WORDS: usize = 5;

// The words of the blank.
const BLANK: [u64; WORDS] = [0; WORDS];

// An entry in words, the first of which says which move it is: the memory that a C caller lends holds words.
pub fn pack(entry: Entry) -> [u64; WORDS]
    ensures value { result ≡ packed (entry_of entry) }
    ensures result_value { unpacked result ≡ entry_of entry }
{
    let step = entry.step;
    match step {
        Move::Carry(r) => [0, r.terminal as u64, r.edge as u64, 0, 0],
        Move::Turn(a) => [1, a.amount as u64, a.down, a.up, a.marked],
    }
}

// The entry that the words of a place stand for.
pub fn unpack(w: [u64; WORDS]) -> Entry
    ensures { entry_of result ≡ unpacked w }
{
    if w[0] == 0 {
        return Entry {
            step: Move::Carry(Relocation {
                terminal: (w[1] % 4294967296) as u32,
                edge: (w[2] % 4294967296) as u32,
            }),
        };
    }
    Entry {
        step: Move::Turn(Augmentation {
            amount: (w[1] % 4294967296) as u32,
            down: w[2],
            up: w[3],
            marked: w[4],
        }),
    }
}

// The entry at a place, or the blank.
pub fn entry_at(journal: &[[u64; WORDS]], i: usize) -> Entry
    ensures { entry_of result ≡ entry_in journal.now i }
{
    let w = lists::at_or(journal, i, BLANK);
    unpack(w)
}

// The last of so many moves, or the blank.
pub fn last_entry(journal: &[[u64; WORDS]], moves: u32) -> Entry
    ensures { entry_of result ≡ get_or (journal_of moves journal.now) (moves - 1) blank }
{
    if moves == 0 {
        return Entry::blank();
    }
    entry_at(journal, (moves - 1) as usize)
}

// Stores an entry at a place, and nothing past the end.
pub fn put_entry(journal: &mut [[u64; WORDS]], i: usize, entry: Entry)
    ensures journal_after { journal.new ≡ set journal.old i (packed (entry_of entry)) }
    ensures journal_after_2 { entries_of journal.new ≡ set (entries_of journal.old) i (entry_of entry) }
{
    let w = pack(entry);
    lists::put(journal, i, w);
}

// Whether a place holds the blank. There is nothing else past the end.
pub fn is_blank(journal: &[[u64; WORDS]], i: usize) -> bool
    ensures { result ≡ is_blank_at journal.now i }
{
    lists::at_or(journal, i, BLANK) == BLANK
}

// Puts the blank into so many places.
pub fn wipe(journal: &mut [[u64; WORDS]], from: usize, count: usize)
    requires { (from ≤ max_moves + 1) × (count ≤ max_moves) }
    ensures { journal.new ≡ packed_on count from [] journal.old }
{
    for i in from..from + count {
        put_entry(journal, i, Entry::blank());
    }
}

// Empties the journal.
pub fn clear(journal: &mut [[u64; WORDS]; Board::JOURNAL])
    ensures { journal.new ≡ no_words }
{
    *journal = [BLANK; Board::JOURNAL];
}
