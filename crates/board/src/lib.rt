// The board record and its limits.
#![tactic(auto)]

ghost use Rattle.std.specs.Prelude.{◌≡◌};
ghost use Rattle.sets.specs.Sets.{set_of};
ghost use Rattle.board.specs.Record.{staged, blank, empty_network, closed_table};
ghost use Rattle.board.specs.Whole.{augmentation_of, entry_of};

use sets::EdgeSet;

// An accepted carry: the terminal was relocated over the edge, to its tail.
#[derive(Clone, Copy)]
pub struct Relocation {
    pub terminal: u32,
    pub edge: u32,
}

// An accepted turn: along a cycle the flow fell by the amount on `down` and rose on `up`; `marked` are the edges it
// newly marked.
#[derive(Clone, Copy)]
pub struct Augmentation {
    pub amount: u32,
    pub down: EdgeSet,
    pub up: EdgeSet,
    pub marked: EdgeSet,
}

#[derive(Clone, Copy)]
pub enum Move {
    Carry(Relocation),
    Turn(Augmentation),
}

// A place of the journal.
#[derive(Clone, Copy)]
pub struct Entry {
    pub step: Move,
}

// What a board text says. Places past the counts hold 0.
// The lists of edges and of terminals are columns: C's rows are copied whole, and the definitions name the columns.
#[derive(Clone, Copy)]
pub struct Network {
    pub vertices: u32,
    pub edges: u32,
    pub terminals: u32,
    pub source: u32,
    pub tails: [u32; Board::MAX_EDGES],
    pub heads: [u32; Board::MAX_EDGES],
    pub flows: [u32; Board::MAX_EDGES],
    pub homes: [u32; Board::MAX_TERMINALS],
    pub demands: [u32; Board::MAX_TERMINALS],
}

// A board in play: the network, the flow without its cycles, the flow now, the marked edges, where each terminal is,
// and how many moves stand. The moves are in the journal, which is lent beside it (crates/journal).
// The lists are columns here too: C's rows are copied whole, and the definitions name the columns.
#[derive(Clone, Copy)]
pub struct Board {
    // A number and no enum: the memory that a C caller lends may hold any number here.
    pub stage: u32,
    pub network: Network,
    pub acyclic: [u32; Board::MAX_EDGES],
    pub flows: [u32; Board::MAX_EDGES],
    pub marks: EdgeSet,
    pub places: [u32; Board::MAX_TERMINALS],
    pub moves: u32,
    // How many moves stood when a finish was accepted; 0 before.
    pub finish_from: u32,
}

impl Board {
    pub const MAX_VERTICES: usize = 32;

    pub const MAX_EDGES: usize = 64;

    pub const MAX_TERMINALS: usize = 16;

    pub const MAX_FLOW: u32 = 1_000_000;

    // What the terminals need together at most.
    pub const MAX_TOTAL: u32 = Board::MAX_TERMINALS as u32 * Board::MAX_FLOW;

    // The places of the journal: no board takes more moves.
    pub const JOURNAL: usize = Board::MAX_EDGES
        + 2 * Board::MAX_TERMINALS * (Board::MAX_VERTICES - 1);

    // The stages.
    pub const CLOSED: u32 = 0;

    pub const PLAY: u32 = 1;

    pub const FINISHED: u32 = 2;

    // Whether a stage is that of a board that a load gave: in play or finished.
    #[tactic(auto, unfolding(lists::specs::Choice::both))]
    pub fn staged(stage: u32) -> bool
        ensures { result ≡ staged stage }
    {
        (Board::PLAY..=Board::FINISHED).contains(&stage)
    }

    // The closed board: no vertices, and no call but load takes it.
    pub fn closed() -> Board
        ensures { result ≡ closed_table }
    {
        Board {
            stage: Board::CLOSED,
            network: Network::empty(),
            acyclic: [0; Board::MAX_EDGES],
            flows: [0; Board::MAX_EDGES],
            marks: sets::none(),
            places: [0; Board::MAX_TERMINALS],
            moves: 0,
            finish_from: 0,
        }
    }
}

impl Network {
    // No vertices, edges or terminals.
    pub fn empty() -> Network
        ensures { result ≡ empty_network }
    {
        Network {
            vertices: 0,
            edges: 0,
            terminals: 0,
            source: 0,
            tails: [0; Board::MAX_EDGES],
            heads: [0; Board::MAX_EDGES],
            flows: [0; Board::MAX_EDGES],
            homes: [0; Board::MAX_TERMINALS],
            demands: [0; Board::MAX_TERMINALS],
        }
    }
}

impl Augmentation {
    // A turn by its amount and its sets of edges: those that fell, those that rose and those newly marked.
    pub fn of(amount: u32, down: EdgeSet, up: EdgeSet, marked: EdgeSet) -> Augmentation
        ensures { augmentation_of result
            ≡ record { amount = amount; down = set_of down; up = set_of up; marked = set_of marked } }
    {
        Augmentation {
            amount,
            down,
            up,
            marked,
        }
    }

    // The edges that fell.
    pub fn fell(self) -> EdgeSet
        ensures { set_of result ≡ (augmentation_of self).down }
    {
        self.down
    }

    // The edges that rose.
    pub fn rose(self) -> EdgeSet
        ensures { set_of result ≡ (augmentation_of self).up }
    {
        self.up
    }

    // The edges newly marked.
    pub fn newly_marked(self) -> EdgeSet
        ensures { set_of result ≡ (augmentation_of self).marked }
    {
        self.marked
    }
}

impl Entry {
    // What a place past the standing moves holds: terminal 0 over edge 0.
    pub fn blank() -> Entry
        ensures { entry_of result ≡ blank }
    {
        Entry {
            step: Move::Carry(Relocation {
                terminal: 0,
                edge: 0,
            }),
        }
    }
}
