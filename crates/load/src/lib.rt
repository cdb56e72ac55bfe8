// The call `load`.
#![tactic(auto)]

ghost use Rattle.std.specs.Prelude.{◌≡◌, ◌≤◌};
ghost use Rattle.board.specs.Limits.{max_vertices};
ghost use Rattle.journal.specs.Words.{no_words};
ghost use Rattle.load.specs.Load.{acyclic_of, opened, load_text};
ghost use Rattle.load.specs.Inner.{opened_table};
ghost use Rattle.load.specs.Lent.{loaded_of};

use board::{Board, Network};
use journal::WORDS;
use refusals::Refusal;

// The flows with their cycles cancelled.
fn acyclic_flows(net: Network) -> [u32; Board::MAX_EDGES]
    requires { net.vertices ≤ max_vertices }
    ensures { result ≡ acyclic_of net }
{
    let mut flows = net.flows;
    graph_cancel::cancel(&net.tails, &net.heads, &mut flows, net.vertices);
    flows
}

// The board of a network before the first move, without its journal.
fn opened(net: Network, flows: [u32; Board::MAX_EDGES]) -> Board
    ensures { result ≡ opened_table net flows }
{
    let homes = net.homes;
    let marks = sets::none();
    Board {
        stage: Board::PLAY,
        network: net,
        acyclic: flows,
        flows: flows,
        marks: marks,
        places: homes,
        moves: 0,
        finish_from: 0,
    }
}

// Reads a board text and makes it ready to be played, or says why the text is refused. The journal is emptied, also where
// the text is refused.
pub fn load(text: &[u8], journal: &mut [[u64; WORDS]; Board::JOURNAL]) -> Result<Board, Refusal>
    ensures journal_after { loaded_of result journal.new ≡ load_text text.now }
    ensures journal_after_2 { journal.new ≡ no_words }
{
    journal::clear(journal);
    let net = text_reader::read(text)?;
    let flows = acyclic_flows(net);
    Ok(opened(net, flows))
}
