// What a rule notes: before a walk, and at each matching. specs/Noted.antt says what.
#![tactic(auto)]

ghost use Rattle.std.specs.Prelude.{◌≡◌, ◌≤◌};
ghost use Rattle.model.specs.Limits;
ghost use Rattle.notes.specs.Visits.{keys_of};
ghost use Rattle.rule_notes.specs.Noted.{noting_of, Able, begun};

use graph::instance::PackedInstance;
use graph::packing::GROUP_NODE;
use graph::rule::{Operation, PackedAction};
use keys::Rising;
use notes::{Arms, Notes, Noting};
use serving::note_served;

// By the action: the images of all arms' nodes together, of each edge, or of the one node that goes or is grouped; for a pattern only, nothing.
#[tactic(auto, unfolding(crate::specs::Noted::noting_of))]
pub fn noting(action: &PackedAction) -> Noting
    requires { action.now.count ≤ Limits.arms }
    ensures { keys_of result ≡ noting_of action.now }
{
    let parts = &action.parts[..action.count];
    match action.operation {
        Operation::PatternOnly | Operation::Other(_) => Noting::Nothing,
        Operation::NodeAddition => Noting::Arms(Arms { parts }),
        Operation::EdgeAddition | Operation::EdgeDeletion => Noting::Edges(parts),
        Operation::NodeDeletion => Noting::Node(action.head),
        Operation::Abstraction => Noting::Node(action.head / GROUP_NODE),
    }
}

// What is noted before a walk: what old nodes serve, for node addition; the old edges, for edge addition.
#[tactic(auto, unfolding(crate::specs::Noted::begun))]
pub fn begin(instance: &PackedInstance, action: &PackedAction) -> Notes
    requires { Able instance.now action.now }
    ensures { result ≡ begun instance.now action.now }
{
    let nodes = &instance.nodes[..instance.order];
    let edges = &instance.edges[..instance.size];
    let parts = &action.parts[..action.count];
    let mut notes = Notes::new();
    match action.operation {
        Operation::NodeAddition => note_served(
            nodes,
            Rising { keys: edges },
            action.head,
            Arms { parts },
            &mut notes,
        ),
        Operation::EdgeAddition => notes.note_all(edges),
        Operation::PatternOnly
        | Operation::NodeDeletion
        | Operation::EdgeDeletion
        | Operation::Abstraction
        | Operation::Other(_) => {}
    }
    notes
}
