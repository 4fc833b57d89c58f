// What drawing files and rule texts are both read with: what a line is judged under; whether a further edge conforms.
#![tactic(auto)]

ghost use Rattle.std.specs.Prelude.{◌≡◌, not, ◌&&◌, map, ◌<◌, ◌^◌};
ghost use Rattle.model.specs.Graph.{has, of_kind};
ghost use Rattle.graph.specs.Packed.{unpack_triple, unpack_declared, triple};
ghost use Rattle.verdicts.specs.Verdicts.{last_shares};

use above::Above;
use graph::declarations::Declarations;
use graph::packing::{NUMBERS, TRIPLE_NAME};
use graph::scheme::permits;

pub mod above;

// Whether an edge from a node of one class to one of another conforms under the edges above it, none of which stands after it: the triple of
// classes is permitted, and the last edge is not one of the same functional name from the same node.
pub fn edge_conforms(above: &Above, source: u64, edge: u64, target: u64) -> bool
    requires { (source < 2 ^ 6) × (target < 2 ^ 6) }
    ensures { result
        ≡ (has (map unpack_triple above.now.permitted.keys.now) (triple source (unpack_triple edge).name target)
        && not (of_kind 0 (unpack_declared above.now.names) (unpack_triple edge).name && last_shares (map unpack_triple above.now.edges.now) (unpack_triple edge))) }
{
    let name = edge / TRIPLE_NAME % NUMBERS;
    permits(above.permitted, source, name, target)
        && !(above.names.of_kind(Declarations::FUNCTIONAL, name) && last_shares(above.edges, edge))
}

// The last edge has the same node and the same name as this one.
fn last_shares(edges: &[u64], edge: u64) -> bool
    ensures { result ≡ last_shares (map unpack_triple edges.now) (unpack_triple edge) }
{
    match edges.last() {
        Some(last) => last / TRIPLE_NAME == edge / TRIPLE_NAME,
        None => false,
    }
}
