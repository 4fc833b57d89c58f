// Edge addition.
#![tactic(auto)]

ghost use Rattle.std.specs.Prelude.{◌≡◌};
ghost use Rattle.graph.specs.Packed.{unpack_scheme, unpack_instance, StoredInstance};
ghost use Rattle.growth.specs.Growth.{Makes};
ghost use Rattle.edge_addition.specs.Joined.{first_torn, SourcesIn, joined_to};

use graph::declarations::Declarations;
use graph::instance::PackedInstance;
use graph::packing::{NUMBERS, TRIPLE_NAME, TRIPLE_SOURCE};
use graph::scheme::PackedScheme;
use keys::Rising;
use model::Refusal;

// The source of the first of the rising edges that has the functional name of the edge before it, from the same node: the smallest such node.
fn torn_node(names: Declarations, edges: &[u64]) -> Option<u64>
    ensures { result ≡ first_torn names edges.now }
{
    for &[last, edge] in edges.array_windows::<2>() {
        let run = edge / TRIPLE_NAME;
        if last / TRIPLE_NAME == run && names.of_kind(Declarations::FUNCTIONAL, run % NUMBERS) {
            return Some(edge / TRIPLE_SOURCE);
        }
    }
    None
}

// What edge addition makes of an instance, of its edges joined with the images: "for edge addition 11 before 12".
pub fn with_edges(
    scheme: &PackedScheme,
    instance: &mut PackedInstance,
    joined: Rising,
) -> Result<(), Refusal>
    requires stored_instance { StoredInstance (unpack_scheme scheme.now) instance.old }
    requires sources_in { SourcesIn (unpack_instance instance.old) joined.keys.now }
    ensures { Makes (joined_to (unpack_scheme scheme.now) joined.entry.keys.now (unpack_instance instance.old)) result instance.new }
{
    let joined = joined.keys;
    let size = joined.len();
    if PackedInstance::EDGES < size {
        return Err(Refusal::EdgesFull);
    }
    if let Some(node) = torn_node(scheme.names, joined) {
        return Err(Refusal::FunctionalClash { node });
    }
    instance.edges[..size].copy_from_slice(joined);
    instance.size = size;
    Ok(())
}
