// The instance, document 01's drawing, as it is stored.
ghost use Rattle.std.specs.Prelude.{◌≡◌, true, [], ◌∷◌, map, ◌<◌, ◌^◌, eqb, option_map};
ghost use Rattle.lists.specs.Lists.{find};
ghost use Rattle.lists.specs.Order.{rising};
ghost use Rattle.graph.specs.Packed.{FreshInstance, unpack_node};

use crate::packing::NODE_NUMBER;
use keys::Rising;

// A graph's order is its number of nodes, its size the number of its edges.
// Kept: the arrays with their counts lie in the caller's memory, as C declares them; and a pattern's nodes are other keys, so that one type for both
// graphs would say less.
#[repr(C)]
#[derive(Clone, Copy)]
pub struct PackedInstance {
    pub nodes: [u64; PackedInstance::NODES],
    pub order: usize,
    pub edges: [u64; PackedInstance::EDGES],
    pub size: usize,
}

impl PackedInstance {
    pub const NODES: usize = 256;

    pub const EDGES: usize = 512;

    // Kept: a constructor that promises a fresh value; by a derived `Default` it would be one call more, of the same shape in each type.
    pub fn new() -> PackedInstance
        ensures { FreshInstance result }
    {
        PackedInstance {
            nodes: [0; PackedInstance::NODES],
            order: 0,
            edges: [0; PackedInstance::EDGES],
            size: 0,
        }
    }
}

// The key of the node that has the number: at once where numbers have no gap, else by halving.
pub fn node_at(nodes: &[u64], number: u64) -> Option<u64>
    requires nodes_value { rising (map (λ n. n.number ∷ []) (map unpack_node nodes.now)) ≡ true }
    requires number_bound { number < 2 ^ 16 }
    ensures { option_map unpack_node result ≡ find (λ n. eqb n.number number) (map unpack_node nodes.now) }
{
    let at = Rising { keys: nodes }.place_dense(number * NODE_NUMBER, NODE_NUMBER);
    let node = *nodes.get(at)?;
    (node / NODE_NUMBER == number).then_some(node)
}
