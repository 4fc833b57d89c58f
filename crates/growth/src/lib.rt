// A new node with its edges.
#![tactic(auto)]

ghost use Rattle.std.specs.Prelude.{◌≡◌, true, ◌++◌, map, ◌+◌, ◌*◌, ◌^◌, ◌<◌, ◌≤◌, length, take};
ghost use Rattle.lists.specs.Lists.{Below};
ghost use Rattle.graph.specs.Packed.{unpack_node};
ghost use Rattle.model.specs.Operations.{next_number};
ghost use Rattle.growth.specs.Growth.{verdict_for, Addable, Grows};

use graph::instance::PackedInstance;
use graph::packing::{NODE_CLASS, NODE_NUMBER, NODE_NUMBERS, TRIPLE_SOURCE};
use keys::Rising;
use model::Refusal;

// "House: a new node's number is the largest number standing plus 1, or 0 in an empty drawing"
fn next_number(nodes: Rising) -> u64
    ensures { result ≡ next_number (map unpack_node nodes.entry.keys.now) }
{
    match nodes.keys.last() {
        Some(node) => *node / NODE_NUMBER + 1,
        None => 0,
    }
}

// "For new nodes 9, 10, 11 are tried at each new node in turn": `size` has the new node's edges.
#[tactic(auto, unfolding(crate::specs::Growth::verdict_for))]
fn room_for(order: usize, number: u64, size: usize) -> Result<(), Refusal>
    ensures { result ≡ verdict_for order number size }
{
    if PackedInstance::NODES <= order {
        return Err(Refusal::NodesFull);
    }
    if NODE_NUMBERS <= number {
        return Err(Refusal::NumbersFull);
    }
    if PackedInstance::EDGES < size {
        return Err(Refusal::EdgesFull);
    }
    Ok(())
}

// An edge for each arm, after the first `size` edges.
// Kept: an array and how many of its keys stand, as the stored instance has them (the C interface, no heap), and so a place counted from `size` on.
fn put_edges(edges: &mut [u64], size: usize, number: u64, arms: &[u64])
    requires arms_in_bounds { size + length arms.now ≤ length edges.old }
    requires number_bound { number < 2 ^ 16 }
    requires below { Below (2 ^ 22) arms.now }
    ensures { take (size + length arms.now) edges.new
        ≡ take size edges.old ++ map (λ a. number * 2 ^ 22 + a) arms.now }
{
    for (i, arm) in arms.iter().enumerate() {
        edges[size + i] = number * TRIPLE_SOURCE + *arm;
    }
}

// A new node of the class, with an edge for each arm, which has a name and a node's number.
// Kept: that the instance may grow stays a `requires`, since a type that keeps it would hold the instance, which C lays out, and copy it in and out;
// and that arms have such names, since they are made anew for each node, so that a type would show the same at each call.
pub fn add_node(instance: &mut PackedInstance, class: u64, arms: &[u64]) -> Result<(), Refusal>
    requires addable { Addable instance.old }
    requires class_bound { class < 2 ^ 6 }
    requires below { Below (2 ^ 22) arms.now }
    ensures { Grows instance.old class arms.now result instance.new }
{
    let order = instance.order;
    let size = instance.size;
    let number = next_number(Rising {
        keys: &instance.nodes[..order],
    });
    room_for(order, number, size + arms.len())?;
    instance.nodes[order] = number * NODE_NUMBER + class * NODE_CLASS;
    instance.order = order + 1;
    put_edges(&mut instance.edges, size, number, arms);
    instance.size = size + arms.len();
    Ok(())
}
