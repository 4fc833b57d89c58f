// Node addition: a new node for each key that is noted and not served.
#![tactic(auto)]

ghost use Rattle.std.specs.Prelude.{◌≡◌, ◌^◌, ◌<◌, length};
ghost use Rattle.lists.specs.Lists.{Below};
ghost use Rattle.graph.specs.Packed.{unpack_instance};
ghost use Rattle.growth.specs.Growth.{Makes, Addable};
ghost use Rattle.node_addition.specs.Added.{arms_to, added_for};

use graph::instance::PackedInstance;
use graph::packing::{ARM_NAME, NODE_NUMBERS};
use graph::rule::PackedAction;
use growth::add_node;
use model::Refusal;
use notes::Arms;

// The arms with the nodes of a key in place of pattern nodes.
fn arms_to(arms: &[u64], key: u64, to: &mut [u64])
    requires { length to.old ≡ length arms.now }
    ensures { to.new ≡ arms_to arms.now key }
{
    let mut left = key;
    // Kept: over `arms.iter().zip(to).rev()` the proof did not close: it has to tell what each borrowed place holds in the end.
    for i in (0..arms.len()).rev() {
        to[i] = arms[i] / ARM_NAME * ARM_NAME + left % NODE_NUMBERS;
        left /= NODE_NUMBERS;
    }
}

// A new node for each key in turn.
pub fn with_nodes(
    instance: &mut PackedInstance,
    class: u64,
    arms: Arms,
    keys: &[u64],
) -> Result<(), Refusal>
    requires addable { Addable instance.old }
    requires class_bound { class < 2 ^ 6 }
    requires below { Below (2 ^ 22) arms.parts.now }
    ensures { Makes (added_for class arms.entry.parts.now keys.now (unpack_instance instance.old)) result instance.new }
{
    let mut to = [0; PackedAction::PARTS];
    let to = &mut to[..arms.parts.len()];
    for key in keys {
        arms_to(arms.parts, *key, to);
        add_node(instance, class, to)?;
    }
    Ok(())
}
