// Abstraction, of the images that are noted: new nodes for the groups that no old node serves.
#![tactic(auto)]

ghost use Rattle.std.specs.Prelude.{◌≡◌, true, ◌^◌, ◌<◌, ◌≤◌, length, take};
ghost use Rattle.lists.specs.Lists.{Below};
ghost use Rattle.model.specs.Limits;
ghost use Rattle.model.specs.Refusals.{in_turn};
ghost use Rattle.keys.specs.Keys.{keys_rise};
ghost use Rattle.graph.specs.Packed.{unpack_instance};
ghost use Rattle.growth.specs.Growth.{Makes, Addable};
ghost use Rattle.abstraction.specs.Grouped.{GrowsTo, added_with, added_at, grouped_to};

use edge_runs::Runs;
use graph::instance::PackedInstance;
use groups::{Images, numbers_of};
use growth::add_node;
use keys::Rising;
use model::Refusal;

// A new node with the arms, unless there are none or one of the old nodes, whose runs are given, has just their targets.
fn add_group(
    instance: &mut PackedInstance,
    class: u64,
    arms: &[u64],
    old: &Runs,
) -> Result<(), Refusal>
    requires addable { Addable instance.old }
    requires class_bound { class < 2 ^ 6 }
    requires below { Below (2 ^ 22) arms.now }
    ensures { GrowsTo (added_with class arms.now old.now.edges.keys.now old.now.numbers.now old.now.name
        (unpack_instance instance.old)) result instance.new }
{
    if arms.is_empty() || old.any_has(arms) {
        return Ok(());
    }
    add_node(instance, class, arms)
}

// A new node for each group of the images in turn that none of the old nodes has as its targets.
fn add_groups(
    instance: &mut PackedInstance,
    class: u64,
    images: &Images,
    old: &Runs,
) -> Result<(), Refusal>
    requires addable { Addable instance.old }
    requires class_bound { class < 2 ^ 6 }
    requires images_len_bound { length images.now.runs.numbers.now ≤ Limits.nodes }
    requires edges { images.now.runs.edges.keys.now ≡ old.now.edges.keys.now }
    ensures { GrowsTo
        (in_turn images.now.runs.numbers.now
        (added_at class images.now.runs.numbers.now images.now.runs.name old.now.edges.keys.now old.now.numbers.now old.now.name)
        (unpack_instance instance.old))
        result instance.new }
{
    let mut arms = [0; PackedInstance::NODES];
    // Kept: the place goes on to `arms_led_by`, which asks for the images before it.
    for i in 0..images.runs.numbers.len() {
        let count = images.arms_led_by(i, old.name, &mut arms);
        add_group(instance, class, &arms[..count], old)?;
    }
    Ok(())
}

// What abstraction makes of an instance, of the images.
// Kept: that the instance's own edges rise stays a `requires`: `Rising` is made of them here, and any other type would hold the instance.
pub fn with_groups(
    instance: &mut PackedInstance,
    class: u64,
    a: u64,
    b: u64,
    images: Rising,
) -> Result<(), Refusal>
    requires addable { Addable instance.old }
    requires edges_value { keys_rise (take instance.old.size instance.old.edges) ≡ true }
    requires below { Below (2 ^ 16) images.keys.now }
    requires images_len_bound { length images.keys.now ≤ Limits.nodes }
    requires class_bound { (class < 2 ^ 6) × (a < 2 ^ 6) × (b < 2 ^ 6) }
    ensures { Makes (grouped_to class a b images.entry.keys.now (unpack_instance instance.old)) result instance.new }
{
    let before = *instance;
    let edges = Rising {
        keys: &before.edges[..before.size],
    };
    let mut numbers = [0; PackedInstance::NODES];
    let count = numbers_of(&before.nodes[..before.order], class, &mut numbers);
    let mut starts = [0; PackedInstance::NODES];
    let old = Runs::new(edges, &numbers[..count], b, &mut starts);
    let mut starts = [0; PackedInstance::NODES];
    let runs = Runs::new(edges, images.keys, a, &mut starts);
    let images = Images { runs };
    add_groups(instance, class, &images, &old)
}
