// What the nodes of a class serve in node addition: the images to which a node has its arms are one key, the targets in base 2 ^ 16. Names of arms are
// functional, so a node has at most one such key, and serves the matchings that make it.
#![tactic(auto)]

ghost use Rattle.std.specs.Prelude.{◌≡◌, ◌^◌, ◌<◌};
ghost use Rattle.lists.specs.Lists.{Below};
ghost use Rattle.notes.specs.Notes.{note_all};
ghost use Rattle.serving.specs.Served.{first_target, served_key, served_keys};

use graph::packing::{
    ARM_NAME, NODE_CLASS, NODE_NUMBER, NODE_NUMBERS, NUMBERS, TRIPLE_NAME, TRIPLE_SOURCE,
};
use keys::Rising;
use notes::{Arms, Notes};

// The target of the node's first edge of the name.
fn first_target(edges: Rising, number: u64, name: u64) -> Option<u64>
    requires number_bound { (number < 2 ^ 16) × (name < 2 ^ 6) }
    ensures { result ≡ first_target edges.entry.keys.now number name }
{
    let run = number * TRIPLE_SOURCE + name * TRIPLE_NAME;
    let edge = edges.keys.get(edges.place(run))?;
    if edge / TRIPLE_NAME == run / TRIPLE_NAME {
        Some(edge % NODE_NUMBERS)
    } else {
        None
    }
}

// The key of the images that the node serves, if it has all the arms.
fn served_key(edges: Rising, number: u64, arms: Arms) -> Option<u64>
    requires number_bound { number < 2 ^ 16 }
    requires below { Below (2 ^ 22) arms.parts.now }
    ensures { result ≡ served_key edges.entry.keys.now number 0 arms.entry.parts.now }
{
    let mut key = 0;
    for arm in arms.parts {
        key = key * NODE_NUMBERS + first_target(edges, number, arm / ARM_NAME)?;
    }
    Some(key)
}

// Notes what the nodes of the class serve.
pub fn note_served(nodes: &[u64], edges: Rising, class: u64, arms: Arms, notes: &mut Notes)
    requires below { Below (2 ^ 54) nodes.now }
    requires below_2 { Below (2 ^ 22) arms.parts.now }
    ensures { notes.new ≡ note_all notes.old (served_keys class arms.entry.parts.now edges.entry.keys.now nodes.now) }
{
    for node in nodes {
        if node / NODE_CLASS % NUMBERS == class {
            if let Some(key) = served_key(edges, node / NODE_NUMBER, arms) {
                notes.note(key);
            }
        }
    }
}
