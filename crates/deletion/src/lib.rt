// Node deletion and edge deletion, of what is noted: keys that go are taken out of rising keys in one pass.
#![tactic(auto)]

ghost use Rattle.std.specs.Prelude.{◌≡◌, ℕ, Bool, true, ◌^◌, ◌≤◌, length, take};
ghost use Rattle.lists.specs.Lists.{keep, Below};
ghost use Rattle.keys.specs.Keys.{Front};
ghost use Rattle.graph.specs.Packed.{Fits};
ghost use Rattle.deletion.specs.Deleted.{marked, Marks, WithoutNodes, WithoutEdges};

use graph::instance::PackedInstance;
use graph::packing::{NODE_NUMBER, NODE_NUMBERS, TRIPLE_SOURCE};
use keys::Rising;

// Marks of nodes' numbers: a bit for each in words, so that whether a number is among them takes one reading.
#[derive(Drop)]
struct Marked {
    words: [u64; Marked::WORDS],
}

impl Marked {
    const WORDS: usize = 1024;

    const BITS: u64 = 64;

    const DIGITS: u64 = 2;

    fn of(numbers: &[u64]) -> Marked
        requires { Below (2 ^ 16) numbers.now }
        ensures { Marks numbers.now result.words }
    {
        let mut words = [0; Marked::WORDS];
        for n in numbers {
            words[(*n / Marked::BITS) as usize] |= 1 << *n % Marked::BITS;
        }
        Marked { words }
    }

    fn has(&self, n: u64) -> bool
        ensures { result ≡ marked self.now.words n }
    {
        n < NODE_NUMBERS
            && (self.words[(n / Marked::BITS) as usize] >> n % Marked::BITS) % Marked::DIGITS == 1
    }
}

// Those of the first `count` keys that stay; how many they are.
// Kept: an array and how many of its keys stand, as the stored instance has them (the C interface, no heap).
fn retain<F: Fn(u64) -> bool>(keys: &mut [u64], count: usize, stays: F) -> usize
    requires count_in_bounds { count ≤ length keys.old }
    requires stays { F.IsAlwaysCallable stays }
    ensures { (p : ℕ → Bool) → ((k : ℕ) (r : Bool) → F.post stays k r → r ≡ p k)
        → Front keys.new result (keep p (take count keys.old)) }
{
    let mut kept = 0;
    // Kept: an index, since the keys are read and written in one array.
    for next in 0..count {
        let key = keys[next];
        if stays(key) {
            keys[kept] = key;
            kept += 1;
        }
    }
    kept
}

// "Its images go, with every edge at them"
pub fn without_nodes(instance: &mut PackedInstance, gone: &[u64])
    requires fits { Fits instance.old }
    requires below { Below (2 ^ 16) gone.now }
    ensures { WithoutNodes gone.now instance.old instance.new }
{
    let marked = Marked::of(gone);
    instance.order = retain(&mut instance.nodes, instance.order, |key| {
        !marked.has(key / NODE_NUMBER)
    });
    instance.size = retain(&mut instance.edges, instance.size, |key| {
        !marked.has(key / TRIPLE_SOURCE) && !marked.has(key % NODE_NUMBERS)
    });
}

// "Their images go."
pub fn without_edges(instance: &mut PackedInstance, gone: Rising)
    requires fits { Fits instance.old }
    ensures { WithoutEdges gone.entry.keys.now instance.old instance.new }
{
    instance.size = retain(&mut instance.edges, instance.size, |key| !gone.has(key));
}
