// Runs: a node's edges of one name stand together in the rising edges, and their targets rise. So two sets of targets are the same if the two runs
// have the same targets, one by one. A run is told by node and name, as one number.
#![tactic(auto)]

ghost use Rattle.std.specs.Prelude.{◌≡◌, true, map, ◌*◌, ◌%◌, ◌^◌, ◌<◌, ◌≤◌, length};
ghost use Rattle.lists.specs.Lists.{any, Below, ◌!◌};
ghost use Rattle.lists.specs.Order.{same};
ghost use Rattle.keys.specs.Keys.{place_of};
ghost use Rattle.edge_runs.specs.Runs.{run_of, targets_at, lowest, Starts, Lookup, has_targets};

use graph::packing::{NODE_NUMBERS, NUMBERS, TRIPLE_NAME};
use keys::Rising;

// The runs of one name of some nodes, with the places where they begin among the rising edges.
// Kept: numbers and starts side by side: the numbers are the caller's, lent, and the starts alone are made.
#[derive(Clone, Copy)]
pub struct Runs<'e, 'n, 's> {
    pub edges: Rising<'e>,
    pub numbers: &'n [u64],
    pub name: u64,
    pub starts: &'s [u64],
    pub ghost lookup: { Lookup edges.keys.now numbers.now name starts.now },
}

// For each of the nodes, where its run of the name begins among the edges.
// Kept: an index, since by `iter_mut` and `zip` the proof, which then has to tell what each borrowed place holds in the end, didn't close.
pub fn find_starts(edges: Rising, numbers: &[u64], name: u64, starts: &mut [u64])
    requires below { Below (2 ^ 16) numbers.now }
    requires name_bound { name < 2 ^ 6 }
    requires numbers_in_bounds { length numbers.now ≤ length starts.old }
    ensures { Starts edges.entry.keys.now numbers.now name starts.new }
{
    for (i, number) in numbers.iter().enumerate() {
        starts[i] = edges.place((*number * NUMBERS + name) * TRIPLE_NAME) as u64;
    }
}

// Whether a run, which begins at `start`, has just these targets, each the lowest number of a key.
// Kept: both are walked together, since `map(..).eq(..)` would ask for the run's end, which is a search of its own.
pub fn targets_are(edges: Rising, run: u64, start: u64, keys: &[u64]) -> bool
    requires run_bound { run < 2 ^ 22 }
    requires start_value { start ≡ place_of (run * 2 ^ 16) edges.keys.now }
    ensures { result ≡ same (targets_at edges.entry.keys.now run) (map lowest keys.now) }
{
    let mut rest = edges.keys[start as usize..].iter();
    for key in keys {
        let Some(edge) = rest.next() else {
            return false
        };
        if *edge != run * TRIPLE_NAME + *key % NODE_NUMBERS {
            return false;
        }
    }
    match rest.next() {
        Some(edge) => *edge / TRIPLE_NAME != run,
        None => true,
    }
}

impl<'e, 'n, 's> Runs<'e, 'n, 's> {
    pub fn new(
        edges: Rising<'e>,
        numbers: &'n [u64],
        name: u64,
        starts: &'s mut [u64],
    ) -> Runs<'e, 'n, 's>
        requires below { Below (2 ^ 16) numbers.now }
        requires name_bound { name < 2 ^ 6 }
        requires numbers_in_bounds { length numbers.now ≤ length starts.old }
        ensures edges { result.edges.keys.now ≡ edges.entry.keys.now }
        ensures numbers { result.numbers.now ≡ numbers.now }
        ensures name { result.name ≡ name }
    {
        find_starts(edges, numbers, name, starts);
        Runs {
            edges,
            numbers,
            name,
            starts,
        }
    }

    // The run of the node at `i`.
    pub fn run(&self, i: usize) -> &'e [u64]
        requires { i < length self.now.numbers.now }
        ensures { map lowest result.now
            ≡ targets_at self.now.edges.keys.now (run_of self.now.name (self.now.numbers.now ! i)) }
    {
        let next = self
            .edges
            .place((self.numbers[i] * NUMBERS + self.name + 1) * TRIPLE_NAME);
        &self.edges.keys[self.starts[i] as usize..next]
    }

    // Whether the run of the node at `i` has just these targets.
    pub fn has(&self, i: usize, keys: &[u64]) -> bool
        requires { i < length self.now.numbers.now }
        ensures { result
            ≡ has_targets self.now.edges.keys.now self.now.name keys.now (self.now.numbers.now ! i) }
    {
        targets_are(
            self.edges,
            self.numbers[i] * NUMBERS + self.name,
            self.starts[i],
            keys,
        )
    }

    // Whether the run of one of the nodes has.
    pub fn any_has(&self, keys: &[u64]) -> bool
        ensures { result
            ≡ any (has_targets self.now.edges.keys.now self.now.name keys.now) self.now.numbers.now }
    {
        // Kept: over `(0..self.numbers.len()).any(..)` the proof did not close, since what holds of each index has to become a test on the numbers.
        for i in 0..self.numbers.len() {
            if self.has(i, keys) {
                return true;
            }
        }
        false
    }
}
