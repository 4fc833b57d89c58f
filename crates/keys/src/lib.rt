// Rising keys: search by halving, insertion and removal that keep the order.
#![tactic(auto)]

ghost use Rattle.std.specs.Prelude.{◌≡◌, true, not, ◌<◌, ◌≤◌, ◌%◌, eqb, length, take};
ghost use Rattle.lists.specs.Lists.{any, keep, member};
ghost use Rattle.keys.specs.Keys.{keys_rise, place_of, join_key, Front};

// Keys that rise, so that one is found by halving.
#[derive(Clone, Copy)]
pub struct Rising<'a> {
    pub keys: &'a [u64],
    pub ghost rise: { keys_rise keys.now ≡ true },
}

impl Rising<'_> {
    ghost use Rattle.std.specs.Prelude.{◌≡◌, ◌<◌};
    ghost use Rattle.lists.specs.Lists.{member};
    ghost use Rattle.keys.specs.Keys.{place_of};

    // How many keys are below `key`, which is where it stands or would stand.
    pub fn place(self, key: u64) -> usize
        ensures { result ≡ place_of key self.entry.keys.now }
    {
        self.keys.partition_point(|k| *k < key)
    }

    // Where the key stands if the keys, in units of `unit`, follow each other without a gap.
    fn guess(self, key: u64, unit: u64) -> usize
        requires { 0 < unit }
    {
        let Some(first) = self.keys.first() else {
            return 0;
        };
        (key / unit).saturating_sub(*first / unit) as usize
    }

    // The same as `place`, which is asked only if the key does not stand at `at`.
    fn place_near(self, key: u64, at: usize) -> usize
        ensures { result ≡ place_of key self.entry.keys.now }
    {
        let keys = self.keys;
        if at < keys.len() && key <= keys[at] && (at == 0 || keys[at - 1] < key) {
            at
        } else {
            self.place(key)
        }
    }

    // The same as `place`, in one step where the keys follow each other without a gap.
    pub fn place_dense(self, key: u64, unit: u64) -> usize
        requires unit_nonzero { 0 < unit }
        ensures { result ≡ place_of key self.entry.keys.now }
    {
        self.place_near(key, self.guess(key, unit))
    }

    // Whether the key stands at its place.
    fn stands(self, key: u64, at: usize) -> bool
        requires { at ≡ place_of key self.keys.now }
        ensures { result ≡ member self.entry.keys.now key }
    {
        at < self.keys.len() && self.keys[at] == key
    }

    pub fn has(self, key: u64) -> bool
        ensures { result ≡ member self.entry.keys.now key }
    {
        self.stands(key, self.place(key))
    }
}

// Whether some key is the same as `key` in what is left when both are divided by `range`. It looks at each: no order serves here.
pub fn shares(keys: &[u64], key: u64, range: u64) -> bool
    requires { 0 < range }
    ensures { result ≡ any (λ k. eqb (k % range) (key % range)) keys.now }
{
    keys.iter().any(|k| *k % range == key % range)
}

// The first `count` keys with `key` among them, once; how many they are then.
// Kept: here and in `remove` an array and how many of its keys stand, as fixed memory has them without a heap.
#[tactic(auto, using(crate::specs::Laws::Keys::place_front))]
pub fn insert(keys: &mut [u64], count: usize, key: u64) -> usize
    requires count_in_bounds { count < length keys.old }
    requires keys_value { keys_rise (take count keys.old) ≡ true }
    ensures { Front keys.new result (join_key key (take count keys.old)) }
{
    let standing = Rising {
        keys: &keys[..count],
    };
    let at = standing.place(key);
    if standing.stands(key, at) {
        return count;
    }
    keys.copy_within(at..count, at + 1);
    keys[at] = key;
    count + 1
}

// The first `count` keys without `key`; how many they are then.
#[tactic(auto, using(crate::specs::Laws::Keys::place_front))]
pub fn remove(keys: &mut [u64], count: usize, key: u64) -> usize
    requires count_in_bounds { count ≤ length keys.old }
    requires keys_value { keys_rise (take count keys.old) ≡ true }
    ensures { Front keys.new result (keep (λ k. not (eqb k key)) (take count keys.old)) }
{
    let standing = Rising {
        keys: &keys[..count],
    };
    let at = standing.place(key);
    if !standing.stands(key, at) {
        return count;
    }
    keys.copy_within(at + 1..count, at);
    count - 1
}
