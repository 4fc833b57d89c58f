// Keys that are noted while matchings are visited: each once, in the order in which they come, and beside them the same keys rising, so that one is
// found by halving. specs/Notes.antt says how keys are noted.
#![tactic(auto)]

ghost use Rattle.std.specs.Prelude.{◌≡◌, ◌≤◌, [], length};
ghost use Rattle.notes.specs.Notes.{most, note, note_all, sorted};

use graph::instance::PackedInstance;
use keys::{Rising, insert};
pub use noting::{Arms, Noting};
use std::marker::Model;

mod noting;

// Clauses see the keys as they came.
// Kept: arrays of fixed length with a count beside, since the engine has no heap.
#[derive(Drop)]
pub struct Notes {
    count: usize,
    coming: [u64; Notes::ROOM],
    rising: [u64; Notes::ROOM],
}

impl Model for Notes {
    ghost use Rattle.std.specs.Prelude.{ℕ, List};
    ghost use Rattle.notes.specs.Kept.{noted, Kept};

    ghost Value = { List ℕ };

    ghost view = { noted };

    ghost invariant = { Kept };
}

impl Notes {
    // How many keys are noted at most: one more than an instance has edges, which tells that they are too many.
    pub const ROOM: usize = PackedInstance::EDGES + 1;

    pub fn new() -> Notes
        ensures { result ≡ [] }
    {
        Notes {
            count: 0,
            coming: [0; Notes::ROOM],
            rising: [0; Notes::ROOM],
        }
    }

    // How many keys are noted.
    pub fn count(&self) -> usize
        ensures counts { result ≡ length self.now }
        ensures few { result ≤ most }
    {
        self.count
    }

    // The keys in the order in which they came.
    pub fn coming(&self) -> &[u64]
        ensures { result.now ≡ self.now }
    {
        &self.coming[..self.count]
    }

    // The keys as they rise: as many, since each is noted once.
    pub fn rising(&self) -> Rising
        ensures keys { result.keys.now ≡ sorted self.now }
        ensures each_once { length result.keys.now ≡ length self.now }
    {
        Rising {
            keys: &self.rising[..self.count],
        }
    }

    // Notes a key, unless it is noted already or there is no room.
    pub fn note(&mut self, key: u64)
        ensures { self.new ≡ note self.old key }
    {
        if self.count < Notes::ROOM {
            let more = insert(&mut self.rising, self.count, key);
            if more != self.count {
                self.coming[self.count] = key;
                self.count = more;
            }
        }
    }

    // Notes one key after another.
    pub fn note_all(&mut self, keys: &[u64])
        ensures { self.new ≡ note_all self.old keys.now }
    {
        for key in keys {
            self.note(*key);
        }
    }
}
