// The undo history, document 01's copies, as it is stored.
ghost use Rattle.graph.specs.Packed.{FreshHistory};

use crate::instance::PackedInstance;

// Newest first.
// Kept: the array with its count lies in the caller's memory, as C declares it.
#[repr(C)]
#[derive(Clone, Copy)]
pub struct History {
    pub copies: [PackedInstance; History::COPIES],
    pub depth: usize,
}

impl History {
    pub const COPIES: usize = 8;

    // Kept: a constructor that promises a fresh value; by a derived `Default` it would be one call more, of the same shape in each type.
    pub fn new() -> History
        ensures { FreshHistory result }
    {
        let none = PackedInstance::new();
        History {
            copies: [none; History::COPIES],
            depth: 0,
        }
    }
}
