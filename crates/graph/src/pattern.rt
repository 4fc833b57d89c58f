// The pattern as it is stored.
ghost use Rattle.graph.specs.Packed.{FreshPattern};

// Kept: arrays with their counts, since a pattern is read without a heap, into fixed memory that is copied by value.
#[derive(Clone, Copy)]
pub struct PackedPattern {
    pub nodes: [u64; PackedPattern::NODES],
    pub order: usize,
    pub edges: [u64; PackedPattern::EDGES],
    pub size: usize,
}

impl PackedPattern {
    pub const NODES: usize = 6;

    pub const EDGES: usize = 8;

    // Kept: a constructor that promises a fresh value; by a derived `Default` it would be one call more, of the same shape in each type.
    pub fn new() -> PackedPattern
        ensures { FreshPattern result }
    {
        PackedPattern {
            nodes: [0; PackedPattern::NODES],
            order: 0,
            edges: [0; PackedPattern::EDGES],
            size: 0,
        }
    }
}
