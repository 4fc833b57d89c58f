// The scheme as it is stored.
ghost use Rattle.std.specs.Prelude.{◌≡◌, map, ◌<◌, ◌^◌};
ghost use Rattle.model.specs.Graph.{has};
ghost use Rattle.graph.specs.Packed.{FreshScheme, unpack_triple, triple};

use crate::declarations::Declarations;
use crate::packing::{TRIPLE_NAME, TRIPLE_SOURCE};
use keys::Rising;

// Kept: the array with its count lies in the caller's memory, as C declares it.
#[repr(C)]
#[derive(Clone, Copy)]
pub struct PackedScheme {
    pub classes: Declarations,
    pub names: Declarations,
    pub permitted: [u64; PackedScheme::PERMITTED],
    pub permissions: usize,
}

impl PackedScheme {
    pub const PERMITTED: usize = 256;

    // Kept: a constructor that promises a fresh value; by a derived `Default` it would be one call more, of the same shape in each type.
    pub fn new() -> PackedScheme
        ensures { FreshScheme result }
    {
        PackedScheme {
            classes: Declarations::new(),
            names: Declarations::new(),
            permitted: [0; PackedScheme::PERMITTED],
            permissions: 0,
        }
    }
}

// Whether the triple of classes is permitted.
pub fn permits(permitted: Rising, source: u64, name: u64, target: u64) -> bool
    requires { (source < 2 ^ 16) × (name < 2 ^ 6) × (target < 2 ^ 16) }
    ensures { result ≡ has (map unpack_triple permitted.entry.keys.now) (triple source name target) }
{
    permitted.has(source * TRIPLE_SOURCE + name * TRIPLE_NAME + target)
}
