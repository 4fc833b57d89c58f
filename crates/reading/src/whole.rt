// What a drawing file makes.
ghost use Rattle.graph.specs.Packed.{unpack_scheme, StoredScheme, StoredInstance, FreshScheme, FreshInstance};

use graph::instance::PackedInstance;
use graph::scheme::PackedScheme;

// What an accepted file makes: a scheme, and an instance of it, each stored as it should be.
#[derive(Clone, Copy)]
pub struct Whole {
    pub scheme: PackedScheme,
    pub instance: PackedInstance,
    pub ghost scheme_stored: { StoredScheme scheme },
    pub ghost instance_stored: { StoredInstance (unpack_scheme scheme) instance },
}

impl Whole {
    // What a file without lines makes.
    // Kept: a constructor that promises a fresh value; by a derived `Default` it would be one call more, of the same shape in each type.
    pub fn new() -> Whole
        ensures scheme { FreshScheme result.scheme }
        ensures instance { FreshInstance result.instance }
    {
        Whole {
            scheme: PackedScheme::new(),
            instance: PackedInstance::new(),
        }
    }
}
