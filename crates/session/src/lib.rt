// The engine's state. specs/Sessions.antt says what it stands for, and what every call is held to.
#![tactic(auto)]

ghost use Rattle.session.specs.Sessions.{NewSession};

use graph::history::History;
use graph::instance::PackedInstance;
use graph::scheme::PackedScheme;

// Shut, or open with scheme, instance and copies.
// Kept: a flag beside what it rules, since C lays out and reads the session, and no enum crosses that border.
// Kept: what every call requires is one clause, `StoredSession`, the invariant that the project asks for by name; no fact is kept in a session that C holds.
#[repr(C)]
#[derive(Clone, Copy)]
pub struct Session {
    pub opened: bool,
    pub scheme: PackedScheme,
    pub instance: PackedInstance,
    pub history: History,
}

impl Session {
    // Kept: a constructor that promises a fresh value; by a derived `Default` it would be one call more, of the same shape in each type.
    pub fn new() -> Session
        ensures { NewSession result }
    {
        Session {
            opened: false,
            scheme: PackedScheme::new(),
            instance: PackedInstance::new(),
            history: History::new(),
        }
    }
}
