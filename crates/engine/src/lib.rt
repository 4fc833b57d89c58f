// The engine's calls over a session that the caller holds, in one place: four change it, and three only read it.
// Demands 1 to 3 are said of `Stepped`, which the `ensures` of each states.
#![tactic(auto)]

pub use calls::{apply, close, open, undo};
pub use queries::{after, first, save};
