// Drawing files: from any bytes to a scheme and an instance; or the first bad line, "tried 1 to 5".
#![tactic(auto)]

pub mod drawing;
pub mod whole;

// The first so many bytes of a drawing file, and fewer of a rule text, decide what is read of it.
pub const ENOUGH: usize = 20106;
