// How the engine stores a scheme, an instance, a pattern, a rule and the undo history: plain data, packed keys in rising order, and how many of
// them stand. specs/Packed.antt says what each value means. A limit is an associated constant.
#![tactic(auto)]

pub mod declarations;
pub mod history;
pub mod instance;
pub mod packing;
pub mod pattern;
pub mod rule;
pub mod scheme;
