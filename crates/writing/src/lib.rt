// From a scheme and an instance to a drawing file.
#![tactic(auto)]

pub mod save;
