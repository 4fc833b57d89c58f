// From bytes to lines: the lines of drawing files and rule texts, and their order.
#![tactic(auto)]

pub mod lines;
