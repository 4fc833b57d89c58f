// Bytes, digits and numerals: where a byte stands, the numeral that bytes are, and the bytes of a number.
#![tactic(auto)]

pub mod digits;
pub mod scan;
