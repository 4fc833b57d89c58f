// Numerals, and where a byte stands.
ghost use Rattle.std.specs.Prelude.{◌≡◌};
ghost use Rattle.numerals.specs.Scan.{up_to, numeral_below};

// How many bytes stand before the first `byte`: all where it is not there.
// Kept: a number and no `Option`, since it is `up_to`, by which lines are taken apart: what stands before a byte that is not there is all.
pub fn find(s: &[u8], byte: u8) -> usize
    ensures { result ≡ up_to byte s.now }
{
    s.iter().position(|b| *b == byte).unwrap_or(s.len())
}

// "A number has no sign and no leading zero." The value stops at `below`, so that it never wraps, however long the numeral is.
// Kept: no `parse` of the library, which takes a sign and leading zeros, and knows no bound at which to stop.
pub fn numeral_below(s: &[u8], below: u32) -> Option<u64>
    ensures { result ≡ numeral_below below s.now }
{
    if s.is_empty() {
        return None;
    }
    if 1 < s.len() && s[0] == b'0' {
        return None;
    }
    let mut value: u64 = 0;
    for b in s {
        if !b.is_ascii_digit() {
            return None;
        }
        value = value * 10 + (*b - b'0') as u64;
        if below as u64 <= value {
            return None;
        }
    }
    Some(value)
}
