// Numbers as digits: how long a numeral is, and writing it.
ghost use Rattle.std.specs.Prelude.{◌≡◌, ◌+◌, ◌<◌, ◌≤◌, length};
ghost use Rattle.lists.specs.Decimal.{decimal, most_digits};
ghost use Rattle.lists.specs.Radix.{lowest};
ghost use Rattle.lists.specs.Buffers.{Writes};

const TEN: u64 = 10;

// How many digits the number has.
pub fn numeral_length(n: u64) -> usize
    ensures { (result ≡ length (decimal n)) × (result ≤ most_digits) }
{
    match n.checked_ilog10() {
        Some(power) => power as usize + 1,
        None => 1,
    }
}

// The lowest digits of a number, from the last on. `first` is the byte of digit 0.
// Kept: `count` beside the buffer, whose front is written: it may be longer, and the rest stays, as `Writes` says of every writer.
pub fn write_digits(buf: &mut [u8], count: usize, base: u64, first: u64, n: u64) -> usize
    requires base_nonzero { (0 < base) × (first + base ≤ 256) }
    requires count_in_bounds { count ≤ length buf.old }
    ensures { Writes (lowest base first count n) buf.old result buf.new }
{
    let mut rest = n;
    // Kept: an index from the last place on; over `iter_mut` the proof would have to tell what each place holds in the end, as in `arms_to`, where it did not close.
    for place in (0..count).rev() {
        buf[place] = (first + rest % base) as u8;
        rest /= base;
    }
    count
}

pub fn write_numeral(buf: &mut [u8], n: u64) -> usize
    requires { length (decimal n) ≤ length buf.old }
    ensures { Writes (decimal n) buf.old result buf.new }
{
    let count = numeral_length(n);
    write_digits(buf, count, TEN, b'0' as u64, n)
}
