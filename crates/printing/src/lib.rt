// From rows to bytes: the lines of drawing files and rule texts as they are written.
#![tactic(auto)]

ghost use Rattle.std.specs.Prelude.{◌≡◌, ◌≤◌, length};
ghost use Rattle.lists.specs.Radix.{unrank};
ghost use Rattle.lists.specs.Buffers.{Writes};
ghost use Rattle.forms.specs.Forms.{kind_of, most_numbers, padded};
ghost use Rattle.printing.specs.Written.{most_of_numbers, ender, numbers_text, line_of, row_text};

use forms::{BYTES, Form, LineKind};
use numerals::digits::{numeral_length, write_digits, write_numeral};

// The numbers of a line, got from its row by dividing by the rooms, from the last on.
fn numbers_of(kind: LineKind, row: u64) -> [u64; Form::NUMBERS]
    ensures { result ≡ padded (unrank (kind_of kind).rooms row) }
{
    let form = kind.form();
    let mut numbers = [0; Form::NUMBERS];
    let mut rest = row;
    // Kept: one place for both arrays says it; `numbers[1..n].iter_mut().zip(&form.room[1..n]).rev()` names the same two parts twice.
    for place in (1..form.numbers).rev() {
        let room = form.room[place];
        numbers[place] = rest % room;
        rest /= room;
    }
    numbers[0] = rest;
    numbers
}

// "comma between", "each ended by byte 10": what stands after a number, where so many of the line's numbers are left.
fn ender(left: usize) -> u8
    ensures { result ≡ ender left }
{
    if left == 0 { b'\n' } else { b',' }
}

// How many bytes a line's numbers take, each with what ends it.
fn numbers_length(numbers: &[u64]) -> usize
    requires { length numbers.now ≤ most_numbers }
    ensures { (result ≡ length (numbers_text numbers.now)) × (result ≤ most_of_numbers) }
{
    numbers.iter().map(|n| numeral_length(*n) + 1).sum()
}

fn write_numbers(buf: &mut [u8], numbers: &[u64]) -> usize
    requires { length (numbers_text numbers.now) ≤ length buf.old }
    ensures { Writes (numbers_text numbers.now) buf.old result buf.new }
{
    let mut at = 0;
    // Kept: a numeral's length is known once it is written, so `at` says where the next starts; how many are left says what ends it.
    for (place, n) in numbers.iter().enumerate() {
        at += write_numeral(&mut buf[at..], *n);
        buf[at] = ender(numbers.len() - (place + 1));
        at += 1;
    }
    at
}

fn write_key(buf: &mut [u8], key: &[u8]) -> usize
    requires { length key.now ≤ length buf.old }
    ensures { Writes key.now buf.old result buf.new }
{
    buf[..key.len()].copy_from_slice(key);
    key.len()
}

// "Lines are key=numbers, comma between, no spaces, each ended by byte 10."
pub fn write_line(buf: &mut [u8], key: &[u8], numbers: &[u64]) -> usize
    requires in_bounds { 1 ≤ length numbers.now }
    requires numbers_in_bounds { length (line_of key.now numbers.now) ≤ length buf.old }
    ensures { Writes (line_of key.now numbers.now) buf.old result buf.new }
{
    let mut at = write_key(buf, key);
    buf[at] = b'=';
    at += 1;
    at + write_numbers(&mut buf[at..], numbers)
}

// How many bytes the line has.
pub fn row_length(kind: LineKind, row: u64) -> usize
    ensures { result ≡ length (row_text kind row) }
{
    let form = kind.form();
    let numbers = numbers_of(kind, row);
    form.letters + 1 + numbers_length(&numbers[..form.numbers])
}

pub fn write_row(buf: &mut [u8], kind: LineKind, row: u64) -> usize
    requires { length (row_text kind row) ≤ length buf.old }
    ensures { Writes (row_text kind row) buf.old result buf.new }
{
    let form = kind.form();
    let numbers = numbers_of(kind, row);
    let mut key = [0u8; Form::KEY_BYTES];
    write_digits(&mut key, form.letters, BYTES, 0, form.key);
    write_line(buf, &key[..form.letters], &numbers[..form.numbers])
}
