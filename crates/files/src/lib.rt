// Texts in files. What can't be read is told on standard error, and is never taken for an empty text.
#![tactic(auto)]

ghost use Rattle.std.specs.Prelude.{◌≡◌, ◌≤◌, ◌+◌, ◌-◌, ◌^◌, length, IfOk, IfSome};
ghost use Rattle.std.specs.Iterator.{at_most};

use std::env::FillError;
use std::fs;
use std::io::{self, Error, ErrorKind, Read};
use std::rt::{Env, Files};
use std::str::from_utf8;

// A message that can't be written leaves nothing to be told by.
fn tell(rt: &impl Eprint, name: &[u8], error: Error) {
    let _told = match from_utf8(name) {
        Ok(text) => eprintln!(rt; "{text}: {error}"),
        Err(_) => eprintln!(rt; "a file whose name is no UTF-8: {error}"),
    };
}

// The first bytes of an open file, as many as the buffer has room for. One more byte is asked for then, so that a file that can't be read on shows.
fn read_front<F: Read>(file: &mut F, text: &mut [u8]) -> io::Result<usize>
    ensures { IfOk result (λ n. n ≤ length text.new) }
{
    let mut length = 0;
    // Kept: a read may give fewer bytes than there is room for, so that none but the reads themselves tell how often there is one.
    while length < text.len() {
        match file.read(&mut text[length..])? {
            0 => break,
            got => length += got,
        }
    }
    file.read(&mut [0u8; 1])?;
    Ok(length)
}

fn read_named(rt: &impl Files, name: &[u8], text: &mut [u8]) -> io::Result<usize>
    ensures { IfOk result (λ n. n ≤ length text.new) }
{
    let Ok(path) = from_utf8(name) else {
        return Err(Error::from(ErrorKind::InvalidInput))
    };
    let mut file = fs::open(rt, path)?;
    read_front(&mut file, text)
}

// How many bytes of an open file stand at the front of the buffer, or none if it can't be read.
pub fn load_opened<F: Read>(
    rt: &impl Eprint,
    file: &mut F,
    name: &[u8],
    text: &mut [u8],
) -> Option<usize>
    ensures { IfSome result (λ n. n ≤ length text.new) }
{
    read_front(file, text)
        .map_err(|error| tell(rt, name, error))
        .ok()
}

// The same of a file by its name.
// Kept: two chains of two calls each, which a function for both would not make plainer.
pub fn load(rt: &(impl Files + Eprint), name: &[u8], text: &mut [u8]) -> Option<usize>
    ensures { IfSome result (λ n. n ≤ length text.new) }
{
    read_named(rt, name, text)
        .map_err(|error| tell(rt, name, error))
        .ok()
}

// The length of an argument of the program, at the front of the buffer, or none where there is no such argument. One that is too long for the buffer
// has the buffer's length, and names no file.
pub fn argument(rt: &impl Env, i: usize, name: &mut [u8]) -> Option<usize>
    ensures { IfSome result (λ n. n ≤ length name.new) }
{
    match rt.arg(i, name) {
        Ok(length) => Some(length),
        Err(FillError::TooLong) => Some(name.len()),
        Err(FillError::NotPresent) => None,
    }
}

// A name of a file has so many bytes at most, where a program asks for no more.
pub const NAME: usize = 64;

// An argument of the program, which names a file. One that is too long has `ROOM` bytes, and names none.
#[derive(Clone, Copy)]
pub struct Name<const ROOM: usize> {
    bytes: [u8; ROOM],
    length: usize,
    ghost inside: { length ≤ ROOM },
}

impl<const ROOM: usize> Name<ROOM> {
    pub fn bytes(&self) -> &[u8]
        ensures { length result.now ≤ ROOM }
    {
        &self.bytes[..self.length]
    }
}

impl<const ROOM: usize> Default for Name<ROOM> {
    fn default() -> Self {
        Name {
            bytes: [0; ROOM],
            length: 0,
        }
    }
}

// The arguments of the program, each of at most `ROOM` bytes, one after another: none is passed over.
#[derive(Drop)]
pub struct Arguments<'a, E, const ROOM: usize> {
    rt: &'a E,
    next: usize,
}

impl<'a, E: Env, const ROOM: usize> Arguments<'a, E, ROOM> {
    // Argument 0 is the program itself.
    pub fn new(rt: &'a E) -> Self
        ensures { result.next ≡ 1 }
    {
        Arguments { rt, next: 1 }
    }
}

impl<'a, E: Env, const ROOM: usize> Iterator for Arguments<'a, E, ROOM> {
    type Item = Name<ROOM>;

    ghost next_gives = { λ s r t. IfSome r (λ name. t.next ≡ s.next + 1) };

    ghost remaining = { λ s. at_most (2 ^ 64 - 1 - s.next) };

    fn next(&mut self) -> Option<Name<ROOM>> {
        let after = self.next.checked_add(1)?;
        let mut bytes = [0; ROOM];
        let length = argument(self.rt, self.next, &mut bytes)?;
        self.next = after;
        Some(Name { bytes, length })
    }

    // Kept: the library's own would ask that a `Name` is not too large for memory, which of any `ROOM` is not known.
    fn size_hint(&self) -> (usize, Option<usize>) {
        (0, None)
    }
}
