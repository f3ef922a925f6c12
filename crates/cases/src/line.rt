// The line that the input has begun.
use crate::operation::Operation;
use crate::words::{self, Words};
use crate::wrong::{Failure, Wrong};
use crate::{lent, output};
use std::io::{self, Write};
use std::mem;

// The bytes that have come of it are the first `n` of its room. Where that is full, the rest of the line may be lost.
#[derive(Drop)]
pub struct Line<'a> {
    room: &'a mut [u8],
    n: usize,
}

// Answers a line that is not too long.
fn answer<W: Write>(out: &mut W, line: &mut [u8], table: &mut [u32]) -> Result<(), Failure> {
    if line.is_empty() {
        return Ok(());
    }
    let count = words::count(line);
    let mut words = Words::of(line);
    let name: &[u8] = words.next()?;
    if name == b"help".as_slice() {
        return Ok(output::usage(out)?);
    }
    let operation = Operation::named(name)?;
    operation.fits(count)?;
    lent::answer(out, operation, &mut words, table)
}

impl<'a> Line<'a> {
    pub fn new(room: &'a mut [u8]) -> Line<'a> {
        Line { room, n: 0 }
    }

    // Puts a byte behind the others, where there is room.
    fn push(&mut self, b: u8) {
        if self.n < self.room.len() {
            self.room[self.n] = b;
            self.n += 1;
        }
    }

    // Answers the line, or says what is wrong with it, and begins another.
    pub fn end<W: Write>(&mut self, out: &mut W, table: &mut [u32]) -> io::Result<()> {
        let n = mem::replace(&mut self.n, 0);
        if self.room.len() <= n {
            return output::refuse(out, Wrong::LineLength);
        }
        match answer(out, &mut self.room[..n], table) {
            Ok(()) => Ok(()),
            Err(Failure::Wrong(wrong)) => output::refuse(out, wrong),
            Err(Failure::Io(e)) => Err(e),
        }
    }

    // Takes bytes of the input: each belongs to the line, or ends it.
    pub fn take<W: Write>(
        &mut self,
        out: &mut W,
        bytes: &[u8],
        table: &mut [u32],
    ) -> io::Result<()> {
        for b in bytes {
            if *b == b'\n' {
                self.end(out, table)?;
            } else {
                self.push(*b);
            }
        }
        Ok(())
    }
}
