// What all answers have: a number and a position, lists of numbers and an end; the usage, and what is wrong with a case.
use crate::page;
use crate::wrong::Wrong;
use base::refusal::{Reason, Refusal};
use itoa::Integer;
use std::io::{self, Write};

// What the program does, for who asks for help or gives it nothing.
const USAGE: &[u8] = b"\
Answers cases, one on each line of the input. SOURCE is a lesson's bytes in hexadecimal digits, - for none, TAPE
the samples and LIBRARY a library in the same form; TABLE, STRIP, HEAP and OUTPUT say how many words are lent,
REGISTERS and TEXT how many bytes.
  read TABLE SOURCE: number, position, tokens, nodes
  check TABLE SOURCE: number, position, classes
  menu TABLE STRIP SOURCE: number, position, classes, then what is written
  run TABLE BUDGET CALLS HEAP OUTPUT REGISTERS TAPE SOURCE: number, position, steps, climbs, heap words,
    registers, then what is printed
  join TABLE TEXT SOURCE LIBRARY: number, position, bytes, then what is written
  print TABLE TEXT SOURCE: number, position, bytes, then what is written
A line that is no case is answered by what is wrong with it. STRIP after an answer says that something lent
does not hold what it should.
";

// Writes the usage.
pub fn usage<W: Write>(out: &mut W) -> io::Result<()> {
    out.write_all(USAGE)
}

// The number and the position of an answer: 0 and 0 after success.
pub fn told<T>(answer: &Result<T, Refusal>) -> (u32, usize) {
    match answer {
        Ok(_) => (0, 0),
        Err(refusal) => (refusal.number(), refusal.position),
    }
}

// Whether a number is that of one of these reasons.
pub fn is_one_of(number: u32, reasons: &[Reason]) -> bool {
    reasons.iter().any(|reason| u32::from(*reason) == number)
}

// Writes a list of numbers, where it has any.
pub fn list<W: Write, I: Integer>(out: &mut W, numbers: &[I]) -> io::Result<()> {
    if numbers.is_empty() {
        return Ok(());
    }
    out.write_all(b" :")?;
    page::write_numbers(out, numbers)
}

// Ends an answer, with a word where a strip does not hold what it should.
pub fn end<W: Write>(out: &mut W, is_right: bool) -> io::Result<()> {
    let end = if is_right { "\n" } else { " STRIP\n" };
    out.write_all(end.as_bytes())
}

// Writes what is wrong with the line or with its words.
pub fn refuse<W: Write>(out: &mut W, wrong: Wrong) -> io::Result<()> {
    writeln!(out, "error: {wrong}")
}
