// What the program writes.
use runner::run::RunAnswer;
use std::io::{self, Write};

// Writes the first `n` of the numbers, each on a line.
pub fn lines<W: Write>(out: &mut W, numbers: &[i32], n: usize) -> io::Result<()> {
    for x in numbers.iter().take(n) {
        writeln!(out, "{x}")?;
    }
    Ok(())
}

// Writes the line that says how a run ended: result, position, steps, heap words.
pub fn ending<W: Write>(out: &mut W, a: RunAnswer) -> io::Result<()> {
    let RunAnswer {
        number,
        position,
        steps,
        words,
        ..
    } = a;
    writeln!(out, "= {number} {position} {steps} {words}")
}

// Says that the input cannot be read, apart from what a run prints.
pub fn unread(rt: &impl Eprint) -> io::Result<()> {
    eprintln!(rt; "bayrun: the input cannot be read")
}
