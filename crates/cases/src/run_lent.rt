// What a case of run lends beside its table: a heap strip, an output strip and a register strip, each as long as the case says, the tape
// and the source.
use crate::run_case;
use crate::run_case::{Lent, Limits};
use crate::words::Words;
use crate::wrong::{Failure, Wrong};
use std::io::Write;

// The longest heap strip. Document 01 takes up to 16,384 words; what is longer it refuses, which is a case too.
const HEAP_MOST: usize = 17000;

// The longest output strip.
const OUTPUT_MOST: usize = 2048;

// The longest register strip. Document 02 takes 16 bytes; what is shorter or longer it refuses, which is a case too.
const REGISTERS_MOST: usize = 32;

// The budget, which is one that document 01 allows, and the call limit of a case.
fn limits(words: &mut Words) -> Result<Limits, Wrong> {
    let budget = u32::try_from(words.number()?).map_err(|_| Wrong::Number)?;
    let calls = words.number()?;
    Ok(Limits { budget, calls })
}

// Answers a case with its table. The strips stand here, once.
pub fn answer<W: Write>(out: &mut W, words: &mut Words, table: &mut [u32]) -> Result<(), Failure> {
    let mut heap = [0i32; HEAP_MOST];
    let mut printed = [0i32; OUTPUT_MOST];
    let mut registers = [0u8; REGISTERS_MOST];
    let limits = limits(words)?;
    let h = words.length(HEAP_MOST, Wrong::HeapLength)?;
    let o = words.length(OUTPUT_MOST, Wrong::OutputLength)?;
    let g = words.length(REGISTERS_MOST, Wrong::RegistersLength)?;
    let tape = words.bytes()?;
    let source = words.bytes()?;
    let mut lent = Lent {
        table,
        heap: &mut heap[..h],
        printed: &mut printed[..o],
        registers: &mut registers[..g],
    };
    Ok(run_case::answer(out, source, limits, &mut lent, tape)?)
}
