// Runs the lesson on standard input under the limits of document 01: prints each number that the lesson prints on a line, then how the
// run ended.
#![tactic(auto)]

mod input;
mod output;

use runner::run::run;
use std::io::{self, BufWriter, Write};

// Room for the longest lesson, 16,384 bytes, and a byte by which a longer one shows.
const SPACE: usize = 16385;

// The words of the work table, the least that document 01 takes.
const TABLE: usize = 16384;

// The steps, and the open calls, that a run may have.
const BUDGET: u32 = 100000;

const CALLS: usize = 64;

// The lengths of the heap strip and of the output strip.
const HEAP: usize = 4096;

const OUTPUT: usize = 256;

// The registers behind the cable.
const REGISTERS: usize = 16;

// Runs a lesson with an empty tape, and prints what came of it.
fn answer<W: Write>(out: &mut W, lesson: &[u8]) -> io::Result<()> {
    let mut table = [0u32; TABLE];
    let mut heap = [0i32; HEAP];
    let mut printed = [0i32; OUTPUT];
    let mut registers = [0u8; REGISTERS];
    let a = run(
        lesson,
        &mut table,
        BUDGET,
        CALLS,
        &mut heap,
        &mut printed,
        &mut registers,
        b"",
    );
    output::lines(out, &printed, a.printed)?;
    output::ending(out, a)
}

// Reads the lesson, and answers it.
fn main(rt: HostRuntime) -> io::Result<()> {
    let mut space = [0u8; SPACE];
    let Ok(n) = input::read_all(&mut rt.stdin(), &mut space) else {
        return output::unread(&rt);
    };
    let mut out = BufWriter::new(rt.alloc(), rt.stdout())?;
    answer(&mut out, &space[..n])?;
    out.flush()
}
