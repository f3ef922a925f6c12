// Answers cases from standard input, a line each: the first word of a line names an operation, the others are what it is given.
// A line that is no case is answered by what is wrong with it, an empty line is passed over.
#![tactic(auto)]

mod join_case;
mod lent;
mod line;
mod menu_case;
mod operation;
mod output;
mod page;
mod print_case;
mod run_case;
mod run_lent;
mod source;
mod strip;
mod table_only;
mod text;
mod words;
mod wrong;

use crate::line::Line;
use crate::wrong::Wrong;
use std::io::{self, BufWriter, Read, Write};

// How many bytes one read takes at most.
const CHUNK: usize = 4096;

// Room for a line, and a byte by which a longer one shows. A lesson and a library of 16,384 bytes each take 65,536 digits; what is longer
// is refused, which is a case too.
const LINE_MOST: usize = 68000;

// The longest table. Document 01 asks for 16,384 words; what is longer must be wiped as well.
// The line, the table and the strips of an operation take less than a quarter of a stack of 1 MiB.
const TABLE_MOST: usize = 20000;

// Reads once, and takes what came; then what was written goes out. Answers whether the input may go on. At its end the last line may lack
// its line feed; where the input fails, a line that has only begun is no case.
fn take_some<R: Read, W: Write>(
    input: &mut R,
    out: &mut W,
    line: &mut Line,
    table: &mut [u32],
) -> io::Result<bool> {
    let mut chunk = [0u8; CHUNK];
    match input.read(&mut chunk) {
        Ok(0) => {
            line.end(out, table)?;
            Ok(false)
        }
        Ok(count) => {
            line.take(out, &chunk[..count], table)?;
            out.flush()?;
            Ok(true)
        }
        Err(_) => {
            output::refuse(out, Wrong::Input)?;
            Ok(false)
        }
    }
}

// Answers every line of the input; one that is empty from the begin is given the usage. Nothing says that the input ends, so the loop
// counts its turns, up to a number that no run uses up.
fn serve<R: Read, W: Write>(
    input: &mut R,
    out: &mut W,
    line: &mut Line,
    table: &mut [u32],
) -> io::Result<()> {
    let mut given = false;
    for _ in 0..u64::MAX {
        if !take_some(input, out, line, table)? {
            break;
        }
        given = true;
    }
    if !given {
        output::usage(out)?;
    }
    out.flush()
}

// What every case is lent stands here, once.
fn main(rt: HostRuntime) -> io::Result<()> {
    let mut room = [0u8; LINE_MOST];
    let mut table = [0u32; TABLE_MOST];
    let mut out = BufWriter::new(rt.alloc(), rt.stdout())?;
    let mut line = Line::new(&mut room);
    serve(&mut rt.stdin(), &mut out, &mut line, &mut table)
}
