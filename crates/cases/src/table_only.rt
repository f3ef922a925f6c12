// The operations that are lent a work table and no strip: `read TABLE HEX` is answered by `NUMBER POSITION TOKENS NODES`,
// `check TABLE HEX` by `NUMBER POSITION CLASSES`.
use crate::words::Words;
use crate::wrong::Failure;
use crate::{output, strip};
use reader::read::{Counts, read};
use std::io::Write;
use typecheck::check::check;

// Answers a case of read.
pub fn answer_read<W: Write>(
    out: &mut W,
    words: &mut Words,
    table: &mut [u32],
) -> Result<(), Failure> {
    let source = words.bytes()?;
    strip::fill(table);
    let answer = read(source, table);
    let (number, position) = output::told(&answer);
    let Counts { tokens, nodes } = answer.unwrap_or(Counts {
        tokens: 0,
        nodes: 0,
    });
    write!(out, "{number} {position} {tokens} {nodes}")?;
    Ok(output::end(out, strip::is_right(table, number))?)
}

// Answers a case of check.
pub fn answer_check<W: Write>(
    out: &mut W,
    words: &mut Words,
    table: &mut [u32],
) -> Result<(), Failure> {
    let source = words.bytes()?;
    strip::fill(table);
    let answer = check(source, table);
    let (number, position) = output::told(&answer);
    let classes = answer.map_or(0, |sizes| sizes.classes);
    write!(out, "{number} {position} {classes}")?;
    Ok(output::end(out, strip::is_right(table, number))?)
}
