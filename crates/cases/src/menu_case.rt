// The operation menu: `menu TABLE STRIP HEX` is answered by `NUMBER POSITION CLASSES`, and where there are classes by ` :` and the
// positions of their names, in the order in which they stand in the strip.
use crate::words::Words;
use crate::wrong::{Failure, Wrong};
use crate::{output, strip};
use base::refusal::Refusal;
use menu::menu::menu;
use std::io::{self, Write};

// The longest strip: a word for each token, which is more than there can be classes, so the rest of it can be looked at too.
const STRIP_MOST: usize = 2048;

// Writes the first `n` words of the strip, and answers whether there are as many and the rest is as it was beforehand.
fn write_strip<W: Write>(out: &mut W, strip: &[u32], n: usize) -> io::Result<bool> {
    let Some(first) = strip.get(..n) else {
        return Ok(false);
    };
    output::list(out, first)?;
    Ok(strip::is_marked(strip, n))
}

// Writes the answer, and looks at the table and the strip, of which a refusal writes nothing.
fn write<W: Write>(
    out: &mut W,
    answer: Result<usize, Refusal>,
    table: &[u32],
    strip: &[u32],
) -> io::Result<()> {
    let (number, position) = output::told(&answer);
    let classes = answer.unwrap_or(0);
    write!(out, "{number} {position} {classes}")?;
    let is_strip_right = write_strip(out, strip, classes)?;
    output::end(out, is_strip_right && strip::is_right(table, number))
}

// Answers a case with its table. The strip stands here, once.
pub fn answer<W: Write>(out: &mut W, words: &mut Words, table: &mut [u32]) -> Result<(), Failure> {
    let mut strip = [0u32; STRIP_MOST];
    let n = words.length(STRIP_MOST, Wrong::StripLength)?;
    let source = words.bytes()?;
    let strip = &mut strip[..n];
    strip::fill(table);
    strip::fill(strip);
    let a = menu(source, table, strip);
    Ok(write(out, a, table, strip)?)
}
