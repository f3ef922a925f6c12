// The operation print: `print TABLE STRIP HEX` is answered by `NUMBER POSITION COUNT`, and after success by ` : ` and the printed text.
use crate::words::Words;
use crate::wrong::{Failure, Wrong};
use crate::{strip, text};
use printer::print::print;
use std::io::Write;

// Answers a case with its table. The strip stands here, once.
pub fn answer<W: Write>(out: &mut W, words: &mut Words, table: &mut [u32]) -> Result<(), Failure> {
    let mut printed = [0u8; text::STRIP_MOST];
    let n = words.length(text::STRIP_MOST, Wrong::StripLength)?;
    let source = words.bytes()?;
    let printed = &mut printed[..n];
    strip::fill(table);
    strip::fill(printed);
    let a = print(source, table, printed);
    Ok(text::write(out, a, table, printed)?)
}
