// The answer of an operation that writes a text into a strip of bytes: `NUMBER POSITION COUNT`, and after success ` : ` and the text.
use crate::{output, page, strip};
use base::refusal::Refusal;
use std::io::{self, Write};

// The longest strip: longer than every text, so the rest of it can be looked at too. The longest is that of a lesson and a library of
// 16,384 bytes each, with line feeds after the lesson and after each class.
pub const STRIP_MOST: usize = 40000;

// Writes the first `count` bytes of the strip, and answers whether there are as many and the rest is as it was beforehand.
fn write_first<W: Write>(out: &mut W, bytes: &[u8], count: usize) -> io::Result<bool> {
    let Some(first) = bytes.get(..count) else {
        return Ok(false);
    };
    out.write_all(b" : ")?;
    page::write_bytes(out, first)?;
    Ok(strip::is_marked(bytes, count))
}

// Writes the answer, and looks at the table and the strip: the rest of it, all of it after a refusal, is to be as it was beforehand.
pub fn write<W: Write>(
    out: &mut W,
    answer: Result<usize, Refusal>,
    table: &[u32],
    bytes: &[u8],
) -> io::Result<()> {
    let (number, position) = output::told(&answer);
    let is_strip_right = match answer {
        Ok(count) => {
            write!(out, "{number} {position} {count}")?;
            write_first(out, bytes, count)?
        }
        Err(_) => {
            write!(out, "{number} {position} 0")?;
            strip::is_marked(bytes, 0)
        }
    };
    output::end(out, is_strip_right && strip::is_right(table, number))
}
