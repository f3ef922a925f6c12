// A page of bytes, in which numbers and digits are gathered: few calls of the writer then take many of them.
ghost use Rattle.std.specs.Prelude.{◌≡◌, ◌+◌, ◌≤◌, ◌<◌, length};

use itoa::{Buffer, Integer};
use std::io::{self, Write};

// How many bytes a page has.
const BYTES: usize = 4096;

// The room that a number is given: a blank, and the longest text that `format` gives.
const WIDEST: usize = 41;

// The bytes that wait to be written are the first ones that are used.
#[derive(Drop)]
struct Page {
    bytes: [u8; BYTES],
    used: usize,
    ghost within: { used ≤ 4096 },
}

impl Page {
    fn new() -> Page {
        Page {
            bytes: [0; BYTES],
            used: 0,
        }
    }

    // Writes what is used of the page where another number may not fit behind it. There is room for one then, even where it does not go
    // out.
    fn with_room<W: Write>(&mut self, out: &mut W) -> io::Result<()>
        ensures { self.new.used + 41 ≤ 4096 }
    {
        let used = self.used;
        if WIDEST <= BYTES - used {
            return Ok(());
        }
        self.used = 0;
        out.write_all(&self.bytes[..used])
    }

    // Puts bytes behind what is used.
    fn put(&mut self, piece: &[u8])
        requires { self.old.used + length piece.now ≤ 4096 }
        ensures { self.new.used ≡ self.old.used + length piece.now }
    {
        let end = self.used + piece.len();
        self.bytes[self.used..end].copy_from_slice(piece);
        self.used = end;
    }

    // Writes what is used of the page.
    fn write<W: Write>(&self, out: &mut W) -> io::Result<()> {
        out.write_all(&self.bytes[..self.used])
    }
}

// Writes numbers, a blank before each.
pub fn write_numbers<W: Write, I: Integer>(out: &mut W, numbers: &[I]) -> io::Result<()> {
    let mut page = Page::new();
    let mut text = Buffer::new();
    for n in numbers {
        page.with_room(out)?;
        page.put(b" ");
        page.put(text.format(*n).as_bytes());
    }
    page.write(out)
}

// A hexadecimal digit.
fn hexadecimal(n: u8) -> u8
    requires { n < 16 }
{
    b"0123456789abcdef"[usize::from(n)]
}

// Writes bytes in hexadecimal digits.
pub fn write_bytes<W: Write>(out: &mut W, bytes: &[u8]) -> io::Result<()> {
    let mut page = Page::new();
    for b in bytes {
        page.with_room(out)?;
        page.put(&[hexadecimal(*b / 16), hexadecimal(*b % 16)]);
    }
    page.write(out)
}
