// Writing into a lent byte strip. A byte past the strip's end is counted and not written, so the pass that counts a text's bytes is the
// pass that writes them, on an empty strip; there no byte is looked at.
ghost use Rattle.std.specs.Prelude.{◌+◌, ◌≤◌, [], ◌∷◌, ◌++◌};
ghost use Rattle.printer.specs.promises.Puts.{text_room, Skips, Puts};

// How many bytes are counted: no text of a lesson is longer.
pub const ROOM: usize = 18432;

// A byte. The answer is the place behind it.
pub fn put(strip: &mut [u8], at: usize, b: u8) -> usize
    requires { at ≤ text_room }
    ensures { Puts at (b ∷ []) strip.old strip.new result }
{
    if at < ROOM {
        if at < strip.len() {
            strip[at] = b;
        }
        return at + 1;
    }
    at
}

// The place behind n bytes and one more.
fn skip(at: usize, n: usize) -> usize
    requires { at ≤ text_room }
    ensures { Skips at (n + 1) result }
{
    if n < ROOM - at {
        return at + n + 1;
    }
    ROOM
}

// A text, and after it one byte more: a token, or tokens that have one spelling with what stands between them.
pub fn spell(strip: &mut [u8], at: usize, text: &[u8], last: u8) -> usize
    requires { at ≤ text_room }
    ensures { Puts at (text.now ++ last ∷ []) strip.old strip.new result }
{
    if strip.is_empty() {
        return skip(at, text.len());
    }
    let mut place = at;
    for b in text {
        place = put(strip, place, *b);
    }
    put(strip, place, last)
}
