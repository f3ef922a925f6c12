// Writes of code: four words for each instruction, and no write past the array.
ghost use Rattle.std.specs.Prelude.{◌≤◌, ◌<◌, ◌≡◌, set};
ghost use Rattle.base.specs.Word.{modulus};
ghost use Rattle.writer.specs.promises.Posts.{room, PutPost, NextPost};

// How many instructions there is room for.
pub const ROOM: usize = 8192;

// One word, where the array reaches.
fn put_word(code: &mut [u32], at: usize, word: usize)
    requires { word < modulus }
    ensures { code.new ≡ set code.old at word }
{
    if at < code.len() {
        code[at] = word as u32;
    }
}

// One instruction; the answer is the place behind it.
pub fn put(code: &mut [u32], at: usize, op: usize, a: usize, b: usize, c: usize) -> usize
    requires { (at ≤ room) × (op < modulus) × (a < modulus) × (b < modulus) × (c < modulus) }
    ensures { PutPost at op a b c code.old code.new result }
{
    if at < ROOM {
        put_word(code, 4 * at, op);
        put_word(code, 4 * at + 1, a);
        put_word(code, 4 * at + 2, b);
        put_word(code, 4 * at + 3, c);
        return at + 1;
    }
    at
}

// The place behind an instruction that is written later.
pub fn next(at: usize) -> usize
    requires { at ≤ room }
    ensures { NextPost at result }
{
    if at < ROOM {
        return at + 1;
    }
    at
}
