// What does not change in a run: the text of its frames, the tape and the call limit.
ghost use Rattle.player.specs.promises.Reading.{Counted};

use crate::lines::{DECODED, Line};

// A text of the form, its first lines decoded, and how many lines it has.
#[derive(Clone, Copy)]
pub struct Around<'a> {
    pub text: &'a [u8],
    pub decoded: &'a [Line; DECODED],
    pub count: usize,
    pub tape: &'a [u8],
    pub limit: usize,
    pub ghost counted: { Counted text.now decoded.now count },
}
