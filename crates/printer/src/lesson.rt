// What is printed: a source, the classes of its bytes, and the table that holds its n tokens and the tree of them. Its reads of the table,
// and the tokens as they stand in the source.
ghost use Rattle.std.specs.Prelude.{◌≤◌, length};
ghost use Rattle.base.specs.Codes.{table_least, tokens_most};
ghost use Rattle.lexer.specs.ByteKinds.{RightTable};

use crate::job::Job;
use crate::{job, token};
use lookup::rows;
use parser::table;

#[derive(Clone, Copy)]
pub struct Lesson<'a> {
    pub source: &'a [u8],
    pub bytes: &'a [u8; 256],
    pub table: &'a [u32],
    pub n: usize,
    ghost right: { RightTable bytes.now },
    ghost big: { table_least ≤ length table.now },
    ghost few: { n ≤ tokens_most },
}

impl Lesson<'_> {
    ghost use Rattle.std.specs.Prelude.{◌≡◌, ◌<◌};
    ghost use Rattle.base.specs.Word.{modulus};
    ghost use Rattle.parser.specs.promises.Post.{kind_in_table};
    ghost use Rattle.lookup.specs.promises.HeldClasses.{word_at};
    ghost use Rattle.printer.specs.promises.Puts.{text_room, TokenPut};
    ghost use Rattle.printer.specs.promises.Walks.{PartReached};

    // Column k of a row, ABSENT past the last row.
    pub fn word(&self, k: usize, row: usize) -> usize
        requires { k < 8 }
        ensures { (result ≡ word_at self.now.table.now k row) × (result < modulus) }
    {
        rows::word(self.table, k, row)
    }

    // The kind of token i, 0 past the last.
    pub fn kind(&self, i: usize) -> u32
        ensures { result ≡ kind_in_table self.now.table.now self.now.n i }
    {
        table::kind(self.table, self.n, i)
    }

    // The part to which column k of a node's row leads, from a place on; it has at most as many nodes.
    pub fn part(&self, k: usize, p: Job, at: usize) -> Job
        requires { k < 8 }
        ensures { PartReached self.now.table.now k p at result }
    {
        job::part(self.table, k, p, at)
    }

    // The token in a row, and what stands after it.
    pub fn token(&self, strip: &mut [u8], row: usize, at: usize) -> usize
        requires { at ≤ text_room }
        ensures { TokenPut self.now.source.now self.now.table.now row at strip.old
            strip.new result }
    {
        token::token(self.source, self.bytes, self.table, strip, row, at)
    }
}
