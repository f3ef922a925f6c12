// What the code of a body is written from: the work table, what names mean to the body, by number, and its scope.
// What is asked of them (`Judgeable`) stands in the contracts, not in a ghost field: no proof shows that it is a proposition.
ghost use Rattle.std.specs.Prelude.{◌≡◌, ◌≤◌, ◌<◌, length};
ghost use Rattle.base.specs.Codes.{table_least};
ghost use Rattle.base.specs.Word.{modulus};
ghost use Rattle.parser.specs.promises.Post.{kind_in_table};
ghost use Rattle.lookup.specs.promises.HeldClasses.{word_at};
ghost use Rattle.writer.specs.promises.Jobs.{PartPost};

use crate::job;
use crate::job::Job;
use bodies::scope::Scope;
use lookup::rows;
use parser::table;

#[derive(Clone, Copy)]
pub struct View<'a> {
    pub table: &'a [u32],
    pub names: &'a [u32],
    pub scope: Scope,
}

impl View<'_> {
    // Column k of a row, ABSENT past the last row.
    pub fn word(&self, k: usize, row: usize) -> usize
        requires { (table_least ≤ length self.now.table.now) × (k < 8) }
        ensures { (result ≡ word_at self.now.table.now k row) × (result < modulus) }
    {
        rows::word(self.table, k, row)
    }

    // The kind of token i, 0 past the last.
    pub fn kind(&self, i: usize) -> u32
        requires { self.now.scope.tokens ≤ length self.now.table.now }
        ensures { result ≡ kind_in_table self.now.table.now self.now.scope.tokens i }
    {
        table::kind(self.table, self.scope.tokens, i)
    }

    // The part to which column k of a node's row leads, from a place on; it has at most as many nodes.
    pub fn part(&self, k: usize, p: Job, at: usize) -> Job
        requires { (table_least ≤ length self.now.table.now) × (k < 8) }
        ensures { PartPost self.now.table.now k p at result }
    {
        job::part(self.table, k, p, at)
    }
}
