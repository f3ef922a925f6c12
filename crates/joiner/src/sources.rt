// What is joined: a lesson, with the positions where the names of its classes begin, and a library, whose n tokens and classes the work
// table holds.
ghost use Rattle.std.specs.Prelude.{◌≤◌, length};
ghost use Rattle.base.specs.Codes.{table_least, tokens_most};

#[derive(Clone, Copy)]
pub struct Sources<'a> {
    pub lesson: &'a [u8],
    pub names: &'a [u32],
    pub library: &'a [u8],
    pub table: &'a [u32],
    pub n: usize,
    ghost big: { table_least ≤ length table.now },
    ghost few: { n ≤ tokens_most },
}
