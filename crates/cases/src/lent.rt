// What every case lends to its operation: a work table, as long as the case says.
// The words of the case are looked at from the left, and the first that is wrong is the answer.
use crate::operation::Operation;
use crate::words::Words;
use crate::wrong::{Failure, Wrong};
use crate::{join_case, menu_case, print_case, run_lent, table_only};
use std::io::Write;

// Answers a case.
pub fn answer<W: Write>(
    out: &mut W,
    operation: Operation,
    words: &mut Words,
    table: &mut [u32],
) -> Result<(), Failure> {
    let n = words.length(table.len(), Wrong::TableLength)?;
    let table = &mut table[..n];
    match operation {
        Operation::Read => table_only::answer_read(out, words, table),
        Operation::Check => table_only::answer_check(out, words, table),
        Operation::Menu => menu_case::answer(out, words, table),
        Operation::Run => run_lent::answer(out, words, table),
        Operation::Join => join_case::answer(out, words, table),
        Operation::Print => print_case::answer(out, words, table),
    }
}
