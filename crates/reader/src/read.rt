// The operation Read, and below it the function that leaves the table filled.
ghost use Rattle.std.specs.Prelude.{◌≡◌, ◌≤◌, length};
ghost use Rattle.base.specs.Codes.{table_least};
ghost use Rattle.parser.specs.Read.{reading, Reads};
ghost use Rattle.reader.specs.promises.WalkPost.{Walkable};
ghost use Rattle.reader.specs.promises.ReadPost.{Fills, GrowPost, MeasurePost, place_in, read_answer_of};

use crate::walk;
use base::bounds::{SOURCE_MOST, TABLE_LEAST};
use base::refusal::{Reason, Refusal};
use lexer::lex;
use parser::decl;

// How many tokens and nodes an accepted source has.
#[derive(Clone, Copy)]
pub struct Counts {
    pub tokens: usize,
    pub nodes: usize,
}

// The position of token k of n, or the size of the source past the last.
pub fn place(table: &[u32], n: usize, k: usize, size: usize) -> usize
    requires { Walkable table.now n }
    ensures { result ≡ place_in table.now n k size }
{
    if k < n {
        return table[2048 + k] as usize;
    }
    size
}

// The tree's depth and nodes.
fn measure(table: &[u32], n: usize) -> Result<Counts, Refusal>
    requires { Walkable table.now n }
    ensures { MeasurePost table.now n result }
{
    let walked = walk::program(table, n);
    let position = walked.place;
    let nodes = walked.count;
    if position < walk::NOWHERE {
        return Err(Refusal {
            reason: Reason::TooDeep,
            position,
        });
    }
    Ok(Counts { tokens: n, nodes })
}

// From the tokens in the table to the tree.
fn grow(table: &mut [u32], n: usize, size: usize) -> Result<Counts, Refusal>
    requires { Walkable table.old n }
    ensures { GrowPost n size table.old result table.new }
{
    match decl::program(table, n) {
        Ok(_) => measure(table, n),
        Err(misfit) => {
            let position = place(table, n, misfit.token, size);
            Err(Refusal {
                reason: Reason::NotInGrammar,
                position,
            })
        }
    }
}

// Read, with the table left filled.
pub fn fill(source: &[u8], table: &mut [u32]) -> Result<Counts, Refusal>
    requires { table_least ≤ length table.old }
    ensures { Fills (reading source.now) result table.new }
{
    if SOURCE_MOST < source.len() {
        return Err(Refusal {
            reason: Reason::SourceTooLong,
            position: 0,
        });
    }
    let n = lex(source, table)?;
    grow(table, n, source.len())
}

// The operation Read of document 01.
pub fn read(source: &[u8], table: &mut [u32]) -> Result<Counts, Refusal>
    ensures { Reads source.now table.old (read_answer_of result) table.new }
{
    if table.len() < TABLE_LEAST {
        return Err(Refusal {
            reason: Reason::TableTooShort,
            position: 0,
        });
    }
    let counts = fill(source, table);
    table.fill(0);
    counts
}
