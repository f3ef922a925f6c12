// The operation Check, and below it the function that leaves the table filled.
ghost use Rattle.std.specs.Prelude.{◌≡◌, ◌≤◌, ◌<◌, length};
ghost use Rattle.base.specs.Codes.{table_least};
ghost use Rattle.base.specs.promises.Table.{rows};
ghost use Rattle.reader.specs.promises.WalkPost.{Walkable};
ghost use Rattle.typesystem.specs.Check.{checking, check_answer, Checks};
ghost use Rattle.typecheck.specs.promises.CheckPost as CheckPost;
ghost use Rattle.typecheck.specs.promises.CheckPost.{ContentsJudged, ChainedJudged, IndexedJudged, TreeJudged, Leaves};
ghost use Rattle.typecheck.specs.promises.CheckPost.{check_answer_of};

use crate::method::bodies;
use base::bounds::TABLE_LEAST;
use base::refusal::{Reason, Refusal};
use declarations::classes::{chains, declarations, parents};
use declarations::index::index;
use lookup::member::count;
use lookup::rows::word;
use lookup::sizes::Sizes;
use parser::columns;
use reader::read::fill;

// Declarations and bodies.
fn contents(table: &[u32], n: usize, classes: usize, first: usize) -> Result<(), Refusal>
    requires { Walkable table.now n × (classes ≤ rows) }
    ensures { ContentsJudged table.now n classes first result }
{
    let mut marks = [0u32; 2048];
    declarations(table, &mut marks, n, classes, n, 1, first)?;
    bodies(table, n, classes)
}

// Chains, then what the classes hold.
fn chained(table: &[u32], n: usize, classes: usize, first: usize) -> Result<(), Refusal>
    requires { Walkable table.now n × (classes ≤ rows) }
    ensures { ChainedJudged table.now n classes first result }
{
    let mut heights = [0u32; 2048];
    chains(table, &mut heights, classes, n, first)?;
    contents(table, n, classes, first)
}

// Parents, then all the rest.
fn indexed(table: &[u32], n: usize) -> Result<Sizes, Refusal>
    requires { Walkable table.now n }
    ensures { IndexedJudged table.now n result }
{
    let first = word(table, columns::NEXT, columns::CLASS_LIST);
    parents(table, n, first)?;
    let classes = count(table, n, first);
    chained(table, n, classes, first)?;
    Ok(Sizes { tokens: n, classes })
}

// A tree of n tokens. It stays a function of its own, so that its arrays do not lie below the parser's calls on the stack.
#[inline(never)]
fn tree(table: &mut [u32], n: usize) -> Result<Sizes, Refusal>
    requires { Walkable table.old n }
    ensures { TreeJudged n table.old result table.new }
{
    index(table, n)?;
    indexed(table, n)
}

// Check, with the table left filled.
pub fn find(source: &[u8], table: &mut [u32]) -> Result<Sizes, Refusal>
    requires { table_least ≤ length table.old }
    ensures { Leaves source.now (checking source.now) result table.new }
{
    let counts = fill(source, table)?;
    tree(table, counts.tokens)
}

// The operation Check of document 01.
pub fn check(source: &[u8], table: &mut [u32]) -> Result<Sizes, Refusal>
    ensures { Checks source.now table.old (check_answer_of result) table.new }
{
    if table.len() < TABLE_LEAST {
        return Err(Refusal {
            reason: Reason::TableTooShort,
            position: 0,
        });
    }
    let sizes = find(source, table);
    table.fill(0);
    sizes
}
