// A library in the work table: class declarations alone, read by the rules of Read.
ghost use Rattle.std.specs.Prelude.{◌≤◌, length};
ghost use Rattle.base.specs.Codes.{table_least};
ghost use Rattle.reader.specs.promises.WalkPost.{Walkable};
ghost use Rattle.joining.specs.Library.{reading_library};
ghost use Rattle.joiner.specs.promises.LibraryPost.{LibraryFills, GrowsClasses, MeasuresClasses};

use base::bounds::SOURCE_MOST;
use lexer::lex;
use parser::decl;
use reader::read::place;
use reader::walk;

// The depth of the classes from a row on.
fn measure(table: &[u32], n: usize, first: usize) -> Result<(usize, usize), usize>
    requires { Walkable table.now n }
    ensures { MeasuresClasses table.now n first result }
{
    let walked = walk::classes(table, n, first);
    let place = walked.place;
    if place < walk::NOWHERE {
        return Err(place);
    }
    Ok((n, first))
}

// From the tokens in the table to the classes.
fn grow(table: &mut [u32], n: usize, size: usize) -> Result<(usize, usize), usize>
    requires { Walkable table.old n }
    ensures { GrowsClasses n size table.old result table.new }
{
    let a = decl::classes(table, n, 0);
    match a {
        Ok(part) => measure(table, n, part.row),
        Err(misfit) => Err(place(table, n, misfit.token, size)),
    }
}

// What is found in a library, with the table left filled: how many tokens it has, and the row of its first class; or the position of its
// fault.
pub fn fill(library: &[u8], table: &mut [u32]) -> Result<(usize, usize), usize>
    requires { table_least ≤ length table.old }
    ensures { LibraryFills (reading_library library.now) result table.new }
{
    if SOURCE_MOST < library.len() {
        return Err(0);
    }
    match lex(library, table) {
        Ok(n) => grow(table, n, library.len()),
        Err(refusal) => Err(refusal.position),
    }
}
