// The operation Menu of document 01: the positions of the names of a lesson's classes.
ghost use Rattle.std.specs.Prelude.{◌≡◌, ◌≤◌, length};
ghost use Rattle.base.specs.Codes.{table_least};
ghost use Rattle.typesystem.specs.Check.{checking};
ghost use Rattle.menu.specs.Menu.{listing, Menus};
ghost use Rattle.menu.specs.promises.MenuPost.{menu_answer_of, listing_of, FillsStrip};

use crate::least::NODES;
use crate::order::{ROWS, gather, write};
use base::bounds::TABLE_LEAST;
use base::refusal::{Reason, Refusal};
use lookup::rows::word;
use parser::columns;
use typecheck::check::find;

// Fills the strip, where it is long enough, and answers how many names of classes it has then.
fn fill(table: &[u32], strip: &mut [u32], classes: usize) -> Result<usize, Refusal>
    requires { table_least ≤ length table.now }
    ensures { FillsStrip table.now classes strip.old (listing_of result strip.new) }
{
    if strip.len() < classes {
        return Err(Refusal {
            reason: Reason::StripTooShort,
            position: 0,
        });
    }
    // No row is in the set, and no class has a child.
    let mut tree = [2048u32; NODES];
    let mut first = [2048u32; ROWS];
    let mut next = [2048u32; ROWS];
    gather(
        table,
        &mut tree,
        &mut first,
        &mut next,
        classes,
        word(table, columns::NEXT, columns::CLASS_LIST),
    );
    let unwritten = write(table, &mut tree, &first, &next, strip, 0, classes);
    // Never: where each chain ends, each class is written.
    if unwritten != 0 {
        return Err(Refusal {
            reason: Reason::ChainEndless,
            position: 0,
        });
    }
    Ok(classes)
}

// What Menu answers, and the strip; the table is left filled.
fn answer(source: &[u8], table: &mut [u32], strip: &mut [u32]) -> Result<usize, Refusal>
    requires { table_least ≤ length table.old }
    ensures { listing_of result strip.new ≡ listing (checking source.now) strip.old }
{
    let sizes = find(source, table)?;
    fill(table, strip, sizes.classes)
}

// The operation Menu: how many classes the lesson has.
pub fn menu(source: &[u8], table: &mut [u32], strip: &mut [u32]) -> Result<usize, Refusal>
    ensures { Menus source.now table.old strip.old (menu_answer_of result) table.new
        strip.new }
{
    if table.len() < TABLE_LEAST {
        return Err(Refusal {
            reason: Reason::TableTooShort,
            position: 0,
        });
    }
    let classes = answer(source, table, strip);
    table.fill(0);
    classes
}
