// Parents, chains, and the declarations of each class.
ghost use Rattle.std.specs.Prelude.{◌+◌, ◌*◌, ◌≤◌, length};
ghost use Rattle.base.specs.promises.Table.{rows};
ghost use Rattle.base.specs.Codes.{table_least};
ghost use Rattle.reader.specs.promises.WalkPost.{Walkable};
ghost use Rattle.declarations.specs.promises.Marking.{StampsBelow};
ghost use Rattle.declarations.specs.promises.Climbs.{HeightsRight};
ghost use Rattle.declarations.specs.promises.Judgements.{OrphanAt, ParentsJudged, ChainsJudged, MembersJudged, DeclarationsJudged};

use crate::heads::heads;
use crate::heights::height;
use crate::variables::fields;
use base::refusal::{Reason, Refusal};
use lookup::chain::above;
use lookup::rows::word;
use parser::columns;
use parser::columns::ABSENT;

// Whether a class has a parent that is no class of the table.
fn is_orphan(table: &[u32], class: usize) -> bool
    requires { table_least ≤ length table.now }
    ensures { OrphanAt table.now class result }
{
    let p = word(table, columns::PARENT, class);
    if ABSENT <= p {
        return false;
    }
    ABSENT <= word(table, columns::CLASS, word(table, columns::NUMBER, p))
}

// 21: the first unknown class after `extends`.
pub fn parents(table: &[u32], left: usize, row: usize) -> Result<(), Refusal>
    requires { table_least ≤ length table.now }
    ensures { ParentsJudged table.now left row result }
{
    if ABSENT <= row {
        return Ok(());
    }
    if left == 0 {
        return Err(Refusal {
            reason: Reason::Broken,
            position: 0,
        });
    }
    if is_orphan(table, row) {
        return Err(Refusal {
            reason: Reason::ParentUnknown,
            position: word(table, columns::START, word(table, columns::PARENT, row)),
        });
    }
    parents(table, left - 1, word(table, columns::NEXT, row))
}

// 22: the first class whose chain never ends.
pub fn chains(
    table: &[u32],
    heights: &mut [u32],
    classes: usize,
    left: usize,
    row: usize,
) -> Result<(), Refusal>
    requires { (table_least ≤ length table.now) × (rows ≤ length heights.old) × (classes ≤ rows)
        × HeightsRight table.now heights.old }
    ensures { ChainsJudged table.now classes left row result }
{
    if ABSENT <= row {
        return Ok(());
    }
    if left == 0 {
        return Err(Refusal {
            reason: Reason::Broken,
            position: 0,
        });
    }
    if height(table, heights, classes, word(table, columns::NUMBER, row)) == 0 {
        return Err(Refusal {
            reason: Reason::ChainEndless,
            position: word(table, columns::START, row),
        });
    }
    let next = word(table, columns::NEXT, row);
    chains(table, heights, classes, left - 1, next)
}

// The fields and the method heads of a class. The fields have this stamp and the methods the next.
fn members(
    table: &[u32],
    marks: &mut [u32],
    n: usize,
    classes: usize,
    stamp: u32,
    class: usize,
) -> Result<(), Refusal>
    requires { Walkable table.now n × (rows ≤ length marks.old) × StampsBelow stamp marks.old × (stamp ≤ 4096) }
    ensures { MembersJudged table.now n classes stamp class marks.new result }
{
    let first = word(table, columns::FIELDS, class);
    fields(table, marks, n, n, stamp, first)?;
    let methods = word(table, columns::METHODS, class);
    let parent = above(table, class);
    heads(table, marks, n, classes, n, parent, stamp + 1, methods)
}

// 23 to 28, class by class. No word of `marks` has reached the stamp.
pub fn declarations(
    table: &[u32],
    marks: &mut [u32],
    n: usize,
    classes: usize,
    left: usize,
    stamp: u32,
    row: usize,
) -> Result<(), Refusal>
    requires { Walkable table.now n × (rows ≤ length marks.old) × StampsBelow stamp marks.old × (stamp + 2 * left ≤ 4098) }
    ensures { DeclarationsJudged table.now n classes left row result }
{
    if ABSENT <= row {
        return Ok(());
    }
    if left == 0 {
        return Err(Refusal {
            reason: Reason::Broken,
            position: 0,
        });
    }
    members(table, marks, n, classes, stamp, row)?;
    let next = word(table, columns::NEXT, row);
    declarations(table, marks, n, classes, left - 1, stamp + 2, next)
}
