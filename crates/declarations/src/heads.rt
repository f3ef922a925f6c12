// Method heads: the result's type, the name, the parameters, and what the method redeclares.
ghost use Rattle.std.specs.Prelude.{◌≤◌, length};
ghost use Rattle.base.specs.promises.Table.{rows};
ghost use Rattle.reader.specs.promises.WalkPost.{Walkable};
ghost use Rattle.declarations.specs.promises.Judgements.{TypesCompared, RedeclaresAt, CompatibleAt, OpeningJudged, RestJudged};
ghost use Rattle.declarations.specs.promises.Judgements.{HeadJudged, HeadsJudged};

use crate::marks::mark;
use crate::variables::{is_known, variables};
use base::refusal::{Reason, Refusal};
use lookup::chain::{find_method, fits};
use lookup::rows::word;
use lookup::types::type_of;
use parser::columns;
use parser::columns::ABSENT;

// Whether two lists of parameters have equal types.
fn same_types(table: &[u32], n: usize, left: usize, a: usize, b: usize) -> bool
    requires { Walkable table.now n }
    ensures { TypesCompared table.now n left a b result }
{
    if ABSENT <= a {
        return ABSENT <= b;
    }
    if ABSENT <= b {
        return false;
    }
    if left == 0 {
        return false;
    }
    if type_of(table, n, word(table, columns::TYPE, a))
        == type_of(table, n, word(table, columns::TYPE, b))
    {
        return same_types(
            table,
            n,
            left - 1,
            word(table, columns::NEXT, a),
            word(table, columns::NEXT, b),
        );
    }
    false
}

// Whether a method may redeclare one from above: equal parameter types, and a result that fits.
fn redeclares(table: &[u32], n: usize, classes: usize, lower: usize, upper: usize) -> bool
    requires { Walkable table.now n }
    ensures { RedeclaresAt table.now n classes lower upper result }
{
    if same_types(
        table,
        n,
        n,
        word(table, columns::PARAMETERS, lower),
        word(table, columns::PARAMETERS, upper),
    ) {
        let s = type_of(table, n, word(table, columns::TYPE, lower));
        let t = type_of(table, n, word(table, columns::TYPE, upper));
        return fits(table, n, classes, s, t);
    }
    false
}

// 26, against the nearest method of that name upwards from the class above.
fn is_compatible(table: &[u32], n: usize, classes: usize, parent: usize, row: usize) -> bool
    requires { Walkable table.now n }
    ensures { CompatibleAt table.now n classes parent row result }
{
    if classes == 0 {
        return true;
    }
    let upper = find_method(
        table,
        n,
        classes - 1,
        parent,
        word(table, columns::NUMBER, row),
    );
    if ABSENT <= upper {
        return true;
    }
    redeclares(table, n, classes, row, upper)
}

// What a head declares before the parameters: 24, 25.
fn opening(
    table: &[u32],
    marks: &mut [u32],
    n: usize,
    stamp: u32,
    row: usize,
) -> Result<(), Refusal>
    requires { Walkable table.now n × (rows ≤ length marks.old) }
    ensures { OpeningJudged table.now n stamp row marks.old marks.new result }
{
    let t = word(table, columns::TYPE, row);
    if is_known(table, n, t) {
        if mark(marks, word(table, columns::NUMBER, row), stamp) {
            return Err(Refusal {
                reason: Reason::MethodRepeated,
                position: word(table, columns::START, row),
            });
        }
        return Ok(());
    }
    Err(Refusal {
        reason: Reason::TypeUnknown,
        position: word(table, columns::START, t),
    })
}

// The parameters, and last 26.
fn rest(table: &[u32], n: usize, classes: usize, parent: usize, row: usize) -> Result<(), Refusal>
    requires { Walkable table.now n }
    ensures { RestJudged table.now n classes parent row result }
{
    let first = word(table, columns::PARAMETERS, row);
    variables(table, n, n, ABSENT, 0, first, 0, first)?;
    if is_compatible(table, n, classes, parent, row) {
        return Ok(());
    }
    Err(Refusal {
        reason: Reason::BadRedeclaration,
        position: word(table, columns::START, row),
    })
}

// One head.
fn head(
    table: &[u32],
    marks: &mut [u32],
    n: usize,
    classes: usize,
    parent: usize,
    stamp: u32,
    row: usize,
) -> Result<(), Refusal>
    requires { Walkable table.now n × (rows ≤ length marks.old) }
    ensures { HeadJudged table.now n classes parent stamp row marks.old marks.new result }
{
    opening(table, marks, n, stamp, row)?;
    rest(table, n, classes, parent, row)
}

// The heads of a class from a row on; `parent` is the number of the name of the class above. The methods before `row` have the stamp.
pub fn heads(
    table: &[u32],
    marks: &mut [u32],
    n: usize,
    classes: usize,
    left: usize,
    parent: usize,
    stamp: u32,
    row: usize,
) -> Result<(), Refusal>
    requires { Walkable table.now n × (rows ≤ length marks.old) }
    ensures { HeadsJudged table.now n classes left parent stamp row marks.old marks.new result }
{
    if ABSENT <= row {
        return Ok(());
    }
    if left == 0 {
        return Err(Refusal {
            reason: Reason::Broken,
            position: 0,
        });
    }
    head(table, marks, n, classes, parent, stamp, row)?;
    heads(
        table,
        marks,
        n,
        classes,
        left - 1,
        parent,
        stamp,
        word(table, columns::NEXT, row),
    )
}
