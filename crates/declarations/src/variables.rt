// Fields, parameters and locals: each has a known type and a new name. A list of parameters or locals begins at `first`, and `index` of
// its members stand before `row`.
ghost use Rattle.std.specs.Prelude.{◌+◌, ◌≤◌, ◌<◌, length};
ghost use Rattle.base.specs.promises.Table.{rows};
ghost use Rattle.base.specs.Word.{modulus};
ghost use Rattle.reader.specs.promises.WalkPost.{Walkable};
ghost use Rattle.declarations.specs.promises.Judgements.{KnownAt, FieldsJudged, VariableJudged, VariablesJudged};

use crate::marks::mark;
use base::refusal::{Reason, Refusal};
use lookup::member::repeated;
use lookup::rows::word;
use lookup::types::{known, type_of};
use parser::columns;
use parser::columns::ABSENT;

// The most parameters and locals of a method.
const VARIABLES_MOST: usize = 32;

// Whether the type that begins in a row is known.
pub fn is_known(table: &[u32], n: usize, row: usize) -> bool
    requires { Walkable table.now n × (row < modulus) }
    ensures { KnownAt table.now n row result }
{
    known(table, n, type_of(table, n, row))
}

// The fields of a class: 24, 23. Those before `row` have the stamp.
pub fn fields(
    table: &[u32],
    marks: &mut [u32],
    n: usize,
    left: usize,
    stamp: u32,
    row: usize,
) -> Result<(), Refusal>
    requires { Walkable table.now n × (rows ≤ length marks.old) }
    ensures { FieldsJudged table.now n left stamp row marks.old marks.new result }
{
    if ABSENT <= row {
        return Ok(());
    }
    if left == 0 {
        return Err(Refusal {
            reason: Reason::Broken,
            position: 0,
        });
    }
    let t = word(table, columns::TYPE, row);
    if is_known(table, n, t) {
        if mark(marks, word(table, columns::NUMBER, row), stamp) {
            return Err(Refusal {
                reason: Reason::FieldRepeated,
                position: word(table, columns::START, row),
            });
        }
        return fields(
            table,
            marks,
            n,
            left - 1,
            stamp,
            word(table, columns::NEXT, row),
        );
    }
    Err(Refusal {
        reason: Reason::TypeUnknown,
        position: word(table, columns::START, t),
    })
}

// One parameter or local, after `before` others that begin at `others` and `index` that begin at `first`: 24, 27, 28.
fn variable(
    table: &[u32],
    n: usize,
    others: usize,
    before: usize,
    first: usize,
    index: usize,
    row: usize,
) -> Result<(), Refusal>
    requires { Walkable table.now n × (before ≤ rows) × (index ≤ 4096) }
    ensures { VariableJudged table.now n others before first index row result }
{
    let t = word(table, columns::TYPE, row);
    if is_known(table, n, t) {
        let x = word(table, columns::NUMBER, row);
        if repeated(table, before, others, x) {
            return Err(Refusal {
                reason: Reason::VariableRepeated,
                position: word(table, columns::START, row),
            });
        }
        if repeated(table, index, first, x) {
            return Err(Refusal {
                reason: Reason::VariableRepeated,
                position: word(table, columns::START, row),
            });
        }
        if before + index < VARIABLES_MOST {
            return Ok(());
        }
        return Err(Refusal {
            reason: Reason::TooManyVariables,
            position: word(table, columns::START, row),
        });
    }
    Err(Refusal {
        reason: Reason::TypeUnknown,
        position: word(table, columns::START, t),
    })
}

// Parameters, or locals after the parameters.
pub fn variables(
    table: &[u32],
    n: usize,
    left: usize,
    others: usize,
    before: usize,
    first: usize,
    index: usize,
    row: usize,
) -> Result<(), Refusal>
    requires { Walkable table.now n × (before ≤ rows) × (index + left ≤ 4096) }
    ensures { VariablesJudged table.now n left others before first index row result }
{
    if ABSENT <= row {
        return Ok(());
    }
    if left == 0 {
        return Err(Refusal {
            reason: Reason::Broken,
            position: 0,
        });
    }
    variable(table, n, others, before, first, index, row)?;
    variables(
        table,
        n,
        left - 1,
        others,
        before,
        first,
        index + 1,
        word(table, columns::NEXT, row),
    )
}
