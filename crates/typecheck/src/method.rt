// The bodies of all methods: locals, statements, the return expression. While those of a class are judged, `fields` holds what its fields
// mean to them.
ghost use Rattle.std.specs.Prelude.{◌≤◌, ◌<◌, length};
ghost use Rattle.base.specs.promises.Table.{rows};
ghost use Rattle.base.specs.Word.{modulus};
ghost use Rattle.reader.specs.promises.WalkPost.{Walkable};
ghost use Rattle.lookup.specs.promises.Fields.{FieldsHeld, fields_least};
ghost use Rattle.bodies.specs.promises.Scoping.{Judgeable};
ghost use Rattle.typecheck.specs.promises.MethodPost.{CarriedJudged, BodyJudged, MethodsJudged, ClassJudged, ClassesJudged};
ghost use Rattle.typecheck.specs.promises.MethodPost.{BodiesJudged};

use base::refusal::{Reason, Refusal};
use bodies::expr::operand;
use bodies::range::onward;
use bodies::scope::Scope;
use bodies::stmt;
use declarations::variables::variables;
use lookup::fields::fill;
use lookup::member::count;
use lookup::rows::word;
use lookup::types::type_of;
use parser::columns;
use parser::columns::{ABSENT, NEXT};

// Statements and return expression of a method: the row after that of its name leads to them, and they lie behind its name.
fn carried(table: &[u32], fields: &[u32], s: Scope, row: usize) -> Result<(), Refusal>
    requires { Judgeable table.now fields.now s × (row < modulus) }
    ensures { CarriedJudged table.now s row result }
{
    let r = onward(s, row);
    let first = word(table, columns::BODY, row + 1);
    stmt::list(table, fields, s, r, first)?;
    let want = type_of(table, s.tokens, word(table, columns::TYPE, row));
    let value = word(table, columns::VALUE, row + 1);
    operand(table, fields, s, r, value, want)
}

// The body of a method in the class whose name has the number `owner`.
fn body(
    table: &[u32],
    fields: &[u32],
    n: usize,
    classes: usize,
    owner: usize,
    row: usize,
) -> Result<(), Refusal>
    requires { Walkable table.now n × (fields_least ≤ length fields.now) × FieldsHeld table.now n classes owner fields.now
        × (row < modulus) }
    ensures { BodyJudged table.now n classes owner row result }
{
    let parameters = word(table, columns::PARAMETERS, row);
    let locals = word(table, columns::LOCALS, row);
    let before = count(table, n, parameters);
    variables(table, n, n, parameters, before, locals, 0, locals)?;
    let s = Scope {
        tokens: n,
        classes: classes,
        owner: owner,
        parameters: parameters,
        locals: locals,
    };
    carried(table, fields, s, row)
}

// The bodies of the methods from a row on.
fn methods(
    table: &[u32],
    fields: &[u32],
    n: usize,
    classes: usize,
    left: usize,
    owner: usize,
    row: usize,
) -> Result<(), Refusal>
    requires { Walkable table.now n × (fields_least ≤ length fields.now) × FieldsHeld table.now n classes owner fields.now }
    ensures { MethodsJudged table.now n classes left owner row result }
{
    if ABSENT <= row {
        return Ok(());
    }
    if left == 0 {
        return Err(Refusal {
            reason: Reason::Broken,
            position: 0,
        });
    }
    body(table, fields, n, classes, owner, row)?;
    let next = word(table, NEXT, row);
    methods(table, fields, n, classes, left - 1, owner, next)
}

// The bodies of the class in a row.
fn of_class(
    table: &[u32],
    fields: &mut [u32],
    n: usize,
    classes: usize,
    row: usize,
) -> Result<(), Refusal>
    requires { Walkable table.now n × (fields_least ≤ length fields.old) × (classes ≤ rows) }
    ensures { ClassJudged table.now n classes row result }
{
    let first = word(table, columns::METHODS, row);
    if ABSENT <= first {
        return Ok(());
    }
    let owner = word(table, columns::NUMBER, row);
    fill(table, fields, n, classes, owner);
    methods(table, fields, n, classes, n, owner, first)
}

// The bodies of the classes from a row on.
fn all(
    table: &[u32],
    fields: &mut [u32],
    n: usize,
    classes: usize,
    left: usize,
    row: usize,
) -> Result<(), Refusal>
    requires { Walkable table.now n × (fields_least ≤ length fields.old) × (classes ≤ rows) }
    ensures { ClassesJudged table.now n classes left row result }
{
    if ABSENT <= row {
        return Ok(());
    }
    if left == 0 {
        return Err(Refusal {
            reason: Reason::Broken,
            position: 0,
        });
    }
    of_class(table, fields, n, classes, row)?;
    all(table, fields, n, classes, left - 1, word(table, NEXT, row))
}

// All bodies, main first: its statement stands in row 14, and it sees no fields.
pub fn bodies(table: &[u32], n: usize, classes: usize) -> Result<(), Refusal>
    requires { Walkable table.now n × (classes ≤ rows) }
    ensures { BodiesJudged table.now n classes result }
{
    let mut fields = [0u32; 4096];
    fill(table, &mut fields, n, classes, ABSENT);
    let s = Scope {
        tokens: n,
        classes: classes,
        owner: ABSENT,
        parameters: ABSENT,
        locals: ABSENT,
    };
    let r = onward(s, columns::MAIN_STATEMENT);
    stmt::single(table, &fields, s, r, columns::MAIN_STATEMENT)?;
    all(
        table,
        &mut fields,
        n,
        classes,
        n,
        word(table, NEXT, columns::CLASS_LIST),
    )
}
