// What a body sees: the declaring class, by the number of its name, and where its parameters and its locals begin; in main there are none
// of these. What the fields of the class and those above it mean stands in `fields` (see `lookup`).
ghost use Rattle.bodies.specs.promises.Scoping.{Judgeable, NameTyped};

use lookup::member::variable_type;
use lookup::types::NOTHING;
use parser::columns::ABSENT;

#[derive(Clone, Copy)]
pub struct Scope {
    pub tokens: usize,
    pub classes: usize,
    pub owner: usize,
    pub parameters: usize,
    pub locals: usize,
}

// The type of what a name means: the parameter or local, else the nearest field upwards from the declaring class.
pub fn name_type(table: &[u32], fields: &[u32], s: Scope, x: usize) -> usize
    requires { Judgeable table.now fields.now s }
    ensures { NameTyped table.now s x result }
{
    let n = s.tokens;
    let t = variable_type(table, n, n, s.parameters, x);
    if t < NOTHING {
        return t;
    }
    let u = variable_type(table, n, n, s.locals, x);
    if u < NOTHING {
        return u;
    }
    if ABSENT <= x {
        return NOTHING;
    }
    fields[x] as usize
}
