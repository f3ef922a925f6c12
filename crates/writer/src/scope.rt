// Names by number. What a body sees is a scope of `bodies`; what the fields of the declaring class and those above it mean stands in
// `names` (see `fields` of `lookup`).
ghost use Rattle.bodies.specs.promises.Scoping.{Judgeable};
ghost use Rattle.writer.specs.promises.Scoping.{SlotPost};

use crate::places::place;
use crate::view::View;
use lookup::member::count;
use lookup::types::NOTHING;
use parser::columns::ABSENT;

// Where the slots of fields begin in `names`, behind their types.
const SLOTS: usize = 2048;

// What a name means: a parameter or local by its place among these, else the nearest field upwards from the declaring class.
pub fn slot(v: &View, x: usize) -> usize
    requires { Judgeable v.now.table.now v.now.names.now v.now.scope }
    ensures { SlotPost v.now.table.now v.now.scope x result }
{
    let s = v.scope;
    let i = place(v.table, s.tokens, s.parameters, x, 0);
    if i < ABSENT {
        return i;
    }
    let j = place(v.table, s.tokens, s.locals, x, 0);
    if j < ABSENT {
        return count(v.table, s.tokens, s.parameters) + j;
    }
    if ABSENT <= x {
        return ABSENT;
    }
    if NOTHING <= v.names[x] as usize {
        return ABSENT;
    }
    v.names[SLOTS + x] as usize
}
