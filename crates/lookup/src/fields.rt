// What a field of each name means to the bodies of a class, in an array by the number of the name: word x is the number of the field's
// type, NOTHING where no field has the name, and word 2,048 + x its slot, which is 32 and its place in the object: the slots below are
// for parameters and locals. The words from 4,096 on stay.
ghost use Rattle.std.specs.Prelude.{◌≡◌, ◌+◌, ◌≤◌, ◌<◌, length, set};
ghost use Rattle.base.specs.Word.{modulus};
ghost use Rattle.base.specs.promises.Table.{rows};
ghost use Rattle.reader.specs.promises.WalkPost.{Walkable};
ghost use Rattle.lookup.specs.promises.Fields.{ObjectSize, Cleared, OwnHeld, FieldsClimbed, FieldsFilled, fields_least, slots_from};

use crate::chain::above;
use crate::member::count;
use crate::rows::word;
use crate::types::{NOTHING, type_of};
use parser::columns;
use parser::columns::ABSENT;

// How many fields an object of the class holds whose name has the number c, with those from above, of which at most `left` classes may
// come.
pub fn object_size(table: &[u32], n: usize, left: usize, c: usize) -> usize
    requires { Walkable table.now n × (left ≤ rows) }
    ensures { ObjectSize table.now n left c result }
{
    if left == 0 {
        return 0;
    }
    let class = word(table, columns::CLASS, c);
    if ABSENT <= class {
        return 0;
    }
    let own = count(table, n, word(table, columns::FIELDS, class));
    object_size(table, n, left - 1, above(table, class)) + own
}

// No field has any name, of which there are n at most.
fn clear(fields: &mut [u32], n: usize)
    requires { (fields_least ≤ length fields.old) × (n ≤ rows) }
    ensures { Cleared n fields.old fields.new }
{
    fields[..n].fill(NOTHING as u32);
}

// A field of the name x has this type and this slot.
fn enter(fields: &mut [u32], x: usize, t: usize, slot: usize)
    requires { (fields_least ≤ length fields.old) × (x < rows) × (t < modulus) × (slot < modulus) }
    ensures { fields.new ≡ set (set fields.old x t) (slots_from + x) slot }
{
    fields[x] = t as u32;
    fields[2048 + x] = slot as u32;
}

// The fields of a list, of which at most `left` may come, from place `at` on. The last is written first, so that of two of one name the
// first stays.
fn own(table: &[u32], fields: &mut [u32], n: usize, left: usize, row: usize, at: usize)
    requires { Walkable table.now n × (fields_least ≤ length fields.old) × (at + left ≤ 4194304) }
    ensures { OwnHeld table.now n left row at fields.old fields.new }
{
    if left == 0 {
        return;
    }
    if ABSENT <= row {
        return;
    }
    own(
        table,
        fields,
        n,
        left - 1,
        word(table, columns::NEXT, row),
        at + 1,
    );
    let x = word(table, columns::NUMBER, row);
    if x < ABSENT {
        let t = type_of(table, n, word(table, columns::TYPE, row));
        enter(fields, x, t, 32 + at);
    }
}

// The fields of the class whose name has the number c and of those above it, of which at most `left` may come: the topmost class first,
// so that a field hides one of its name from above. The answer is how many fields an object of the class holds.
fn climb(table: &[u32], fields: &mut [u32], n: usize, left: usize, c: usize) -> usize
    requires { Walkable table.now n × (fields_least ≤ length fields.old) × (left ≤ rows) }
    ensures { FieldsClimbed table.now n left c fields.old fields.new result }
{
    if left == 0 {
        return 0;
    }
    let class = word(table, columns::CLASS, c);
    if ABSENT <= class {
        return 0;
    }
    let first = word(table, columns::FIELDS, class);
    let at = climb(table, fields, n, left - 1, above(table, class));
    own(table, fields, n, n, first, at);
    at + count(table, n, first)
}

// What the fields mean to the bodies of the class whose name has the number c, in a table of this many classes; to main, where c is no
// name, there are none.
pub fn fill(table: &[u32], fields: &mut [u32], n: usize, classes: usize, c: usize)
    requires { Walkable table.now n × (fields_least ≤ length fields.old) × (classes ≤ rows) }
    ensures { FieldsFilled table.now n classes c fields.old fields.new }
{
    clear(fields, n);
    climb(table, fields, n, classes, c);
}
