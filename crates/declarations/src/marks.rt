// The names that a list of members has declared, in an array by the number of a name, so that a name costs one read. Each list has a
// stamp, larger than all stamps before; the word of a name is the stamp of the last list that declared it, so that no word is ever
// cleared.
ghost use Rattle.std.specs.Prelude.{◌≤◌, length};
ghost use Rattle.base.specs.promises.Table.{rows};
ghost use Rattle.declarations.specs.promises.Marking.{MarkPost};

use parser::columns::ABSENT;

// Whether the name of a number has the stamp already; it has it afterwards.
pub fn mark(marks: &mut [u32], x: usize, stamp: u32) -> bool
    requires { rows ≤ length marks.old }
    ensures { MarkPost x stamp marks.old marks.new result }
{
    if ABSENT <= x {
        return false;
    }
    if marks[x] == stamp {
        return true;
    }
    marks[x] = stamp;
    false
}
