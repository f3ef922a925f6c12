// What a run begins with: the code of a source that Check accepted.
ghost use Rattle.std.specs.Prelude.{◌≤◌, length};
ghost use Rattle.base.specs.promises.Table.{rows};
ghost use Rattle.reader.specs.promises.WalkPost.{Walkable};
ghost use Rattle.writer.specs.promises.Preparing.{Prepares};

use crate::program::write;

// How many words `names` has: of each name the type and the slot of a field, and the size of an object.
const NAMES: usize = 6144;

// The code of an accepted source of n tokens, whose class table has this many classes, and where the code of each method begins.
pub fn prepare(table: &[u32], code: &mut [u32], entries: &mut [u32], n: usize, classes: usize)
    requires { Walkable table.now n × (rows ≤ length entries.old) × (classes ≤ rows) }
    ensures { Prepares n classes table.now code.old code.new entries.old
        entries.new }
{
    let mut names = [0u32; NAMES];
    write(table, &mut names, code, entries, n, classes);
}
