// The order in which Menu writes: the classes that may stand are a set of rows, of which the least is the earliest in the lesson. When a
// class is written, it leaves the set and its children join it.
ghost use Rattle.std.specs.Prelude.{◌+◌, ◌≤◌, ◌<◌, length};
ghost use Rattle.base.specs.promises.Table.{rows};
ghost use Rattle.base.specs.Codes.{table_least};
ghost use Rattle.base.specs.Word.{modulus};
ghost use Rattle.menu.specs.promises.MenuPost.{ChildJoined, Gathered, Freed, StripWritten};

use crate::least::{NODES, cell, enter, put, remove};
use lookup::chain::above;
use lookup::rows::word;
use parser::columns;
use parser::columns::ABSENT;

// How many rows there are.
pub const ROWS: usize = 2048;

// A class joins its parent's children, before the others.
fn link(first: &mut [u32], next: &mut [u32], parent: usize, row: usize)
    requires { (parent < length first.old) × (row < length next.old) × (row < modulus) }
    ensures { ChildJoined parent row first.old next.old first.new next.new }
{
    put(next, row, cell(first, parent));
    put(first, parent, row);
}

// The classes from a row on, the later ones first, since each joins the others of its parent before them, and `Gathered` (specs/promises)
// has the children in the order of the lesson: one without a parent joins the set, each other one the list of its parent's children.
pub fn gather(
    table: &[u32],
    tree: &mut [u32; NODES],
    first: &mut [u32; ROWS],
    next: &mut [u32; ROWS],
    left: usize,
    row: usize,
)
    requires { table_least ≤ length table.now }
    ensures { Gathered table.now left row tree.old first.old tree.new
        first.new next.new }
{
    if left == 0 {
        return;
    }
    if ABSENT <= row {
        return;
    }
    let rest = word(table, columns::NEXT, row);
    gather(table, tree, first, next, left - 1, rest);
    let c = above(table, row);
    if ABSENT <= c {
        enter(tree, row);
        return;
    }
    let parent = word(table, columns::CLASS, c);
    if ABSENT <= parent {
        return;
    }
    link(first, next, parent, row);
}

// The children from a row on join the set, `most` at most.
fn free(tree: &mut [u32; NODES], next: &[u32], most: usize, row: usize)
    ensures { Freed next.now most row tree.old tree.new }
{
    let mut child = row;
    for _i in 0..most {
        if ABSENT <= child {
            return;
        }
        enter(tree, child);
        child = cell(next, child);
    }
}

// Writes the positions of the names of `left` classes into the strip, from place i on. Answers how many of them may not stand.
pub fn write(
    table: &[u32],
    tree: &mut [u32; NODES],
    first: &[u32],
    next: &[u32],
    strip: &mut [u32],
    i: usize,
    left: usize,
) -> usize
    requires { (table_least ≤ length table.now) × (i + left ≤ length strip.old) }
    ensures { StripWritten table.now tree.old first.now next.now i left
        strip.old strip.new result }
{
    for k in i..i + left {
        let row = cell(tree, 1);
        if ABSENT <= row {
            return i + left - k;
        }
        put(strip, k, word(table, columns::START, row));
        remove(tree, row);
        free(tree, next, 2048, cell(first, row));
    }
    0
}
