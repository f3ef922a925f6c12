// What is to be written: the part of a tree that stands in a row and has at most `left` nodes, from the place `at` of the strip on.
ghost use Rattle.std.specs.Prelude.{◌≤◌, ◌<◌, length};
ghost use Rattle.base.specs.Codes.{table_least};
ghost use Rattle.printer.specs.promises.Walks.{PartReached};

use lookup::rows::word;

#[derive(Clone, Copy)]
pub struct Job {
    pub left: usize,
    pub row: usize,
    pub at: usize,
}

// The part to which column k of a node's row leads, from a place on; it has at most as many nodes.
pub fn part(table: &[u32], k: usize, p: Job, at: usize) -> Job
    requires { (table_least ≤ length table.now) × (k < 8) }
    ensures { PartReached table.now k p at result }
{
    Job {
        left: p.left,
        row: word(table, k, p.row),
        at,
    }
}
