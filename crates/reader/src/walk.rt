// The walk over the tree in the work table: how many nodes there are, and the smallest position of a node that is too deep. It goes down
// the tree by calls, no deeper than the bound of depth, and along a list by a loop: a list may be as long as there are tokens. A row's
// first two parts lie in columns 4 and 5, and only three kinds of nodes tell more: a block's first part and a call's second are lists,
// linked by column 6, and an `if` has a third part, in column 7.
ghost use Rattle.std.specs.Prelude.{◌≡◌, false, ◌+◌, ◌<◌, ◌≤◌, min, length};
ghost use Rattle.base.specs.Word.{modulus};
ghost use Rattle.base.specs.promises.Table.{rows};
ghost use Rattle.base.specs.Codes.{table_least};
ghost use Rattle.base.specs.promises.Table as Table;
ghost use Rattle.reader.specs.promises.WalkPost.{Walkable, follower, Walks, WalksMethods, WalksClasses, WalksProgram, nowhere, count_most};

use lexer::kinds::{DOT, IF, OPEN_BRACE};
use parser::columns;
use parser::table::kind;

// The number of nodes, 65,535 where there are more; and the smallest position of a node that is too deep, 4,294,967,296 where none is.
#[derive(Drop)]
pub struct Walked {
    pub count: usize,
    pub place: usize,
}

// The most that is counted.
const COUNT_MOST: usize = 65535;

// No position: past all others and no Option, so that the smaller of two is the first in any case.
pub const NOWHERE: usize = 4294967296;

// The greatest depth that is allowed.
const DEPTH_MOST: usize = 64;

// The last row.
const LAST: usize = 2047;

// A sum, at most 65,535.
fn sum(a: usize, b: usize) -> usize
    ensures { result ≡ min (a + b) count_most }
{
    if COUNT_MOST < a {
        return COUNT_MOST;
    }
    if COUNT_MOST - a < b {
        return COUNT_MOST;
    }
    a + b
}

// The smaller of two positions.
fn least(a: usize, b: usize) -> usize
    ensures { result ≡ min a b }
{
    if a < b { a } else { b }
}

// No part.
fn nothing() -> Walked
    ensures { (result.count ≡ 0) × (result.place ≡ nowhere) }
{
    Walked {
        count: 0,
        place: NOWHERE,
    }
}

// Two parts together.
fn join(a: Walked, b: Walked) -> Walked
    ensures { (result.count ≡ min (a.count + b.count) count_most) × (result.place ≡ min a.place b.place) }
{
    let count = sum(a.count, b.count);
    let place = least(a.place, b.place);
    Walked {
        count: count,
        place: place,
    }
}

// A node that is not too deep, with its parts.
fn whole(parts: Walked) -> Walked
    ensures { (result.count ≡ min (1 + parts.count) count_most) × (result.place ≡ parts.place) }
{
    let count = sum(1, parts.count);
    let place = parts.place;
    Walked {
        count: count,
        place: place,
    }
}

// Column k of a row.
fn column(table: &[u32], k: usize, row: usize) -> usize
    requires { (table_least ≤ length table.now) × (k < 8) × (row < rows) }
    ensures { (result ≡ Table.col table.now k row) × (result < modulus) }
{
    table[columns::ROWS * k + row] as usize
}

// The row of the member after this one in a list, ABSENT where there is none. In a tree each link goes up: one that does not ends the walk.
fn following(table: &[u32], chain: bool, row: usize) -> usize
    requires { (table_least ≤ length table.now) × (row < rows) }
    ensures { result ≡ follower table.now chain row }
{
    if chain {
        let next = column(table, 6, row);
        if row < next {
            return next;
        }
    }
    columns::ABSENT
}

// The part whose row this is, at depth d: a list if `chain`, and a node otherwise.
#[cycle(node_part)]
fn part(table: &[u32], n: usize, chain: bool, row: usize, d: usize) -> Walked
    requires { Walkable table.now n × (d ≤ 65) }
    ensures { Walks table.now n chain row d result }
{
    let mut all = nothing();
    let mut at = row;
    while at < columns::ABSENT {
        let member = node(table, n, at, d);
        all = join(all, member);
        at = following(table, chain, at);
    }
    all
}

// The node of a row, at depth d. What lies below a node that is too deep begins no earlier.
#[cycle(node_part)]
fn node(table: &[u32], n: usize, row: usize, d: usize) -> Walked
    requires { Walkable table.now n × (row < rows) × (d ≤ 65) }
    ensures { Walks table.now n false row d result }
{
    if DEPTH_MOST < d {
        let start = column(table, 3, row);
        return Walked {
            count: 1,
            place: start,
        };
    }
    let k = kind(table, n, row);
    let a = part(table, n, k == OPEN_BRACE, column(table, 4, row), d + 1);
    let b = part(table, n, k == DOT, column(table, 5, row), d + 1);
    let two = join(a, b);
    if k == IF {
        let c = part(table, n, false, column(table, 7, row), d + 1);
        let three = join(two, c);
        return whole(three);
    }
    whole(two)
}

// The methods from this row on. The row after a method's own holds its body and its return expression.
fn methods(table: &[u32], n: usize, row: usize) -> Walked
    requires { Walkable table.now n }
    ensures { WalksMethods table.now n row result }
{
    let mut all = nothing();
    let mut at = row;
    while at < LAST {
        let body = part(table, n, true, column(table, 4, at + 1), 1);
        let value = part(table, n, false, column(table, 5, at + 1), 1);
        let own = join(body, value);
        all = join(all, own);
        at = following(table, true, at);
    }
    all
}

// The classes from this row on.
pub fn classes(table: &[u32], n: usize, row: usize) -> Walked
    requires { Walkable table.now n }
    ensures { WalksClasses table.now n row result }
{
    let mut all = nothing();
    let mut at = row;
    while at < columns::ABSENT {
        let own = methods(table, n, column(table, 5, at));
        all = join(all, own);
        at = following(table, true, at);
    }
    all
}

// The whole program: main's statement is in row MAIN_STATEMENT, the first class in column NEXT of row CLASS_LIST.
pub fn program(table: &[u32], n: usize) -> Walked
    requires { Walkable table.now n }
    ensures { WalksProgram table.now n result }
{
    let main = part(table, n, false, columns::MAIN_STATEMENT, 1);
    let rest = classes(table, n, column(table, 6, 0));
    join(main, rest)
}
