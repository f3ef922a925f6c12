// A set of rows with its least at hand: a tree of 4,096 words, in which each node has the lesser of the two words below it. Node 1 is the
// top, node v stands over 2 * v and 2 * v + 1, and leaf 2048 + r has the row r where that is in the set, else ABSENT.
ghost use Rattle.std.specs.Prelude.{◌≡◌, ◌<◌, length, get_or, set};
ghost use Rattle.base.specs.promises.Table.{rows};
ghost use Rattle.base.specs.Word.{modulus};
ghost use Rattle.menu.specs.promises.Least.{Mended, Entered, Removed};

use parser::columns::ABSENT;

// How many words the tree has.
pub const NODES: usize = 4096;

// The word in a place, 0 past the end.
pub fn cell(words: &[u32], i: usize) -> usize
    ensures { (result ≡ get_or words.now i 0) × (result < modulus) }
{
    words.get(i).map_or(0, |w| *w as usize)
}

// Writes a word.
pub fn put(words: &mut [u32], i: usize, v: usize)
    requires { (i < length words.old) × (v < modulus) }
    ensures { words.new ≡ set words.old i v }
{
    words[i] = v as u32;
}

// Sets node v and those above it anew.
fn mend(tree: &mut [u32; NODES], v: usize)
    requires { v < rows }
    ensures { Mended v tree.old tree.new }
{
    let mut node = v;
    // A while, since the node is halved from turn to turn: no count of an index.
    while node != 0 {
        let least = cell(tree, 2 * node).min(cell(tree, 2 * node + 1));
        put(tree, node, least);
        node /= 2;
    }
}

// Puts a row into the set.
pub fn enter(tree: &mut [u32; NODES], row: usize)
    requires { row < rows }
    ensures { Entered row tree.old tree.new }
{
    put(tree, ABSENT + row, row);
    mend(tree, 1024 + row / 2);
}

// Takes a row out of it.
pub fn remove(tree: &mut [u32; NODES], row: usize)
    requires { row < rows }
    ensures { Removed row tree.old tree.new }
{
    put(tree, ABSENT + row, ABSENT);
    mend(tree, 1024 + row / 2);
}
