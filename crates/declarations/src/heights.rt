// How many classes a chain has, in an array by the number of a class's name, so that a climb stops at the first class that was climbed
// before: 0 where that is not known yet.
ghost use Rattle.std.specs.Prelude.{◌≤◌, length};
ghost use Rattle.base.specs.promises.Table.{rows};
ghost use Rattle.base.specs.Codes.{table_least};
ghost use Rattle.declarations.specs.promises.Climbs.{HeightsRight, HeightClimbed};

use lookup::chain::above;
use lookup::rows::word;
use parser::columns;
use parser::columns::ABSENT;

// How many classes the chain of c has, 0 where they are more than `left` or never end.
pub fn height(table: &[u32], heights: &mut [u32], left: usize, c: usize) -> usize
    requires { (table_least ≤ length table.now) × (rows ≤ length heights.old) × (left ≤ rows)
        × HeightsRight table.now heights.old }
    ensures { HeightClimbed table.now left c heights.new result }
{
    if left == 0 {
        return 0;
    }
    if ABSENT <= c {
        return 0;
    }
    let h = heights[c] as usize;
    if left < h {
        return 0;
    }
    if h != 0 {
        return h;
    }
    let class = word(table, columns::CLASS, c);
    if ABSENT <= class {
        return 1;
    }
    let p = above(table, class);
    if ABSENT <= p {
        return 1;
    }
    let q = height(table, heights, left - 1, p);
    if q == 0 {
        return 0;
    }
    heights[c] = (q + 1) as u32;
    q + 1
}
