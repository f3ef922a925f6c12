// The table of the operators, by the kinds of their tokens and the numbers of types.
ghost use Rattle.bodies.specs.promises.OperatorPost.{LinePost, NumericPost, OperationPost};

use lexer::kinds;
use lookup::types::{BOOLEAN, FIXED, INT, NOTHING};

// A line of the table: the result, if the left operand has the type that the line names.
fn line(left: usize, want: usize, res: usize) -> usize
    ensures { LinePost left want res result }
{
    if left == want {
        return res;
    }
    NOTHING
}

// Two lines: the result for int, and that for fixed.
fn numeric(left: usize, integer: usize, fixed: usize) -> usize
    ensures { NumericPost left integer fixed result }
{
    if left == INT {
        return integer;
    }
    line(left, FIXED, fixed)
}

// The type of what an operator of kind k makes of a left operand of this type, NOTHING where no line has it.
pub fn operation(k: u32, left: usize) -> usize
    ensures { OperationPost k left result }
{
    match k {
        kinds::AND => line(left, BOOLEAN, BOOLEAN),
        kinds::LESS => numeric(left, BOOLEAN, BOOLEAN),
        kinds::PLUS => numeric(left, INT, FIXED),
        kinds::MINUS => numeric(left, INT, FIXED),
        kinds::TIMES => numeric(left, INT, FIXED),
        _ => NOTHING,
    }
}
