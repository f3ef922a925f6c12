// The classes of the grammar as numbers, loosest first: a form stands without parentheses where a class of no greater number is wanted.
// They are no enum, since the class that a right operand must reach is one more than its operator's.
ghost use Rattle.std.specs.Prelude.{◌≡◌};
ghost use Rattle.printer.specs.promises.Walks.{Tighter};
ghost use Rattle.printer.specs.promises.Ranks.{tightness_of};

use lexer::kinds;

// The classes that places of one form want: any, what `!` negates, what has a member, what has an element.
pub const ANY: u32 = 0;

pub const NEGATED: u32 = 4;

pub const MEMBERED: u32 = 5;

pub const INDEXED: u32 = 6;

// The class of the expression whose own token is of kind k, where the token two behind it is of kind `third`.
#[tactic(auto, unfolding(crate::specs::promises::Ranks::tightness_of))]
pub fn rank(k: u32, third: u32) -> u32
    ensures { result ≡ tightness_of k third }
{
    match k {
        kinds::AND => 0,
        kinds::LESS => 1,
        kinds::PLUS | kinds::MINUS => 2,
        kinds::TIMES => 3,
        kinds::NOT => 4,
        kinds::NEW if third == kinds::OPEN_BRACKET => 5,
        kinds::DOT | kinds::OPEN_BRACKET => 6,
        _ => 7,
    }
}

// The class that the right operand of an operator of class w must reach.
pub fn tighter(w: u32) -> u32
    ensures { Tighter w result }
{
    if w < 4 {
        return w + 1;
    }
    w
}
