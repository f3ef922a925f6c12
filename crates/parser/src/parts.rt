// Tokens that have to stand where they are looked for.
ghost use Rattle.std.specs.Prelude.{[], ◌∷◌, ◌+◌, ◌<◌, ◌≤◌, length};
ghost use Rattle.base.specs.Codes.{tokens_most};
ghost use Rattle.lexer.specs.Kinds.{k_dot, k_open};
ghost use Rattle.parser.specs.promises.Parts.{Kinds, Expected, ExpectedAll};

use crate::answer::Misfit;
use crate::kinds::accepts;
use crate::table::kind;
use lexer::kinds::{DOT, OPEN};

// The number of the token behind one of this kind; NAME stands for any name.
pub fn expect(table: &[u32], n: usize, i: usize, wanted: u32) -> Result<usize, Misfit>
    requires { (n ≤ tokens_most) × (n ≤ length table.now) × (0 < wanted) }
    ensures { Expected table.now n wanted i result }
{
    if accepts(wanted, kind(table, n, i)) {
        Ok(i + 1)
    } else {
        Err(Misfit { token: i })
    }
}

// The number of the token behind tokens of these kinds.
pub fn expect_all(table: &[u32], n: usize, i: usize, kinds: &[u32]) -> Result<usize, Misfit>
    requires { (n ≤ tokens_most) × (n ≤ length table.now) × (i ≤ n) × Kinds kinds.now }
    ensures { ExpectedAll table.now n kinds.now i result }
{
    let mut next = i;
    for &wanted in kinds {
        next = expect(table, n, next, wanted)?;
    }
    Ok(next)
}

// The number of the token behind the tokens `.m(`, where m is a name of this kind.
pub fn expect_member(table: &[u32], n: usize, i: usize, m: u32) -> Result<usize, Misfit>
    requires { (n ≤ tokens_most) × (n ≤ length table.now) × (i ≤ n) × (0 < m) }
    ensures { ExpectedAll table.now n (k_dot ∷ m ∷ k_open ∷ []) i result }
{
    expect_all(table, n, i, &[DOT, m, OPEN])
}
