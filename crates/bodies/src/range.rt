// A range of tokens, from `first` up to `end`, in which a part of the tree lies. It is larger than those of its own parts, each of which
// lies before its token or behind it.
ghost use Rattle.std.specs.Prelude.{◌≡◌, ◌+◌, ◌≤◌, ◌<◌};

use crate::scope::Scope;

#[derive(Clone, Copy)]
pub struct Range {
    pub first: usize,
    pub end: usize,
}

// All tokens from a row on.
pub fn onward(s: Scope, row: usize) -> Range
    ensures { (result.first ≡ row) × (result.end ≡ s.tokens) }
{
    Range {
        first: row,
        end: s.tokens,
    }
}

// What of a range lies before a row.
pub fn before(r: Range, row: usize) -> Range
    ensures { (result.first ≡ r.first) × (result.end ≡ row) }
{
    Range {
        first: r.first,
        end: row,
    }
}

// What of a range lies behind a row of it.
pub fn behind(r: Range, row: usize) -> Range
    requires { (r.first ≤ row) × (row < r.end) }
    ensures { (result.first ≡ row + 1) × (result.end ≡ r.end) × (r.first < result.first) × (result.first ≤ result.end) }
{
    Range {
        first: row + 1,
        end: r.end,
    }
}
