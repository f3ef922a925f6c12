// The text of the kept classes: how long it is, and its bytes in the strip.
ghost use Rattle.std.specs.Prelude.{◌≡◌, ◌+◌, ◌-◌, ◌*◌, ◌≤◌, ◌<◌, length};
ghost use Rattle.joining.specs.Join.{slice};
ghost use Rattle.base.specs.Codes.{table_least, tokens_most};
ghost use Rattle.base.specs.Word.{modulus};
ghost use Rattle.base.specs.promises.Table.{rows, c_start};
ghost use Rattle.base.specs.promises.Table as Table;
ghost use Rattle.joiner.specs.promises.Texts.{end_before_lem, part_size_lem, kept_from, class_room, Overlaid, ClassWritten};

use crate::names::{taken, word};
use crate::sources::Sources;
use parser::columns;

// The position of the token before that of a row.
fn start_before(table: &[u32], row: usize) -> usize
    requires { (table_least ≤ length table.now) × (row < rows) }
    ensures { (result ≡ Table.col table.now c_start (row - 1)) × (result < modulus) }
{
    word(table, columns::START, row.saturating_sub(1))
}

// The position behind the class before that of row `next`, or behind the last of n tokens.
#[tactic(auto, unfolding(crate::specs::promises::Texts::end_before_lem))]
fn end_before(table: &[u32], n: usize, next: usize) -> usize
    requires { (table_least ≤ length table.now) × (n ≤ tokens_most) }
    ensures { (result ≡ end_before_lem table.now n next) × (result ≤ modulus) }
{
    if next < columns::ABSENT {
        return word(table, columns::START, next.saturating_sub(2)) + 1;
    }
    word(table, columns::START, n.saturating_sub(1)) + 1
}

// How many of `size` bytes lie from one position up to another.
fn part_size(size: usize, from: usize, end: usize) -> usize
    ensures { (result ≡ part_size_lem size from end) × (result ≤ end) }
{
    end.min(size).saturating_sub(from)
}

// How many bytes a class takes, with the line feed behind it: that of a row, before that of row `next`.
fn own_size(s: &Sources, row: usize, next: usize) -> usize
    requires { row < rows }
    ensures { (result ≡ part_size_lem (length s.now.library.now) (Table.col s.now.table.now c_start (row - 1))
        (end_before_lem s.now.table.now s.now.n next) + 1) × (result ≤ class_room) }
{
    let from = start_before(s.table, row);
    let end = end_before(s.table, s.n, next);
    part_size(s.library.len(), from, end) + 1
}

// How many bytes the kept ones of at most `left` classes take, from a row on.
pub fn kept_size(s: &Sources, row: usize, left: usize) -> usize
    requires { left ≤ tokens_most }
    ensures { (result ≡ length (kept_from s.now.lesson.now s.now.names.now (length s.now.names.now) s.now.library.now
        s.now.table.now s.now.n row left)) × (result ≤ left * class_room) }
{
    if left == 0 {
        return 0;
    }
    if columns::ABSENT <= row {
        return 0;
    }
    let next = word(s.table, columns::NEXT, row);
    let rest = kept_size(s, next, left - 1);
    let name = word(s.table, columns::START, row);
    if taken(s.lesson, s.names, s.library, name) {
        return rest;
    }
    rest + own_size(s, row, next)
}

// Copies the bytes from one position up to another into the strip, from a place on.
pub fn copy(bytes: &[u8], from: usize, end: usize, strip: &mut [u8], place: usize)
    requires { place + part_size_lem (length bytes.now) from end ≤ length strip.old }
    ensures { Overlaid strip.old place (slice from end bytes.now) strip.new }
{
    // Byte by byte: `copy_from_slice` calls memmove, and the library calls nothing but memset (include/engine.h).
    let count = part_size(bytes.len(), from, end);
    for i in 0..count {
        strip[place + i] = bytes[from + i];
    }
}

// Writes a class and a line feed, from a place on: that of a row, before that of row `next`. The answer is the place behind.
fn write_class(s: &Sources, row: usize, next: usize, strip: &mut [u8], place: usize) -> usize
    requires { (row < rows)
        × (place + (part_size_lem (length s.now.library.now) (Table.col s.now.table.now c_start (row - 1))
        (end_before_lem s.now.table.now s.now.n next) + 1) ≤ length strip.old) }
    ensures { ClassWritten s.now.library.now s.now.table.now s.now.n row next place strip.old result
        strip.new }
{
    let from = start_before(s.table, row);
    let end = end_before(s.table, s.n, next);
    copy(s.library, from, end, strip, place);
    let behind = place + part_size(s.library.len(), from, end);
    strip[behind] = b'\n';
    behind + 1
}

// Writes the kept ones of at most `left` classes, from a row on, into the strip from a place on.
pub fn write_kept(s: &Sources, row: usize, left: usize, strip: &mut [u8], place: usize)
    requires { place + length (kept_from s.now.lesson.now s.now.names.now (length s.now.names.now) s.now.library.now
        s.now.table.now s.now.n row left) ≤ length strip.old }
    ensures { Overlaid strip.old place
        (kept_from s.now.lesson.now s.now.names.now (length s.now.names.now) s.now.library.now s.now.table.now s.now.n row left)
        strip.new }
{
    if left == 0 {
        return;
    }
    if columns::ABSENT <= row {
        return;
    }
    let next = word(s.table, columns::NEXT, row);
    let name = word(s.table, columns::START, row);
    if taken(s.lesson, s.names, s.library, name) {
        write_kept(s, next, left - 1, strip, place);
        return;
    }
    let behind = write_class(s, row, next, strip, place);
    write_kept(s, next, left - 1, strip, behind);
}
