// Strips that are lent to an operation: filled beforehand, looked at afterwards.
use crate::output::is_one_of;
use base::refusal::Reason;

// What a strip is made of.
pub trait Marked: Copy + PartialEq + Default {
    // What a strip holds beforehand at an index: never 0, so that a cell that is wiped or set to 0 shows.
    fn mark(i: usize) -> Self;
}

impl Marked for u8 {
    fn mark(i: usize) -> u8 {
        [165, 255, 1, 128][i % 4]
    }
}

impl Marked for u32 {
    fn mark(_i: usize) -> u32 {
        2779096485
    }
}

// Of both signs, large and small.
impl Marked for i32 {
    fn mark(i: usize) -> i32 {
        [-1515870811, 2147483647, 1, -2147483647][i % 4]
    }
}

// Every cell becomes its mark.
pub fn fill<T: Marked>(strip: &mut [T]) {
    for (i, x) in strip.iter_mut().enumerate() {
        *x = T::mark(i);
    }
}

// Whether every cell from an index on is its mark.
pub fn is_marked<T: Marked>(strip: &[T], from: usize) -> bool {
    strip
        .iter()
        .enumerate()
        .skip(from)
        .all(|(i, x)| *x == T::mark(i))
}

// Whether every cell is 0.
fn is_wiped<T: Marked>(strip: &[T]) -> bool {
    strip.iter().all(|x| *x == T::default())
}

// The refusals that touch nothing: those of what is lent, and of the call limit.
const TOUCHES_NOTHING: [Reason; 4] = [
    Reason::TableTooShort,
    Reason::CallLimitOutOfRange,
    Reason::HeapTooLong,
    Reason::RegistersNotSixteen,
];

// Whether a work table or a heap strip holds what document 01 says after an end with this number: what touches something wipes it.
pub fn is_right<T: Marked>(strip: &[T], number: u32) -> bool {
    if is_one_of(number, &TOUCHES_NOTHING) {
        is_marked(strip, 0)
    } else {
        is_wiped(strip)
    }
}
