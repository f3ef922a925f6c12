// The bounds of document 01 on what an operation is lent.

// The least length of the work table, and the greatest of a source and of the heap strip.
pub const TABLE_LEAST: usize = 16384;

pub const SOURCE_MOST: usize = 16384;

pub const HEAP_MOST: usize = 16384;

// The greatest call limit.
pub const CALLS_MOST: usize = 64;
