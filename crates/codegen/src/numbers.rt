// The numbers of plain instructions. Numbers and no enum: they lie as words in lent code, by `i_mark` and the others of the definitions, and
// code may hold any word.

pub const MARK: usize = 0;

pub const PUSH: usize = 1;

pub const LOAD: usize = 2;

pub const SAVE: usize = 3;

pub const SELF: usize = 4;

pub const NEGATE: usize = 5;

pub const RETURN: usize = 6;

pub const HALT: usize = 7;

pub const OPERATE: usize = 8;

pub const JUMP: usize = 9;

pub const UNLESS: usize = 10;

pub const KEEP: usize = 11;

pub const FETCH: usize = 12;

pub const MEASURE: usize = 13;

pub const MAKE_ARRAY: usize = 14;

pub const PRINT: usize = 15;

pub const STORE_ELEMENT: usize = 16;

pub const MAKE_OBJECT: usize = 17;

pub const CALL: usize = 18;

pub const READ_REGISTER: usize = 19;

pub const WRITE_REGISTER: usize = 20;

pub const SCALE: usize = 21;
