// The columns of the work table (specs, `Layout`): a row for each token, and in it what is known of the token, of the node or declaration
// whose own token it is, and of the name whose number it is.

// How many rows a column has.
pub const ROWS: usize = 2048;
// No row: an empty list, or no such part. A number of a row past the last and no Option: links lie as words in the lent table.
pub const ABSENT: usize = 2048;

// Of a token: its kind, its position, the number of its name or the value of its literal.
pub const START: usize = 1;

pub const NUMBER: usize = 2;

// Of a node: the position where it begins, its parts, the next member of its list.
pub const BEGIN: usize = 3;

pub const FIRST: usize = 4;

pub const SECOND: usize = 5;

pub const NEXT: usize = 6;

pub const THIRD: usize = 7;

// Of a variable or method its type; of a class its parent's name; the first of the parameters, locals, fields and methods.
pub const TYPE: usize = 3;

pub const PARENT: usize = 3;

pub const PARAMETERS: usize = 4;

pub const LOCALS: usize = 5;

pub const FIELDS: usize = 4;

pub const METHODS: usize = 5;

// Of the parenthesis after a method's name: its first statement and its return expression.
pub const BODY: usize = 4;

pub const VALUE: usize = 5;

// Of the number of a name: the class of that name.
pub const CLASS: usize = 7;

// Where main's statement and the list of classes stand.
pub const MAIN_STATEMENT: usize = 14;

pub const CLASS_LIST: usize = 0;
