// The kinds of tokens, by the numbers of the definition, and 0 past the last token. Numbers and no enum: they lie as words in column 0 of the
// lent table, from which they would have to be made again at each look.
ghost use Rattle.std.specs.Prelude.{◌≡◌};
ghost use Rattle.lexer.specs.Kinds.{is_name_lem};

pub const END: u32 = 0;

pub const NAME: u32 = 1;

pub const OUT: u32 = 2;

pub const PRINTLN: u32 = 3;

pub const LITERAL: u32 = 4;

pub const BOOLEAN: u32 = 5;

pub const CLASS: u32 = 6;

pub const ELSE: u32 = 7;

pub const EXTENDS: u32 = 8;

pub const FALSE: u32 = 9;

pub const IF: u32 = 10;

pub const INT: u32 = 11;

pub const LENGTH: u32 = 12;

pub const MAIN: u32 = 13;

pub const NEW: u32 = 14;

pub const PUBLIC: u32 = 15;

pub const RETURN: u32 = 16;

pub const STATIC: u32 = 17;

pub const STRING: u32 = 18;

pub const SYSTEM: u32 = 19;

pub const THIS: u32 = 20;

pub const TRUE: u32 = 21;

pub const VOID: u32 = 22;

pub const WHILE: u32 = 23;

pub const AND: u32 = 24;

pub const LESS: u32 = 25;

pub const PLUS: u32 = 26;

pub const MINUS: u32 = 27;

pub const TIMES: u32 = 28;

pub const NOT: u32 = 29;

pub const ASSIGN: u32 = 30;

pub const DOT: u32 = 31;

pub const COMMA: u32 = 32;

pub const SEMICOLON: u32 = 33;

pub const OPEN: u32 = 34;

pub const CLOSE: u32 = 35;

pub const OPEN_BRACKET: u32 = 36;

pub const CLOSE_BRACKET: u32 = 37;

pub const OPEN_BRACE: u32 = 38;

pub const CLOSE_BRACE: u32 = 39;

pub const PORT: u32 = 40;

pub const GET: u32 = 41;

pub const PUT: u32 = 42;

pub const FIXED: u32 = 43;

pub const FIXED_LITERAL: u32 = 44;

// An identifier, those that the grammar requires among them.
pub fn is_name(k: u32) -> bool
    ensures { result ≡ is_name_lem k }
{
    if k <= PRINTLN {
        return NAME <= k;
    }
    GET <= k && k <= PUT
}
