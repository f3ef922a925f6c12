// The rows of the table, and the numbers of names: a name's number is the row of the first token with the same bytes.
// The first rows of the names stand in chains, one for each of 2,048 buckets: column 5 of row b is the head of bucket b, column 6 of a row the
// next one of its chain, each a row plus one or 0 for none. A name is compared with the names of its bucket alone.
// At worst all names share a bucket, and a name is compared with every different name before it: 2,048 names make about two million comparisons
// of lengths. The names of one length share 16,384 bytes, so that a name costs at most as many comparisons of bytes, and all of them 33 million.
ghost use Rattle.std.specs.Prelude.{◌≡◌, true, ◌+◌, ◌≤◌, ◌<◌, length};
ghost use Rattle.base.specs.Bytes.{same};
ghost use Rattle.base.specs.promises.Table.{col, c_start, c_length, rows};
ghost use Rattle.base.specs.Codes.{table_least, source_most};
ghost use Rattle.lexer.specs.Kinds.{is_name_lem};
ghost use Rattle.lexer.specs.promises.Rows.{first_named};
ghost use Rattle.lexer.specs.promises.Chains.{bucket_from, NoNames, text_from, tokens_of, token_row, stored_row, Sought, Adding, Extended};

// Where the columns of the table begin: the token's position, its name's number or literal's value, the head of a bucket, the link of a
// chain, the token's length. Its kind stands in column 0.
const STARTS: usize = 2048;

const NUMBERS: usize = 4096;

const HEADS: usize = 10240;

const LINKS: usize = 12288;

const LENGTHS: usize = 14336;

const BUCKETS: usize = 2048;

// A token: its kind, the position of its first byte, the position after its last.
#[derive(Drop)]
pub struct Lexeme {
    pub kind: u32,
    pub start: usize,
    pub end: usize,
}

// The bucket of a name, by all of its bytes.
fn bucket(text: &[u8]) -> usize
    ensures { (result ≡ bucket_from 0 text.now) × (result < rows) }
{
    let mut h: usize = 0;
    for &b in text {
        h = (h * 31 + b as usize) % BUCKETS;
    }
    h
}

// No bucket has a name.
pub fn clear_buckets(table: &mut [u32])
    requires { table_least ≤ length table.old }
    ensures { NoNames table.new rows }
{
    table[HEADS..HEADS + BUCKETS].fill(0);
}

// Whether the token of a row has these bytes.
fn has_text(source: &[u8], table: &[u32], row: usize, text: &[u8]) -> bool
    requires { (table_least ≤ length table.now) × (row < rows) × (col table.now c_start row + col table.now c_length row ≤ length source.now) }
    ensures { result ≡ same (text_from source.now table.now row) text.now }
{
    let start = table[STARTS + row] as usize;
    let end = start + table[LENGTHS + row] as usize;
    &source[start..end] == text
}

// The number of the name with these bytes, where `count` rows are filled: `count` where no row has them.
fn lookup(source: &[u8], table: &[u32], count: usize, head: u32, text: &[u8]) -> u32
    requires { Sought source.now table.now count head text.now }
    ensures { result ≡ first_named (tokens_of source.now table.now count) text.now }
{
    let mut link = head as usize;
    while 0 < link {
        let row = link - 1;
        if has_text(source, table, row, text) {
            return table[NUMBERS + row];
        }
        link = table[LINKS + row] as usize;
    }
    count as u32
}

// A token becomes row i, with its number and its link.
pub fn store(table: &mut [u32], i: usize, token: Lexeme, number: u32, link: u32)
    requires { (table_least ≤ length table.old) × (i < rows) × (token.start ≤ token.end) × (token.end ≤ source_most) }
    ensures { table.new ≡ stored_row table.old i (token_row token.kind token.start token.end number link) }
{
    table[i] = token.kind;
    table[STARTS + i] = token.start as u32;
    table[NUMBERS + i] = number;
    table[LINKS + i] = link;
    table[LENGTHS + i] = (token.end - token.start) as u32;
}

// A name becomes row `count`: the head of its bucket's chain where it is new, and outside the chains where an earlier row has its bytes.
pub fn store_name(source: &[u8], table: &mut [u32], count: usize, token: Lexeme)
    requires { Adding source.now table.old count token.start token.end × (count < rows) × (is_name_lem token.kind ≡ true) }
    ensures { Extended source.now table.old count token.kind token.start token.end table.new }
{
    let start = token.start;
    let end = token.end;
    let b = bucket(&source[start..end]);
    let head = table[HEADS + b];
    let number = lookup(source, table, count, head, &source[start..end]);
    if number == count as u32 {
        store(table, count, token, number, head);
        table[HEADS + b] = count as u32 + 1;
        return;
    }
    store(table, count, token, number, 0);
}
