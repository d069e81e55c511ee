// Numbers as text: right-justified in columns, a number's line, and the number that nine columns hold.
#![tactic(auto)]

ghost use Rattle.std.specs.Prelude.{◌≡◌, ◌<◌, pos, length, take};
ghost use Rattle.common.specs.Lists.{placed};
ghost use Rattle.columns.specs.Number as Number;
ghost use Rattle.columns.specs.Line.{column_of, number_line, number_at};

// What columns hold: blanks only, a number, or neither.
#[derive(Clone, Copy)]
pub enum Field {
    Blank,
    Number(u32),
    Malformed,
}

impl Field {
    // The number, where the columns hold one.
    pub fn number(self) -> Option<u32>
        ensures { result ≡ Number.number_in self }
    {
        match self {
            Field::Number(n) => Some(n),
            _ => None,
        }
    }
}

// ---- reading

// One column more. Eight columns have a number below 100,000,000, so nine fit a u32.
#[tactic(auto, unfolding(crate::specs::Number::next))]
fn next(f: Field, b: u8) -> Field
    requires { Number.value f < 100000000 }
    ensures { result ≡ Number.next f b }
{
    let digit = b.is_ascii_digit();
    match f {
        Field::Blank => {
            if b == b' ' {
                return Field::Blank;
            }
            if digit {
                return Field::Number((b - b'0') as u32);
            }
            Field::Malformed
        }
        Field::Number(n) => {
            if digit & (0 < n) {
                return Field::Number(10 * n + (b - b'0') as u32);
            }
            Field::Malformed
        }
        Field::Malformed => Field::Malformed,
    }
}

// The number in the nine columns of a line from `at` on; of a line that ends before them, in those that it has.
pub fn number_at(line: &[u8], at: usize) -> Field
    ensures { result ≡ number_at at line.now }
{
    let mut f = Field::Blank;
    for b in line.iter().skip(at).take(9) {
        f = next(f, *b);
    }
    f
}

// ---- printing

// A column's byte, and what is left for the columns before it: of the number, and whether a - is due.
#[derive(Clone, Copy)]
struct Column {
    byte: u8,
    rest: u64,
    minus: bool,
}

fn next_column(rest: u64, minus: bool) -> Column
    ensures { result ≡ column_of rest minus }
{
    if 0 < rest {
        return Column {
            byte: b'0' + (rest % 10) as u8,
            rest: rest / 10,
            minus,
        };
    }
    if minus {
        return Column {
            byte: b'-',
            rest: 0,
            minus: false,
        };
    }
    Column {
        byte: b' ',
        rest: 0,
        minus: false,
    }
}

// Fills the cell with n, right-justified, after a - where one is asked for.
fn put(cell: &mut [u8], minus: bool, n: u64)
    ensures { cell.new ≡ Number.in_columns (length cell.old) minus n }
{
    if cell.len() == 0 {
        return;
    }
    let last = cell.len() - 1;
    cell[last] = b'0' + (n % 10) as u8;
    let mut rest = n / 10;
    let mut due = minus;
    for i in (0..last).rev() {
        let c = next_column(rest, due);
        cell[i] = c.byte;
        rest = c.rest;
        due = c.minus;
    }
}

// The same in the columns of a line from `at` on; a line that has not all of them stays as it is.
fn put_at(line: &mut [u8], at: usize, width: usize, minus: bool, n: u64)
    ensures { line.new ≡ placed at (Number.in_columns width minus n) line.old }
{
    if line.len() < width {
        return;
    }
    if line.len() - width < at {
        return;
    }
    put(&mut line[at..at + width], minus, n);
}

// Writes n in the columns of a line from `at` on; a line that has not all of them stays as it is.
pub fn put_number(line: &mut [u8], at: usize, width: usize, n: u64)
    ensures { line.new ≡ placed at (Number.text width (pos n)) line.old }
{
    put_at(line, at, width, false, n);
}

// The same of a number that may be negative; one of its parts above and below 0 is 0.
pub fn put_signed(line: &mut [u8], at: usize, width: usize, z: i64)
    ensures { line.new ≡ placed at (Number.text width z) line.old }
{
    let below = signed::below_zero(z);
    put_at(line, at, width, 0 < below, signed::above_zero(z) + below);
}

// A number in nine columns and a line feed: what is printed for a refusal.
pub fn number_line(n: u64) -> [u8; 10]
    ensures { result ≡ number_line n }
{
    let mut line = [0u8; 10];
    put_number(&mut line, 0, 9, n);
    line[9] = b'\n';
    line
}
