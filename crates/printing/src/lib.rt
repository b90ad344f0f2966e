// What programs print: rows of text, put together and then written at once. A function puts something at a place of a row and answers
// the place after it; what has no room is left out.
#![tactic(auto)]

mod failed;
mod floats;
mod said;

ghost use Rattle.std.specs.Prelude.{◌≤◌};

pub use failed::{say_failed, say_why};
pub use floats::{put_float, put_float_alone};
pub use said::{say, say_float, say_number, say_word};

// A row of blanks.
pub fn row() -> [u8; 256] {
    [b' '; 256]
}

pub fn put_byte(row: &mut [u8; 256], at: usize, b: u8) -> usize {
    if at < 256 {
        row[at] = b;
        return at + 1;
    }
    at
}

pub fn put(row: &mut [u8; 256], at: usize, text: &[u8]) -> usize {
    let mut end = at;
    for b in text {
        end = put_byte(row, end, *b);
    }
    end
}

// ---- columns

// a + b, or 256 if that is less.
fn plus(a: usize, b: usize) -> usize
    ensures { result ≤ 256 }
{
    a.saturating_add(b).min(256)
}

// The column after one that begins at `at`, is `width` wide at least, and is filled up to `end`.
pub fn after(at: usize, end: usize, width: usize) -> usize {
    let wide = plus(at, width);
    if wide < end {
        return plus(end, 1);
    }
    plus(wide, 1)
}

// A text at the left of a column.
pub fn put_left(row: &mut [u8; 256], at: usize, text: &[u8], width: usize) -> usize {
    let end = put(row, at, text);
    after(at, end, width)
}

// .. at its right.
fn put_right(row: &mut [u8; 256], at: usize, text: &[u8], width: usize) -> usize {
    let start = plus(at, width.saturating_sub(text.len()));
    let end = put(row, start, text);
    plus(end, 1)
}

// .. and there the part of another row up to a place.
pub fn put_part(
    row: &mut [u8; 256],
    at: usize,
    part: &[u8; 256],
    end: usize,
    width: usize,
) -> usize {
    put_right(row, at, &part[..end.min(256)], width)
}

// ---- numbers

pub fn put_digits(row: &mut [u8; 256], at: usize, v: u64) -> usize {
    let mut digits = [0u8; 20];
    let n = io::decimal(v, &mut digits);
    put(row, at, &digits[..n])
}

// A number at the right of a column.
pub fn put_number(row: &mut [u8; 256], at: usize, v: u64, width: usize) -> usize {
    let mut digits = [0u8; 20];
    let n = io::decimal(v, &mut digits);
    put_right(row, at, &digits[..n], width)
}

// The bits of a word: a column of 16 hexadecimal digits.
pub fn put_bits(row: &mut [u8; 256], at: usize, v: u64) -> usize {
    let mut digits = [0u8; 16];
    let n = io::hex(v, 16, &mut digits);
    put_left(row, at, &digits[..n], 16)
}

// ---- the row, written

// .. up to a place, with a line end in the place of the byte before it. Whether it was written.
pub fn write(fd: i32, row: &mut [u8; 256], end: usize) -> bool {
    if 0 < end {
        put_byte(row, end - 1, b'\n');
    }
    write_up_to(fd, row, end)
}

// .. up to a place, as it is.
pub fn write_up_to(fd: i32, row: &[u8; 256], end: usize) -> bool {
    io::write_all(fd, &row[..end.min(256)])
}
