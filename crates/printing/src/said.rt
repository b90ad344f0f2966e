// What is said on standard error.
ghost use Rattle.std.specs.Prelude.{◌≤◌};

use streams::STDERR_FILENO;

pub fn say(t: &[u8]) {
    io::write_all(STDERR_FILENO, t);
}

pub fn say_number(v: u64) {
    io::print_decimal(STDERR_FILENO, v);
}

// A float as the table shows it.
pub fn say_float(x: f64) {
    let mut row = crate::row();
    let end = crate::put_float_alone(&mut row, 0, x);
    crate::write_up_to(STDERR_FILENO, &row, end);
}

// A byte as it is shown: those that do not print are question marks.
fn shown(b: u8) -> u8 {
    match b {
        b' '..=b'~' => b,
        _ => b'?',
    }
}

// The bytes of a text from a place to another, as they are shown, cut after 60; how many they are.
fn copy_shown(row: &mut [u8; 60], t: &[u8], from: usize, to: usize) -> usize
    ensures { result ≤ 60 }
{
    let word = t.get(from..to.min(t.len())).unwrap_or(&[]);
    for (cell, b) in row.iter_mut().zip(word) {
        *cell = shown(*b);
    }
    word.len().min(60)
}

// .. in backquotes.
pub fn say_word(t: &[u8], from: usize, to: usize) {
    let mut row = [0u8; 60];
    let n = copy_shown(&mut row, t, from, to);
    say(b"`");
    say(&row[..n]);
    if n < to.saturating_sub(from) {
        say(b"..");
    }
    say(b"`");
}
