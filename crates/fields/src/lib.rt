// The fields and lines of a sheet, read: document 01, "The sheet".
#![tactic(auto)]

ghost use Rattle.std.specs.Prelude.{◌≡◌, ℕ, ◌+◌, ◌-◌, ◌*◌, ◌≤◌, ◌<◌, ◌^◌, length, take, drop};
ghost use Rattle.std.specs.Option.{MatchOption};
ghost use Rattle.std.proofs.Math.Option.{some};
ghost use Rattle.model.specs.Sheet.{columns, digit, field, same_words, value_from, field_value, line_len, line_fields, lines_fields};
ghost use Rattle.fields.specs.Read.{as_option, is_some, column};

// What a byte counts as a digit: how far it is past '0', and 0 if it is before that.
fn digit_of(b: u8) -> u64
    ensures { result ≡ b - digit 0 }
{
    u64::from(b.saturating_sub(b'0'))
}

// The number that the digits stand for, blanks passed over; none if it is 2^64 or more.
pub fn digits_value(text: &[u8]) -> Option<u64>
    ensures { MatchOption result (2 ^ 64 ≤ value_from 0 text.now) (λ v. v ≡ value_from 0 text.now) }
{
    let mut v = 0;
    for b in text {
        if *b != b' ' {
            let d = digit_of(*b);
            if (u64::MAX - d) / 10 < v {
                return None;
            }
            v = 10 * v + d;
        }
    }
    Some(v)
}

// The column of the last digit of v; a blank if no digit is left.
fn column_of(v: u64) -> u64
    ensures { result ≡ column v }
{
    if v == 0 { 32 } else { 48 + v % 10 }
}

// Whether the columns are the field of v: its digits at the end, and blanks before them.
pub fn is_field(text: &[u8], v: u64) -> bool
    requires { length text.now ≡ columns }
    ensures { result ≡ same_words text.now (field v) }
{
    if text[20] as u64 != 48 + v % 10 {
        return false;
    }
    let mut rest = v / 10;
    for i in (0..20).rev() {
        if text[i] as u64 != column_of(rest) {
            return false;
        }
        rest /= 10;
    }
    true
}

// The number below 2^64 of which the columns are the field, if there is one.
pub fn read_field(text: &[u8]) -> Option<u64>
    requires { length text.now ≡ columns }
    ensures { as_option result ≡ field_value text.now }
{
    let v = digits_value(text)?;
    if is_field(text, v) { Some(v) } else { None }
}

// The number of the field that begins at byte `at`, if there is one. That there is one is not looked at: those who ask know it.
pub fn number_at(text: &[u8], at: usize) -> u64
    requires { at + columns ≤ length text.now }
    ensures { (v : ℕ) → field_value (take columns (drop at text.now)) ≡ some v → result ≡ v }
{
    digits_value(&text[at..at + 21]).unwrap_or(0)
}

// Whether these bytes are a line of m fields.
pub fn line_sound(text: &[u8], m: usize) -> bool
    requires { (m ≤ 6) × (length text.now ≡ line_len m) }
    ensures { result ≡ is_some (line_fields m text.now) }
{
    for j in 0..m {
        let at = 21 * j;
        if read_field(&text[at..at + 21]).is_none() {
            return false;
        }
    }
    text[21 * m] == b'\n'
}

// Whether these bytes are lines of three fields.
pub fn lines_sound(text: &[u8]) -> bool
    ensures { result ≡ is_some (lines_fields 3 text.now) }
{
    if text.len() % 64 != 0 {
        return false;
    }
    for i in 0..text.len() / 64 {
        let at = 64 * i;
        if !line_sound(&text[at..at + 64], 3) {
            return false;
        }
    }
    true
}
