// Numbers in base 10, read from bytes: decimals, rounded once, to the nearest f64, and whole numbers.
#![tactic(auto)]

pub mod answer;

ghost use Rattle.std.specs.Prelude.{◌≡◌, false, ◌^◌, ◌<◌, length};
ghost use Rattle.std.specs.Float.{inf};
ghost use Rattle.std.specs.Float.Ieee.{lt};
ghost use Rattle.std.specs.Float.Ieee.Scale.{finite};
ghost use Rattle.nearest.specs.Large.{digit_limit};
ghost use Rattle.decimal.specs.Digits.{byte_at};
ghost use Rattle.decimal.specs.Decimals.{is_sign, sign_end, is_exponent, significand_at, exponent_at, signed, refused, answer_for, scaled, answer_of, decimal_at};
ghost use Rattle.decimal.specs.Wholes.{whole_at};
ghost use Rattle.decimal.specs.Bounds.{run_at, capped_significand, capped_exponent, Within};

pub use answer::{DecimalError, Parsed};

// The digits at a place, and the number that they write after those of a number before them: at most 2^64 - 1, and `large` if it is more.
// No Option: significands and exponents go on with 2^64 - 1 where it is more, and `whole` alone asks whether it is.
#[derive(Clone, Copy)]
struct Run {
    value: u64,
    large: bool,
    end: usize,
}

// The digits before an exponent: the number that they write, how many there are, how many of them stand after the point, where they end.
#[derive(Clone, Copy)]
struct Significand {
    value: u64,
    digits: usize,
    after: u64,
    end: usize,
}

// An exponent: its sign, its size, where it ends.
#[derive(Clone, Copy)]
struct Exponent {
    negative: bool,
    size: u64,
    end: usize,
}

// ---- bytes and digits

// The byte at a place; 0 past the end, where no number goes on.
fn byte_at(text: &[u8], at: usize) -> u8
    ensures { result ≡ byte_at text.now at }
{
    text.get(at).copied().unwrap_or(0)
}

// The digits from `from` on, after the number `before`.
fn digits_at(text: &[u8], from: usize, before: u64) -> Run
    ensures { result ≡ run_at text.now from before }
{
    let mut value = before;
    let mut large = false;
    for at in from..text.len() {
        let b = text[at];
        if !b.is_ascii_digit() {
            return Run {
                value,
                large,
                end: at,
            };
        }
        let d = u64::from(b - b'0');
        if (u64::MAX - d) / 10 < value {
            value = u64::MAX;
            large = true;
        } else {
            value = 10 * value + d;
        }
    }
    Run {
        value,
        large,
        end: from.max(text.len()),
    }
}

// ---- the parts of a decimal

fn is_sign(b: u8) -> bool
    ensures { result ≡ is_sign b }
{
    b == b'+' || b == b'-'
}

fn is_exponent(b: u8) -> bool
    ensures { result ≡ is_exponent b }
{
    b == b'e' || b == b'E'
}

// Past the sign at a place, if one stands there.
fn sign_end(text: &[u8], at: usize) -> usize
    ensures { result ≡ sign_end text.now at }
{
    if is_sign(byte_at(text, at)) {
        at + 1
    } else {
        at
    }
}

// Digits, and optionally a point and digits.
fn significand_at(text: &[u8], from: usize) -> Significand
    ensures { result ≡ capped_significand (significand_at text.now from) }
{
    let whole = digits_at(text, from, 0);
    let point = whole.end;
    if byte_at(text, point) != b'.' {
        return Significand {
            value: whole.value,
            digits: point - from,
            after: 0,
            end: point,
        };
    }
    let next = point + 1;
    let fraction = digits_at(text, next, whole.value);
    let after = fraction.end - next;
    Significand {
        value: fraction.value,
        digits: point - from + after,
        after: after as u64,
        end: fraction.end,
    }
}

// Optionally an e, a sign if there is one, and at least one digit.
fn exponent_at(text: &[u8], at: usize) -> Exponent
    ensures { result ≡ capped_exponent (exponent_at text.now at) }
{
    let none = Exponent {
        negative: false,
        size: 0,
        end: at,
    };
    if !is_exponent(byte_at(text, at)) {
        return none;
    }
    let sign = at + 1;
    let start = sign_end(text, sign);
    let run = digits_at(text, start, 0);
    if run.end == start {
        return none;
    }
    Exponent {
        negative: byte_at(text, sign) == b'-',
        size: run.value,
        end: run.end,
    }
}

// ---- the value

fn with_sign(negative: bool, x: f64) -> f64
    ensures { result ≡ signed negative x }
{
    if negative { -x } else { x }
}

// ---- the answer

fn refusal(error: DecimalError, end: usize) -> Parsed<f64>
    ensures { result ≡ refused error end }
{
    Parsed {
        value: Err(error),
        end,
    }
}

// The answer for a number whose size is rounded: refused if that is infinite.
fn answer_for(negative: bool, size: f64, end: usize) -> Parsed<f64>
    requires { lt size (inf false) ≡ finite size }
    ensures { result ≡ answer_for negative size end }
{
    if size < f64::INFINITY {
        return Parsed {
            value: Ok(with_sign(negative, size)),
            end,
        };
    }
    refusal(DecimalError::Infinite, end)
}

// ±m × 10^up.
fn multiplied(negative: bool, m: u64, up: u64, end: usize) -> Parsed<f64>
    requires { m < digit_limit }
    ensures { result ≡ scaled negative m up 0 end }
{
    answer_for(negative, nearest::multiplied(m, up), end)
}

// ±m / 10^down.
fn divided(negative: bool, m: u64, down: u64, end: usize) -> Parsed<f64>
    requires { m < digit_limit }
    ensures { result ≡ scaled negative m 0 down end }
{
    answer_for(negative, nearest::divided(m, down), end)
}

// ±m × 10^(x - f). Divided by 10^400 or more, m is 0.
fn answer_of(negative: bool, m: u64, f: u64, x: Exponent) -> Parsed<f64>
    requires { f < 2 ^ 63 }
    ensures { result ≡ answer_of negative m f x }
{
    if 10_000_000_000_000_000_000 <= m {
        return refusal(DecimalError::TooLarge, x.end);
    }
    if x.negative {
        if 400 <= x.size {
            return divided(negative, m, 400, x.end);
        }
        return divided(negative, m, x.size + f, x.end);
    }
    if f <= x.size {
        return multiplied(negative, m, x.size - f, x.end);
    }
    divided(negative, m, f - x.size, x.end)
}

// The decimal number that stands in text at `from`.
pub fn decimal(text: &[u8], from: usize) -> Parsed<f64>
    ensures value { result ≡ decimal_at text.now from }
    ensures within { Within from (length text.now) result.end }
{
    let start = sign_end(text, from);
    let s = significand_at(text, start);
    if s.digits == 0 {
        return refusal(DecimalError::NoNumber, from);
    }
    let x = exponent_at(text, s.end);
    answer_of(byte_at(text, from) == b'-', s.value, s.after, x)
}

// The whole number that stands in text at `from`.
pub fn whole(text: &[u8], from: usize) -> Parsed<u64>
    ensures value { result ≡ whole_at text.now from }
    ensures within { Within from (length text.now) result.end }
{
    let run = digits_at(text, from, 0);
    if run.end == from {
        return Parsed {
            value: Err(DecimalError::NoNumber),
            end: from,
        };
    }
    if run.large {
        return Parsed {
            value: Err(DecimalError::TooLarge),
            end: run.end,
        };
    }
    Parsed {
        value: Ok(run.value),
        end: run.end,
    }
}
