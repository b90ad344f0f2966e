// A float of 0 or more as a decimal number of 9 digits, d.dddddddde-dd. It is made by multiplications and divisions by 10 in floats, so its
// last digit may be off by one.
ghost use Rattle.std.specs.Prelude.{◌≤◌};

use crate::{after, put, put_byte};

// A number from 1 to below 10, and the power of ten that it stands beside.
#[derive(Clone, Copy)]
struct Scientific {
    digits: f64,
    exponent: i32,
}

// 10 or more, divided until it is below 10.
fn scaled_down(x: f64) -> Scientific {
    let mut digits = x;
    for exponent in 0..400 {
        if digits < 10.0 {
            return Scientific { digits, exponent };
        }
        digits /= 10.0;
    }
    Scientific {
        digits,
        exponent: 400,
    }
}

// Below 1, multiplied until it is 1 or more.
fn scaled_up(x: f64) -> Scientific {
    let mut digits = x;
    for turn in 0..400u16 {
        if 1.0 <= digits {
            return Scientific {
                digits,
                exponent: -i32::from(turn),
            };
        }
        digits *= 10.0;
    }
    Scientific {
        digits,
        exponent: -400,
    }
}

fn scaled(x: f64) -> Scientific {
    if 1.0 <= x {
        scaled_down(x)
    } else {
        scaled_up(x)
    }
}

// Half of the ninth digit is added, so that cutting rounds.
fn rounded(s: Scientific) -> Scientific {
    let digits = s.digits + 0.000000005;
    if digits < 10.0 {
        return Scientific { digits, ..s };
    }
    if s.exponent < 400 {
        return Scientific {
            digits: 1.0,
            exponent: s.exponent + 1,
        };
    }
    s
}

// The whole part of a number below 10.
fn first_digit(x: f64) -> u8
    ensures { result ≤ 9 }
{
    let mut rest = x;
    for digit in 0..9 {
        if rest < 1.0 {
            return digit;
        }
        rest -= 1.0;
    }
    9
}

fn put_digits(row: &mut [u8; 256], from: usize, x: f64) -> usize {
    let mut rest = x;
    let mut at = from;
    for i in 0..9 {
        if i == 1 {
            at = put_byte(row, at, b'.');
        }
        let digit = first_digit(rest);
        at = put_byte(row, at, b'0' + digit);
        rest = (rest - digit as f64) * 10.0;
    }
    at
}

fn put_exponent(row: &mut [u8; 256], from: usize, exponent: i32) -> usize {
    let sign = if exponent < 0 { b'-' } else { b'+' };
    let digits = exponent.unsigned_abs() as u64;
    let mut at = put_byte(row, from, b'e');
    at = put_byte(row, at, sign);
    if digits < 10 {
        at = put_byte(row, at, b'0');
    }
    crate::put_digits(row, at, digits)
}

// The number alone.
pub fn put_float_alone(row: &mut [u8; 256], from: usize, x: f64) -> usize {
    if 0.0 < x {
        let s = rounded(scaled(x));
        let at = put_digits(row, from, s.digits);
        return put_exponent(row, at, s.exponent);
    }
    put(row, from, b"0.00000000e+00")
}

// .. in a column, which is 14 wide at least.
pub fn put_float(row: &mut [u8; 256], from: usize, x: f64) -> usize {
    let end = put_float_alone(row, from, x);
    after(from, end, 14)
}
