// The numbers of a line, as crates/decimal reads them.
ghost use Rattle.std.specs.Prelude.{◌≡◌, ◌≤◌, length};
ghost use Rattle.decimal.specs.Wholes.{whole_at};
ghost use Rattle.circuit.specs.Numbers.{fault_of, number_at};

use crate::Fault;
use decimal::{DecimalError, Parsed};

// A decimal number or what is wrong with it, and where it ends.
#[derive(Clone, Copy)]
pub struct Number {
    pub value: Result<f64, Fault>,
    pub end: usize,
}

impl From<DecimalError> for Fault {
    ghost from_gives = { λ error fault. fault ≡ fault_of error };

    #[tactic(auto, unfolding(crate::specs::Numbers::fault_of))]
    fn from(error: DecimalError) -> Fault {
        match error {
            DecimalError::NoNumber => Fault::Number,
            DecimalError::TooLarge => Fault::Digits,
            DecimalError::Infinite => Fault::Infinite,
        }
    }
}

// The decimal number at a place, whatever follows it.
#[tactic(auto, unfolding(crate::specs::Numbers::number_at, crate::specs::Numbers::value_of))]
pub fn number_at(line: &[u8], from: usize) -> Number
    requires { from ≤ length line.now }
    ensures from_le_end { (from ≤ result.end) × (result.end ≤ length line.now) }
    ensures is { result ≡ number_at line.now from }
{
    let d = decimal::decimal(line, from);
    Number {
        value: d.value.map_err(Fault::from),
        end: d.end,
    }
}

// The whole number at a place, whatever follows it.
pub fn whole_at(line: &[u8], from: usize) -> Parsed<u64>
    requires { from ≤ length line.now }
    ensures from_le_end { (from ≤ result.end) × (result.end ≤ length line.now) }
    ensures is { result ≡ whole_at line.now from }
{
    decimal::whole(line, from)
}
