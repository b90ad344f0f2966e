// What is read at a place of a text.

// Why no number is read.
#[derive(Clone, Copy)]
pub enum DecimalError {
    // No number stands there.
    NoNumber,
    // A decimal's digits before the exponent write 10^19 or more; a whole number is 2^64 or more.
    TooLarge,
    // The f64 nearest to a decimal is infinite.
    Infinite,
}

// A number, which of a decimal is the f64 nearest to it, or why there is none; and where its text ends.
#[derive(Clone, Copy)]
pub struct Parsed<T> {
    pub value: Result<T, DecimalError>,
    pub end: usize,
}
