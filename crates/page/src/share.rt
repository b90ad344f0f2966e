// A weight in parts per million, exactly, in whole numbers.
ghost use Rattle.std.specs.Prelude.{◌≡◌, true, ◌*◌, ◌/◌, ◌^◌};
ghost use Rattle.model.specs.Numbers.{weight_sound};
ghost use Rattle.model.specs.Page as Page;

// The 11 bits of a weight's exponent.
fn exponent_bits(weight: u64) -> u64
    ensures { result ≡ Page.exponent_bits weight }
{
    weight % 0x8000_0000_0000_0000 / 0x10_0000_0000_0000
}

// What they count as.
fn exponent(weight: u64) -> u64
    ensures { result ≡ Page.exponent weight }
{
    exponent_bits(weight).max(1)
}

// The 52 bits of a weight's significand, and the 1 in front of them, if there is one.
fn significand(weight: u64) -> u64
    ensures { result ≡ Page.significand weight }
{
    let bits = weight % 0x10_0000_0000_0000;
    if exponent_bits(weight) == 0 {
        bits
    } else {
        0x10_0000_0000_0000 + bits
    }
}

// 1,000,000 × m without its last 32 bits. The whole product of a significand has up to 73 bits, so m is multiplied in two halves.
fn product(m: u64) -> u64
    ensures { result ≡ 1000000 * m / 2 ^ 32 }
{
    let high = m / 0x1_0000_0000 * 1_000_000;
    let low = m % 0x1_0000_0000 * 1_000_000;
    high + low / 0x1_0000_0000
}

// x without its last `places` bits. Without 64 or more, none is left.
fn cut(x: u64, places: u64) -> u64
    ensures { result ≡ x / 2 ^ places }
{
    if places < 64 { x >> places } else { 0 }
}

// The weight times 1,000,000, cut down to a whole number. Of the 1075 places to cut off the exponent gives back at most 1033, since a weight
// is 1024 at most; so the 32 that the product lacks are cut off in any case.
pub fn share(weight: u64) -> u64
    requires { weight_sound weight ≡ true }
    ensures { result ≡ Page.share weight }
{
    cut(product(significand(weight)), 1043 - exponent(weight))
}
