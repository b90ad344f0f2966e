// The f64 nearest to m × 10^k or m / 10^k, of an m of at most 19 digits: by one operation on floats where m and 10^k are exact as floats,
// and else by exact arithmetic on numbers of many bytes.
#![tactic(auto)]

ghost use Rattle.std.specs.Prelude.{◌≡◌, false, cond, eqb, ltb, length, replicate};
ghost use Prim.Native.Nat.{◌^◌, ◌<◌, ◌≤◌, ◌*◌, ◌/◌, compare};
ghost use Rattle.std.specs.Float.{binary64};
ghost use Rattle.std.specs.Float.Ieee.{nearest, units, round, to_bits};
ghost use Rattle.std.specs.Float.Ieee.Nearest.{closest};
ghost use Rattle.std.specs.Float.Ieee.Exact.{HasValue};
ghost use Rattle.nearest.specs.Large.{digit_limit, value_of, Large, Fraction, Climbed, Scaled, Lifted, Sized, IsRounded};

// ---- numbers of many bytes, the lowest byte first

// m, whatever a was.
fn put(a: &mut [u8], m: u64)
    requires { m < 256 ^ length a.old }
    ensures { value_of a.new ≡ m }
{
    let mut rest = m;
    for byte in a.iter_mut() {
        *byte = (rest % 256) as u8;
        rest /= 256;
    }
}

// a × factor.
fn times(a: &mut [u8], factor: u64)
    requires { (factor < 2 ^ 56) × (value_of a.old * factor < 256 ^ length a.old) }
    ensures { value_of a.new ≡ value_of a.old * factor }
{
    let mut carry = 0;
    for byte in a.iter_mut() {
        let x = u64::from(*byte) * factor + carry;
        *byte = (x % 256) as u8;
        carry = x / 256;
    }
}

// Whether one number is below another, by a byte of each and what the bytes before say.
fn by_byte(below: bool, x: u8, y: u8) -> bool
    ensures { result ≡ cond (eqb x y) below (ltb x y) }
{
    if x == y { below } else { x < y }
}

// Whether a is below b.
fn less(a: &[u8], b: &[u8]) -> bool
    requires { length a.now ≡ length b.now }
    ensures { result ≡ ltb (value_of a.now) (value_of b.now) }
{
    let mut below = false;
    for (i, x) in a.iter().enumerate() {
        below = by_byte(below, *x, b[i]);
    }
    below
}

// a × factor^count.
fn raised(a: &mut [u8], factor: u64, count: usize)
    requires { (factor < 2 ^ 56) × (0 < factor) × (value_of a.old * factor ^ count < 256 ^ length a.old) }
    ensures { value_of a.new ≡ value_of a.old * factor ^ count }
{
    for _ in 0..count {
        times(a, factor);
    }
}

// a × factor^count, by many = factor^group at a time.
fn grouped(a: &mut [u8], factor: u64, many: u64, group: usize, count: usize)
    requires many_bound { (many < 2 ^ 56) × (factor < 2 ^ 56) × (0 < factor) × (0 < group) × (many ≡ factor ^ group) }
    requires count_bound { value_of a.old * factor ^ count < 256 ^ length a.old }
    ensures { value_of a.new ≡ value_of a.old * factor ^ count }
{
    raised(a, many, count / group);
    raised(a, factor, count % group);
}

// ---- rounded

// How often v can be multiplied by the factor and stay at most n, and v so multiplied.
fn climb(n: &[u8], v: &mut [u8], room: &mut [u8], factor: u64) -> u64
    requires large { Large n.now × (length v.old ≡ length n.now) × (length room.old ≡ length n.now) }
    requires v_nonzero { (0 < value_of v.old) × (value_of v.old ≤ value_of n.now) × (2 ≤ factor) × (factor < 2 ^ 56) }
    ensures { Climbed (value_of n.now) (value_of v.old) factor result (value_of v.new) }
{
    let mut k = 0;
    room.copy_from_slice(v);
    times(room, factor);
    while !less(n, room) {
        v.copy_from_slice(room);
        times(room, factor);
        k += 1;
    }
    k
}

// How often v is doubled until it is above n: 48 times at once, then 6 times, then once.
fn scale(n: &[u8], v: &mut [u8], room: &mut [u8]) -> u64
    requires { Large n.now × (length v.old ≡ length n.now) × (length room.old ≡ length n.now) × (0 < value_of v.old) }
    ensures { Scaled (value_of n.now) (value_of v.old) result (value_of v.new) × (result ≤ 2200) }
{
    if less(n, v) {
        return 0;
    }
    let high = climb(n, v, room, 0x1_0000_0000_0000);
    let middle = climb(n, v, room, 64);
    let low = climb(n, v, room, 2);
    times(v, 2);
    48 * high + 6 * middle + low + 1
}

// a / b, by halving what it lies in.
fn quotient(a: &[u8], b: &[u8], room: &mut [u8]) -> u64
    requires { Fraction a.now b.now room.old }
    ensures { result ≡ value_of a.now / value_of b.now }
{
    let mut low = 0;
    let mut high = 0x20_0000_0000_0000;
    while low + 1 < high {
        let middle = (low + high) / 2;
        room.copy_from_slice(b);
        times(room, middle);
        if less(a, room) {
            high = middle;
        } else {
            low = middle;
        }
    }
    low
}

// A quotient q, or the next number up: by how the dividend compares with the middle between them, both doubled. A tie goes to the even one.
fn settle(twice: &[u8], middle: &[u8], q: u64) -> u64
    requires { (length twice.now ≡ length middle.now) × (q < 2 ^ 53) }
    ensures { result ≡ nearest q (compare (value_of twice.now) (value_of middle.now)) }
{
    if less(twice, middle) {
        q
    } else if less(middle, twice) {
        q + 1
    } else {
        q + q % 2
    }
}

// a / b to the nearest whole number, a tie to the even one.
fn closest_to(a: &mut [u8], b: &[u8], room: &mut [u8]) -> u64
    requires { Fraction a.old b.now room.old }
    ensures { result ≡ closest (value_of a.old) (value_of b.now) }
{
    let q = quotient(a, b, room);
    room.copy_from_slice(b);
    times(room, 2 * q + 1);
    times(a, 2);
    settle(a, room, q)
}

// The bits of q × 2^k of the smallest f64s.
fn pattern(q: u64, k: u64) -> u64
    requires { (q ≤ 2 ^ 53) × (k ≤ 4000) × (0 < k → 2 ^ 52 ≤ q) }
    ensures { result ≡ to_bits binary64 (units binary64 false q k) }
{
    let bits = k * 0x10_0000_0000_0000 + q;
    bits.min(0x7ff0_0000_0000_0000)
}

// The bits of the f64 nearest to num / den, of n = num × 2^(1074 - lift) and v = den × 2^53.
fn rounded(n: &mut [u8], v: &mut [u8], room: &mut [u8], lift: u64) -> u64
    requires { Lifted n.old v.old room.old lift }
    ensures { IsRounded (value_of n.old * 2 ^ lift) (value_of v.old) result }
{
    let k = scale(n, v, room);
    times(n, 0x20_0000_0000_0000);
    let q = closest_to(n, v, room);
    pattern(q, k + lift)
}

// m × 10^up × 64^count.
fn numerator(n: &mut [u8], m: u64, up: usize, count: usize)
    requires { m * 10 ^ up * 64 ^ count < 256 ^ length n.old }
    ensures { value_of n.new ≡ m * 10 ^ up * 64 ^ count }
{
    put(n, m);
    grouped(n, 10, 10_000_000_000_000_000, 16, up);
    grouped(n, 64, 0x1_0000_0000_0000, 8, count);
}

// 10^down × 2^53.
fn denominator(v: &mut [u8], down: usize)
    requires { 2 ^ 53 * 10 ^ down < 256 ^ length v.old }
    ensures { value_of v.new ≡ 10 ^ down * 2 ^ 53 }
{
    put(v, 0x20_0000_0000_0000);
    grouped(v, 10, 10_000_000_000_000_000, 16, down);
}

// The bits of the f64 nearest to m × 10^up / 10^down, by n = m × 10^up × 64^count and v = 10^down × 2^53.
fn exact_in(
    n: &mut [u8],
    v: &mut [u8],
    room: &mut [u8],
    m: u64,
    up: usize,
    down: usize,
    count: usize,
) -> u64
    requires { Sized n.old v.old room.old m up down count }
    ensures { result ≡ to_bits binary64 (round binary64 false (m * 10 ^ up) (10 ^ down)) }
{
    numerator(n, m, up, count);
    denominator(v, down);
    rounded(n, v, room, 1074 - 6 * count as u64)
}

// The same in BYTES bytes.
fn exact_within<const BYTES: usize>(m: u64, up: usize, down: usize, count: usize) -> u64
    requires { (BYTES ≤ 288) × Sized (replicate BYTES 0) (replicate BYTES 0) (replicate BYTES 0) m up down count }
    ensures { result ≡ to_bits binary64 (round binary64 false (m * 10 ^ up) (10 ^ down)) }
{
    let mut n = [0u8; BYTES];
    let mut v = [0u8; BYTES];
    let mut room = [0u8; BYTES];
    exact_in(&mut n, &mut v, &mut room, m, up, down, count)
}

// The same, in the bytes that it takes. In 48: the value is above 2^-91, so 64^24 leaves the quotient its 53 digits. In 288: 64^179 is 2^1074,
// by which every f64 is whole.
fn exact(m: u64, up: usize, down: usize) -> u64
    requires { (m < digit_limit) × (up ≤ 308) × (down ≤ 342) }
    ensures { result ≡ to_bits binary64 (round binary64 false (m * 10 ^ up) (10 ^ down)) }
{
    if m != 0 && up <= 27 && down <= 27 {
        exact_within::<48>(m, up, down, 24)
    } else {
        exact_within::<288>(m, up, down, 179)
    }
}

// ---- small powers of ten

// 10^0 to 10^22: beyond that, no power of ten is an f64.
const POWERS: [f64; 23] = [
    1e0, 1e1, 1e2, 1e3, 1e4, 1e5, 1e6, 1e7, 1e8, 1e9, 1e10, 1e11, 1e12, 1e13, 1e14, 1e15, 1e16,
    1e17, 1e18, 1e19, 1e20, 1e21, 1e22,
];

// 10^k, exact.
fn power(k: usize) -> f64
    requires { k ≤ 22 }
    ensures { HasValue result false (10 ^ k) 1 }
{
    POWERS[k]
}

// m × 10^k: two floats that are exact, multiplied.
fn small_times(m: u64, k: usize) -> f64
    requires { (m < 2 ^ 53) × (k ≤ 22) }
    ensures { result ≡ round binary64 false (m * 10 ^ k) 1 }
{
    m as f64 * power(k)
}

// m / 10^k: two floats that are exact, divided.
fn small_over(m: u64, k: usize) -> f64
    requires { (m < 2 ^ 53) × (k ≤ 22) }
    ensures { result ≡ round binary64 false m (10 ^ k) }
{
    m as f64 / power(k)
}

// ---- any power of ten

// The f64 nearest to m × 10^up; infinite if that is too large.
pub fn multiplied(m: u64, up: u64) -> f64
    requires { m < digit_limit }
    ensures { result ≡ round binary64 false (m * 10 ^ up) 1 }
{
    if m < 0x20_0000_0000_0000 && up <= 22 {
        return small_times(m, up as usize);
    }
    if m == 0 {
        return 0.0;
    }
    if 308 < up {
        return f64::INFINITY;
    }
    words::float_of(exact(m, up as usize, 0))
}

// The f64 nearest to m / 10^down.
pub fn divided(m: u64, down: u64) -> f64
    requires { m < digit_limit }
    ensures { result ≡ round binary64 false m (10 ^ down) }
{
    if m < 0x20_0000_0000_0000 && down <= 22 {
        return small_over(m, down as usize);
    }
    if 342 < down {
        return 0.0;
    }
    words::float_of(exact(m, 0, down as usize))
}
