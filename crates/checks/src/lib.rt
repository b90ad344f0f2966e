// The tests in front of every call: sizes, header, and every word of the store behind numbers 1, 2 and 5.
#![tactic(auto)]

ghost use Rattle.std.specs.Prelude.{◌≡◌, true, [], ◌∷◌, map, ◌+◌, ◌*◌, ◌^◌, ◌<◌, ◌≤◌, length};
ghost use Rattle.model.specs.Floats.{float, finite, finite_from_zero};
ghost use Rattle.model.specs.Entries.{entry_len, entry_of, strip, listed};
ghost use Rattle.model.specs.Numbers as Numbers;
ghost use Rattle.model.specs.Numbers.{max_coefficients};
ghost use Rattle.model.specs.Lists.{all_below};
ghost use Rattle.model.specs.Calls as Calls;
ghost use Rattle.model.specs.Calls.{held, shape, words_sound};
ghost use Rattle.model.specs.Known.{Known, known_after};
ghost use Rattle.entries.specs.Within.{Within};
ghost use Rattle.checks.specs.Sound.{entry_sound};

use model::{Header, Size};

// ---- 1: sizes

// From 1 to `most`.
pub fn one_to(most: usize, x: usize) -> bool
    ensures { result ≡ Numbers.one_to most x }
{
    1 <= x && x <= most
}

// n, k and capacity are within their limits, and a store of `words` words has capacity × entry length of them.
#[tactic(auto, unfolding(model::specs::Numbers::size_sound))]
pub fn size_sound(size: Size, words: usize) -> bool
    ensures { result ≡ Numbers.size_sound size words }
{
    let Size { n, k, capacity } = size;
    one_to(model::MAX_QUBITS, n)
        && one_to(model::MAX_COEFFICIENTS, k)
        && one_to(model::MAX_CAPACITY, capacity)
        && words == capacity * entries::entry_len(size)
}

// ---- 2: the header

// Neither NaN nor infinite nor below 0.
pub fn finite_from_zero(x: f64) -> bool
    ensures { result ≡ finite_from_zero x }
{
    0.0 <= x && x < f64::INFINITY
}

#[tactic(auto, unfolding(model::specs::Numbers::bounds_sound))]
pub fn bounds_sound(threshold: f64, cutoff: f64) -> bool
    ensures { result ≡ Numbers.bounds_sound threshold cutoff }
{
    finite_from_zero(threshold) && finite_from_zero(cutoff)
}

#[tactic(auto, unfolding(model::specs::Numbers::header_sound))]
pub fn header_sound(h: Header) -> bool
    ensures { result ≡ Numbers.header_sound h }
{
    h.count <= h.size.capacity && bounds_sound(h.threshold, h.cutoff)
}

// Number 1 or 2, or 0 if neither applies: so it is where that is known. A number and no enum, here and below: it is the answer's, of the C
// interface.
#[tactic(auto, unfolding(model::specs::Numbers::first_of))]
fn shape_number(h: Header, store: &[u64], known: bool) -> u64
    requires { Known known (held h store.now) }
    ensures { result ≡ Numbers.first_of (shape (held h store.now)) }
{
    if known {
        return 0;
    }
    if !size_sound(h.size, store.len()) {
        return 1;
    }
    if !header_sound(h) {
        return 2;
    }
    0
}

// ---- 5: the words

// Not NaN, not below 0, not above 1024.
#[tactic(auto, unfolding(model::specs::Numbers::weight_sound, model::specs::Floats::up_to))]
pub fn weight_sound(w: u64) -> bool
    ensures { result ≡ Numbers.weight_sound w }
{
    let x = words::float_of(w);
    0.0 <= x && x <= 1024.0
}

// The largest word with no bit at n or higher.
pub fn largest(n: usize) -> u64
    requires { n ≤ 64 }
    ensures { result + 1 ≡ 2 ^ n }
{
    if n < 64 { (1 << n) - 1 } else { u64::MAX }
}

// The exponent's field of a float's bits, and 1: 2048, the only one with a bit at 11, for a NaN or an infinity.
pub fn exponent_next(w: u64) -> u64
    ensures { Numbers.fits_in 11 result ≡ finite (float w) }
{
    (w >> 52) % 2048 + 1
}

// The first `used` coefficients, all of them counted: neither part NaN nor infinite. In one OR, so with no way out on the way.
pub fn counted_sound(coefs: &[u64], count: u64, used: usize) -> bool
    requires { (used ≤ max_coefficients) × (used ≤ count) × (3 * used ≤ length coefs.now) }
    ensures { result ≡ all_below (Numbers.coef_sound count coefs.now) used }
{
    let mut any = 0;
    for j in 0..used {
        let at = 3 * j;
        any |= exponent_next(coefs[at + 1]) | exponent_next(coefs[at + 2]);
    }
    any <= 2047
}

// The places from `used` to k, none of them counted: 0.
#[tactic(auto, unfolding(model::specs::Numbers::coefs_sound))]
pub fn unused_sound(coefs: &[u64], count: u64, used: usize, k: usize) -> bool
    requires { (k ≤ max_coefficients) × (count ≤ used) × (used ≤ k) × (3 * k ≤ length coefs.now) × (all_below (Numbers.coef_sound count coefs.now) used ≡ true) }
    ensures { result ≡ Numbers.coefs_sound k count coefs.now }
{
    let mut any = 0;
    for j in used..k {
        let at = 3 * j;
        any |= coefs[at] | coefs[at + 1] | coefs[at + 2];
    }
    any == 0
}

#[tactic(auto, unfolding(model::specs::Numbers::coefs_sound))]
pub fn coefs_sound(coefs: &[u64], k: usize, count: u64) -> bool
    requires { (k ≤ max_coefficients) × (3 * k ≤ length coefs.now) }
    ensures { result ≡ Numbers.coefs_sound k count coefs.now }
{
    if (k as u64) <= count {
        return counted_sound(coefs, count, k);
    }
    let used = count as usize;
    counted_sound(coefs, count, used) && unused_sound(coefs, count, used, k)
}

// No row has a bit of x or z at n or higher, or a phase above 3: neither has the OR of all. A pair of rows a turn, with an OR of its own
// for each of its six words, so that wide instructions do it.
pub fn rows_sound(rows: &[u64], n: usize) -> bool
    requires { (n ≤ 64) × (3 * (2 * n) ≤ length rows.now) }
    ensures { result ≡ Numbers.rows_sound n rows.now }
{
    let mut a = 0;
    let mut b = 0;
    let mut c = 0;
    let mut d = 0;
    let mut e = 0;
    let mut f = 0;
    for i in 0..n {
        let at = 6 * i;
        a |= rows[at];
        b |= rows[at + 1];
        c |= rows[at + 2];
        d |= rows[at + 3];
        e |= rows[at + 4];
        f |= rows[at + 5];
    }
    let words = (a | b) | (d | e);
    let phases = c | f;
    words <= largest(n) && phases <= 3
}

// Every word of an entry but weight and keys is one that a call accepts.
pub fn body_sound(e: &[u64], size: Size) -> bool
    requires { Within size × (length e.now ≡ entry_len size) }
    ensures { result ≡ Numbers.body_sound size (entry_of size e.now).entry.body }
{
    let Size { n, k, .. } = size;
    let count = e[4];
    let rows = 5 + 3 * k;
    if e[1] > largest(n) || count > k as u64 {
        return false;
    }
    coefs_sound(&e[5..rows], k, count) && rows_sound(&e[rows..], n)
}

// Every word of an entry but its keys is one that a call accepts.
#[tactic(auto, unfolding(crate::specs::Sound::entry_sound, model::specs::Entries::entry_of))]
pub fn entry_sound(e: &[u64], size: Size) -> bool
    requires { Within size × (length e.now ≡ entry_len size) }
    ensures { result ≡ entry_sound size (strip (entry_of size e.now)) }
{
    weight_sound(e[0]) && body_sound(e, size)
}

// Every word of the listed entries but their keys is one that a call accepts.
pub fn entries_sound(store: &[u64], size: Size, count: usize) -> bool
    requires { Within size × (count * entry_len size ≤ length store.now) }
    ensures { result ≡ Numbers.entries_sound size (map strip (listed size count store.now)) }
{
    let len = entries::entry_len(size);
    for i in 0..count {
        if !entry_sound(words::stretch(store, len, i), size) {
            return false;
        }
    }
    true
}

// Every listed weight is one that a call accepts.
pub fn weights_sound(store: &[u64], size: Size, count: usize) -> bool
    requires { Within size × (count * entry_len size ≤ length store.now) }
    ensures { result ≡ Numbers.weights_sound (map strip (listed size count store.now)) }
{
    let len = entries::entry_len(size);
    for i in 0..count {
        if !weight_sound(store[i * len]) {
            return false;
        }
    }
    true
}

// Every word is 0: their OR is.
pub fn all_zero(part: &[u64]) -> bool
    ensures { result ≡ Numbers.all_zero part.now }
{
    let mut any = 0;
    for word in part {
        any |= *word;
    }
    any == 0
}

// Number 5 does not apply: the listed entries are sound, and the slots past the count are 0. Of these only the weights are looked at where
// all else is known.
fn words_sound(h: Header, store: &[u64], known: bool) -> bool
    requires { (Numbers.first_of (shape (held h store.now)) ≡ 0) × Known known (held h store.now) }
    ensures { result ≡ words_sound (held h store.now) }
{
    let Header { size, count, .. } = h;
    if known {
        return weights_sound(store, size, count);
    }
    let past = count * entries::entry_len(size);
    all_zero(&store[past..]) && entries_sound(store, size, count)
}

// ---- the tests in front of a call

// The number of one test of a call's own: 0 if it does not apply.
#[tactic(auto, unfolding(model::specs::Numbers::first_of))]
pub fn test(number: u64, applies: bool) -> u64
    ensures { result ≡ Numbers.first_of (Numbers.gives number applies ∷ []) }
{
    if applies { number } else { 0 }
}

// EVERY CALL BEGINS WITH THIS: 1, 2, the number `own` that its own tests of its arguments gave, or 5: the first that is not 0. Whoever has
// made an accepted call on the sum, and nothing else since, may say that it is known; a caller from outside is not asked.
pub fn front(h: Header, store: &[u64], own: u64, known: bool) -> u64
    requires { Known known (held h store.now) }
    ensures { result ≡ Calls.front own (held h store.now) }
{
    let number = shape_number(h, store, known);
    if number != 0 {
        return number;
    }
    if own != 0 {
        return own;
    }
    if words_sound(h, store, known) { 0 } else { 5 }
}

// What is known after a call that gave this number.
pub fn known_after(known: bool, number: u64) -> bool
    ensures { result ≡ known_after known number }
{
    known || number == 0
}
