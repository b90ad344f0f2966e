// Document 01, point 2: when a coefficient of one entry is near the other's value at its index. Document 02, request 3: how that value is
// looked up.
#![tactic(auto)]

ghost use Rattle.std.specs.Prelude.{◌≡◌, true, ◌+◌, ◌*◌, ◌-◌, ◌≤◌, ◌<◌, length};
ghost use Rattle.model.specs.Floats.{float, finite};
ghost use Rattle.model.specs.Entries.{re_at, im_at};
ghost use Rattle.model.specs.Likeness.{LookedUp};
ghost use Rattle.likeness.specs.Walk.{Passed, WalkedTo};
ghost use Rattle.likeness.specs.Rising.{rising};
ghost use Rattle.likeness.specs.Same.{SameFinite, SameBelow};
ghost use Rattle.likeness.specs.Near.{NearAs, NearBelow};

// ---- the value at an index

// What a lookup returns: the value, and how many coefficients it read for that.
#[derive(Clone, Copy)]
pub struct Lookup {
    pub re: f64,
    pub im: f64,
    pub read: usize,
}

// A walk that has read `begun` coefficients goes on, by at most `more` of them. It leaves at the first hit: with how many are read then.
fn walk_on(coefs: &[u64], count: usize, index: u64, begun: usize, more: usize) -> Option<usize>
    requires { (3 * count ≤ length coefs.now) × (begun + more ≤ count) × Passed coefs.now index count begun }
    ensures { WalkedTo coefs.now index count (begun + more) result }
{
    for i in 0..more {
        let read = begun + i;
        let at = 3 * (count - (read + 1));
        if coefs[at] == index {
            return Some(read + 1);
        }
    }
    None
}

// With what a walk returns: the last coefficient that it read is the hit.
fn found(coefs: &[u64], count: usize, read: usize) -> Lookup
    requires { (3 * count ≤ length coefs.now) × (0 < read) × (read ≤ count) }
    ensures { (result.re ≡ float (re_at coefs.now (count - read))) × (result.im ≡ float (im_at coefs.now (count - read))) × (result.read ≡ read) }
{
    let at = 3 * (count - read);
    Lookup {
        re: words::float_of(coefs[at + 1]),
        im: words::float_of(coefs[at + 2]),
        read,
    }
}

// The value at an index among the first `count` coefficients: the last one, if repeated; 0 if absent. The walk goes from the last of
// these down, by fours as long as there are so many, and leaves at the first hit.
pub fn value_at(coefs: &[u64], count: usize, index: u64) -> Lookup
    requires { 3 * count ≤ length coefs.now }
    ensures { LookedUp coefs.now index count result.re result.im result.read }
{
    let mut read = 0;
    // A `while`: what is left after the fours begins where they end.
    while 4 <= count - read {
        if let Some(hit) = walk_on(coefs, count, index, read, 4) {
            return found(coefs, count, hit);
        }
        read += 4;
    }
    match walk_on(coefs, count, index, read, count - read) {
        Some(hit) => found(coefs, count, hit),
        None => Lookup {
            re: 0.0,
            im: 0.0,
            read: count,
        },
    }
}

// ---- coefficients that are the same

// The indices of the first `count` coefficients rise, so none is repeated.
fn indices_rise(coefs: &[u64], count: usize) -> bool
    requires { 3 * count ≤ length coefs.now }
    ensures { result ≡ rising coefs.now count }
{
    for j in 1..count {
        if coefs[3 * j] <= coefs[3 * (j - 1)] {
            return false;
        }
    }
    true
}

// The bits are those of a finite number: the exponent's field is not all ones.
fn finite_bits(w: u64) -> bool
    ensures { result ≡ finite (float w) }
{
    (w >> 52) % 2048 != 2047
}

// Coefficient j is the same in both, word by word, and finite.
fn same_finite(existing: &[u64], other: &[u64], j: usize) -> bool
    requires { (3 * j + 3 ≤ length existing.now) × (3 * j + 3 ≤ length other.now) }
    ensures { result ≡ true → SameFinite existing.now other.now j }
{
    let at = 3 * j;
    let re = other[at + 1];
    let im = other[at + 2];
    existing[at] == other[at]
        && existing[at + 1] == re
        && existing[at + 2] == im
        && finite_bits(re)
        && finite_bits(im)
}

// How many coefficients from the first on are the same in both.
fn leading_same(existing: &[u64], other: &[u64], count: usize) -> usize
    requires { (3 * count ≤ length existing.now) × (3 * count ≤ length other.now) }
    ensures { (result ≤ count) × SameBelow existing.now other.now result }
{
    for j in 0..count {
        if !same_finite(existing, other, j) {
            return j;
        }
    }
    count
}

// How many coefficients from the first on are near without a lookup: those that are the same in both, since their differences are 0; none,
// unless the limit is above 0 and the other's indices rise, so that its value at the index of each is the one at the same place.
pub fn near_unread(existing: &[u64], other: &[u64], count: usize, limit: f64) -> usize
    requires { (3 * count ≤ length existing.now) × (3 * count ≤ length other.now) }
    ensures { (result ≤ count) × NearBelow limit existing.now other.now count result }
{
    let same = leading_same(existing, other, count);
    if 0 < same && 0.0 < limit && indices_rise(other, count) {
        same
    } else {
        0
    }
}

// ---- likeness

// Coefficient j of the existing entry, less the other's value at its index, has re² + im² below the limit. Given are the
// coefficients of both and how many the other has: it is the answer for any two bodies that have these.
pub fn near_at(existing: &[u64], other: &[u64], count: usize, j: usize, limit: f64) -> bool
    requires { (3 * j + 3 ≤ length existing.now) × (3 * count ≤ length other.now) }
    ensures { NearAs limit existing.now other.now count j result }
{
    let at = 3 * j;
    let value = value_at(other, count, existing[at]);
    let re = words::float_of(existing[at + 1]) - value.re;
    let im = words::float_of(existing[at + 2]) - value.im;
    re * re + im * im < limit
}
