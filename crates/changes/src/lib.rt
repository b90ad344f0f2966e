// What a branch changes of its parent (document 01, points 3, 5 and 6): its phase-loss key, and the rows that it flips. Rows are words
// (x, z, phase), 2n of them.
#![tactic(auto)]

ghost use Rattle.std.specs.Prelude.{◌≡◌, true, ◌+◌, ◌*◌, ◌^◌, ◌≤◌, ◌<◌, length};
ghost use Rattle.std.specs.Int.Bits.{bit_xor};
ghost use Rattle.model.specs.Keys.{usual_salts, if_set, x_bit, z_bit};
ghost use Rattle.model.specs.declared.Salts.{Salts};
ghost use Rattle.arms.specs.Arms.{ShapeBelow};
ghost use Rattle.changes.specs.Changes.{SignMasks, low_rows, loss_change, change_table, Walks};
ghost use Rattle.changes.specs.Tables.{walked_rows, first_table, second_table, change_at};

use arms::Shape;
use model::Salts;

// What a branch changes of its parent: the phase-loss key by `delta`, and phase bit 1 of the rows whose bits are set, the first 64 of them in
// `low` and the rest in `high`.
#[derive(Clone, Copy)]
pub struct Change {
    pub delta: u64,
    pub low: u64,
    pub high: u64,
}

// ---- a loss

// The loss word with qubit q lost if it was live, and live if it was lost.
pub fn toggle_loss(loss: u64, q: usize) -> u64
    requires { q < 64 }
    ensures { result ≡ bit_xor loss (2 ^ q) }
{
    loss ^ (1 << q)
}

// What a loss changes, and a reset: no row is flipped.
pub fn loss_change(q: usize) -> Change
    ensures { result ≡ loss_change q }
{
    Change {
        delta: keys::row_mask(q, keys::usual_salts().loss),
        low: 0,
        high: 0,
    }
}

// ---- a Pauli at a qubit: the rows are walked once

// The sign masks of the first m rows.
pub fn sign_masks(salts: Salts, m: usize) -> [u64; 128]
    requires { m ≤ 128 }
    ensures { SignMasks salts m result }
{
    let mut masks = [0u64; 128];
    for i in 0..m {
        masks[i] = keys::row_mask(i, salts.sign);
    }
    masks
}

// The first of 2n rows, as many as have room in a word.
#[tactic(auto, unfolding(crate::specs::Changes::low_rows))]
pub fn low_rows(n: usize) -> usize
    requires { n ≤ 64 }
    ensures { result ≡ low_rows n }
{
    if n < 32 { 2 * n } else { 64 }
}

// x of row i at qubit q.
fn x_bit(rows: &[u64], i: usize, q: usize) -> u64
    requires { (3 * i < length rows.now) × (q < 64) }
    ensures { result ≡ x_bit rows.now q i }
{
    (rows[3 * i] >> q) % 2
}

// z of row i at qubit q.
fn z_bit(rows: &[u64], i: usize, q: usize) -> u64
    requires { (3 * i + 1 < length rows.now) × (q < 64) }
    ensures { result ≡ z_bit rows.now q i }
{
    (rows[3 * i + 1] >> q) % 2
}

// m if the bit is 1, else 0, with no jump.
fn times_bit(b: u64, m: u64) -> u64
    requires { b < 2 }
    ensures { result ≡ if_set b m }
{
    m * b
}

// Of some rows, those with x set at a qubit, and those with z: the XOR of their sign masks, and as bits.
#[derive(Clone, Copy)]
pub struct Walked {
    pub x: u64,
    pub z: u64,
    pub xs: u64,
    pub zs: u64,
}

// Rows from `from` on and before `to`, walked from the last to the first, which so comes lowest.
fn walk_rows(masks: &[u64; 128], rows: &[u64], q: usize, from: usize, to: usize) -> Walked
    requires { (q < 64) × (from ≤ to) × (to ≤ from + 64) × (to ≤ 128) × (3 * to ≤ length rows.now) }
    ensures { (s : Salts) → SignMasks s to masks.now → Walks s rows.now q from to result }
{
    let mut x = 0;
    let mut z = 0;
    let mut xs = 0;
    let mut zs = 0;
    for i in (from..to).rev() {
        let mask = masks[i];
        let x_set = x_bit(rows, i, q);
        let z_set = z_bit(rows, i, q);
        x ^= times_bit(x_set, mask);
        z ^= times_bit(z_set, mask);
        xs = 2 * xs + x_set;
        zs = 2 * zs + z_set;
    }
    Walked { x, z, xs, zs }
}

// What I, X, Y and Z at qubit q change, in one pass, by the sign masks of the 2n rows. X flips the rows with z set at q, Z those with x. What
// Y flips, X or Z flips and not both.
pub fn change_table(masks: &[u64; 128], n: usize, rows: &[u64], q: usize) -> [u64; 12]
    requires { (q < 64) × (n ≤ 64) × (3 * (2 * n) ≤ length rows.now) }
    ensures { (s : Salts) → SignMasks s (2 * n) masks.now → result ≡ change_table s n rows.now q }
{
    let middle = low_rows(n);
    let a = walk_rows(masks, rows, q, 0, middle);
    let b = walk_rows(masks, rows, q, middle, 2 * n);
    let x = a.x ^ b.x;
    let z = a.z ^ b.z;
    let low = a.xs ^ a.zs;
    let high = b.xs ^ b.zs;
    [0, 0, 0, z, a.zs, b.zs, x ^ z, low, high, x, a.xs, b.xs]
}

// ---- the branches of a parent, each by a look at two tables: of the first and of the second Pauli, whose numbers follow from the branch's

// The rows that are walked: none for a loss.
#[tactic(auto, unfolding(crate::specs::Tables::walked_rows))]
pub fn walked_rows(shape: Shape, n: usize) -> usize
    requires { n ≤ 64 }
    ensures { result ≡ walked_rows shape n }
{
    match shape {
        Shape::One(_) | Shape::Two(_, _) => 2 * n,
        Shape::Lose(_) => 0,
    }
}

// The table of the first of two Paulis. Where there is one qubit, it changes nothing.
#[tactic(auto, unfolding(crate::specs::Tables::first_table, crate::specs::Tables::walked_rows))]
pub fn first_table(masks: &[u64; 128], n: usize, rows: &[u64], shape: Shape) -> [u64; 12]
    requires { (n ≤ 64) × (3 * (2 * n) ≤ length rows.now) × ShapeBelow 64 shape × SignMasks usual_salts (walked_rows shape n) masks.now }
    ensures { result ≡ first_table shape n rows.now }
{
    match shape {
        Shape::One(_) | Shape::Lose(_) => [0; 12],
        Shape::Two(p, _) => change_table(masks, n, rows, p),
    }
}

// The table of the second, or of the only one. Of a loss, its mask stands everywhere.
#[tactic(auto, unfolding(crate::specs::Tables::second_table, crate::specs::Tables::walked_rows))]
pub fn second_table(masks: &[u64; 128], n: usize, rows: &[u64], shape: Shape) -> [u64; 12]
    requires { (n ≤ 64) × (3 * (2 * n) ≤ length rows.now) × ShapeBelow 64 shape × SignMasks usual_salts (walked_rows shape n) masks.now }
    ensures { result ≡ second_table shape n rows.now }
{
    match shape {
        Shape::One(q) | Shape::Two(_, q) => change_table(masks, n, rows, q),
        Shape::Lose(q) => {
            let mask = loss_change(q).delta;
            [mask, 0, 0, mask, 0, 0, mask, 0, 0, mask, 0, 0]
        }
    }
}

// What branch a changes, by the tables of its parent.
#[tactic(auto, unfolding(crate::specs::Tables::change_at, crate::specs::Tables::both_change, crate::specs::Tables::change_in))]
pub fn change_at(first: &[u64; 12], second: &[u64; 12], a: usize) -> Change
    requires { (length first.now ≡ 12) × (length second.now ≡ 12) × (a < 15) }
    ensures { result ≡ change_at first.now second.now a }
{
    let i = 3 * ((a + 1) / 4);
    let j = 3 * ((a + 1) % 4);
    Change {
        delta: first[i] ^ second[j],
        low: first[i + 1] ^ second[j + 1],
        high: first[i + 2] ^ second[j + 2],
    }
}
