// A branch's words, made from its parent's: document 01, points 3, 5 and 6.
#![tactic(auto)]

ghost use Rattle.std.specs.Prelude.{◌≡◌, ◌+◌, ◌*◌, ◌^◌, ◌≤◌, ◌<◌, length, drop};
ghost use Rattle.model.specs.Lists.{all_below};
ghost use Rattle.model.specs.Entries.{entry_len, map_rows, entry_of, words_of, stretch, with_stretch};
ghost use Rattle.model.specs.Keys.{usual_salts};
ghost use Rattle.model.specs.Changes.{flipped_row, masks_of, changed_keyed};
ghost use Rattle.model.specs.Qubits.{QubitsBelow};
ghost use Rattle.model.specs.declared.BranchMutation.TheVariants.{Loss};
ghost use Rattle.entries.specs.Within.{Within};
ghost use Rattle.changes.specs.Changes.{flip_bits, change_of};
ghost use Rattle.branch.specs.Flips.{flipped_rows, loss_after};
ghost use Rattle.branch.specs.Made.{made_branch};
ghost use Rattle.branch.specs.Onto.{onto, part, head_words};
ghost use Rattle.branch.specs.Same.{same_word, same_pauli};

use changes::Change;
use model::{BranchMutation, Size};

// The loss word after a mutation.
#[tactic(auto, unfolding(crate::specs::Flips::loss_after))]
pub fn loss_after(m: BranchMutation, loss: u64) -> u64
    requires { QubitsBelow 64 m }
    ensures { result ≡ loss_after m loss }
{
    match m {
        BranchMutation::Pauli(_, _) | BranchMutation::Pair(_, _, _, _) => loss,
        BranchMutation::Loss(q) => changes::toggle_loss(loss, q),
    }
}

// ---- rows compared

// The two hold the same words: the OR of what they differ in is 0. There is no way out before the end, so that wide instructions do it.
pub fn same_words(e: &[u64], p: &[u64]) -> bool
    requires { length e.now ≡ length p.now }
    ensures { result ≡ all_below (same_word e.now p.now) (length p.now) }
{
    let mut differ = 0;
    for i in 0..p.len() {
        differ |= e[i] ^ p[i];
    }
    differ == 0
}

// The rows e are the rows p with the phases of those whose bits are set flipped, the first row's bit lowest. There is no way out before the
// end here either.
fn same_flipped(e: &[u64], p: &[u64], rows: usize, flips: u64) -> bool
    requires { (rows ≤ 64) × (length e.now ≡ 3 * rows) × (length p.now ≡ 3 * rows) }
    ensures { (m : BranchMutation) → flips ≡ flip_bits m p.now 0 rows → result ≡ all_below (same_word e.now (flipped_rows m rows p.now)) (3 * rows) }
{
    let mut x = 0;
    let mut z = 0;
    let mut phase = 0;
    let mut left = flips;
    for i in 0..rows {
        let at = 3 * i;
        x |= e[at] ^ p[at];
        z |= e[at + 1] ^ p[at + 1];
        phase |= e[at + 2] ^ (p[at + 2] ^ 2 * (left % 2));
        left /= 2;
    }
    x | z | phase == 0
}

// The same; rows of which none is flipped are compared as plain words.
pub fn same_part(e: &[u64], p: &[u64], rows: usize, flips: u64) -> bool
    requires { (rows ≤ 64) × (length e.now ≡ 3 * rows) × (length p.now ≡ 3 * rows) }
    ensures { (m : BranchMutation) → flips ≡ flip_bits m p.now 0 rows → result ≡ all_below (same_word e.now (flipped_rows m rows p.now)) (3 * rows) }
{
    if flips == 0 {
        same_words(e, p)
    } else {
        same_flipped(e, p, rows, flips)
    }
}

// The first rows of the two have the same x and z.
pub fn same_paulis(e: &[u64], p: &[u64], rows: usize) -> bool
    requires { (rows ≤ 128) × (3 * rows ≤ length e.now) × (3 * rows ≤ length p.now) }
    ensures { result ≡ all_below (same_pauli e.now p.now) rows }
{
    let mut x = 0;
    let mut z = 0;
    for i in 0..rows {
        x |= e[3 * i] ^ p[3 * i];
        z |= e[3 * i + 1] ^ p[3 * i + 1];
    }
    x | z == 0
}

// ---- an entry changed in place

// The entry that these words hold, with qubit q lost if it was live and live if it was lost, and its phase-loss key XORed with delta, the mask
// of that.
pub fn toggle_entry(e: &mut [u64], size: Size, q: usize, delta: u64)
    requires { Within size × (length e.old ≡ entry_len size) × (q < 64) × (delta ≡ masks_of usual_salts size.n (Loss q) (entry_of size e.old).entry.body.rows) }
    ensures { e.new ≡ words_of (changed_keyed usual_salts size.n (Loss q) (entry_of size e.old)) }
{
    e[3] ^= delta;
    e[1] = changes::toggle_loss(e[1], q);
}

// ---- a branch made in a slot of its parent's store

// The words before the coefficients: the branch's weight and loss word, and its keys, of which the phase-loss key changes by delta.
pub fn make_head(
    store: &mut [u64],
    from: usize,
    to: usize,
    m: BranchMutation,
    weight: u64,
    delta: u64,
)
    requires { (from + 5 ≤ to) × (to + 5 ≤ length store.old) × QubitsBelow 64 m }
    ensures { store.new ≡ onto to (head_words m weight delta from store.old) store.old }
{
    let loss = store[from + 1];
    let word_key = store[from + 2];
    let phase_loss_key = store[from + 3];
    let coefficients = store[from + 4];
    store[to] = weight;
    store[to + 1] = loss_after(m, loss);
    store[to + 2] = word_key;
    store[to + 3] = phase_loss_key ^ delta;
    store[to + 4] = coefficients;
}

// `len` words, copied as they are.
pub fn copy_part(store: &mut [u64], from: usize, to: usize, len: usize)
    requires { (from + len ≤ to) × (to + len ≤ length store.old) }
    ensures { store.new ≡ onto to (part from len store.old) store.old }
{
    store.copy_within(from..from + len, to);
}

// Rows, copied with the phases of those whose bits are set flipped, the first row's bit lowest.
fn copy_flipped(store: &mut [u64], from: usize, to: usize, rows: usize, flips: u64)
    requires { (rows ≤ 64) × (from + 3 * rows ≤ to) × (to + 3 * rows ≤ length store.old) }
    ensures { (m : BranchMutation) → flips ≡ flip_bits m (drop from store.old) 0 rows → store.new ≡ onto to (flipped_rows m rows (drop from store.old)) store.old }
{
    let mut left = flips;
    for r in 0..rows {
        let at = from + 3 * r;
        let out = to + 3 * r;
        let x = store[at];
        let z = store[at + 1];
        let phase = store[at + 2];
        store[out] = x;
        store[out + 1] = z;
        store[out + 2] = phase ^ 2 * (left % 2);
        left /= 2;
    }
}

// The 2n rows, copied with the phases that the change leaves; rows of which none is flipped are copied as plain words.
pub fn copy_rows(store: &mut [u64], from: usize, to: usize, n: usize, c: Change)
    requires { (n ≤ 64) × (from + 3 * (2 * n) ≤ to) × (to + 3 * (2 * n) ≤ length store.old) }
    ensures { (m : BranchMutation) → c ≡ change_of usual_salts n m (drop from store.old) → store.new ≡ onto to (map_rows n (flipped_row m) (drop from store.old)) store.old }
{
    if c.low == 0 && c.high == 0 {
        copy_part(store, from, to, 3 * (2 * n));
        return;
    }
    let low = changes::low_rows(n);
    copy_flipped(store, from, to, low, c.low);
    copy_flipped(store, from + 3 * low, to + 3 * low, 2 * n - low, c.high);
}

// The branch of the entry at place i, made at place `slot` past it: the parent's words changed so, with the branch's weight. What the
// slot held before is of no matter.
pub fn make_branch(
    store: &mut [u64],
    size: Size,
    i: usize,
    slot: usize,
    m: BranchMutation,
    weight: u64,
    c: Change,
)
    requires { Within size × (i < slot) × (slot * entry_len size + entry_len size ≤ length store.old) × QubitsBelow 64 m × (c ≡ change_of usual_salts size.n m (entry_of size (stretch size store.old i)).entry.body.rows) }
    ensures { store.new ≡ with_stretch (entry_len size) slot store.old (words_of (made_branch size m weight (stretch size store.old i))) }
{
    let len = entries::entry_len(size);
    let coefs = 3 * size.k;
    let from = i * len;
    let to = slot * len;
    make_head(store, from, to, m, weight, c.delta);
    copy_part(store, from + 5, to + 5, coefs);
    copy_rows(store, from + 5 + coefs, to + 5 + coefs, size.n, c);
}
