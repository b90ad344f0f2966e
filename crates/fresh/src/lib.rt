// The fresh entry, and the call that begins a sum with it: document 01, "Store words".
#![tactic(auto)]

ghost use Rattle.std.specs.Prelude.{◌≡◌, ◌*◌, ◌<◌, ◌≤◌, length};
ghost use Rattle.model.specs.Entries.{entry_len, rows_below, words_of};
ghost use Rattle.model.specs.Keys.{usual_salts, keyed};
ghost use Rattle.model.specs.Calls as Calls;
ghost use Rattle.model.specs.Calls.{fresh_row, fresh_entry, gave, start};
ghost use Rattle.entries.specs.Within.{Within};

use model::{Answer, Size};

// The bits of 1.
const ONE: u64 = 0x3ff0_0000_0000_0000;

// ---- a fresh entry

// x of fresh row r: rows 0 to n - 1 are X on qubit r.
pub fn fresh_x(n: usize, r: usize) -> u64
    requires { n ≤ 64 }
    ensures { result ≡ (fresh_row n r).x }
{
    if r < n { 1 << r } else { 0 }
}

// z of fresh row r: rows n to 2n - 1 are Z on qubit r - n.
pub fn fresh_z(n: usize, r: usize) -> u64
    requires { (n ≤ 64) × (r < 2 * n) }
    ensures { result ≡ (fresh_row n r).z }
{
    if r < n { 0 } else { 1 << (r - n) }
}

// The fresh rows, whatever the words were.
#[tactic(auto, unfolding(model::specs::Lists::words_below))]
pub fn fresh_rows(rows: &mut [u64], n: usize)
    requires { (n ≤ 64) × (length rows.old ≡ 3 * (2 * n)) }
    ensures { rows.new ≡ rows_below (fresh_row n) (2 * n) }
{
    for r in 0..2 * n {
        let at = 3 * r;
        let x = fresh_x(n, r);
        let z = fresh_z(n, r);
        rows[at] = x;
        rows[at + 1] = z;
        rows[at + 2] = 0;
    }
}

// The fresh entry with its keys, whatever the words were: weight 1 and one coefficient 1 + 0i at index 0.
pub fn fresh_entry(e: &mut [u64], size: Size)
    requires { Within size × (1 ≤ size.k) × (length e.old ≡ entry_len size) }
    ensures { e.new ≡ words_of (keyed usual_salts size.n (fresh_entry size)) }
{
    let Size { n, k, .. } = size;
    let (head, rows) = e.split_at_mut(5 + 3 * k);
    fresh_rows(rows, n);
    let word_key = keys::word_key(rows, n);
    let phase_loss_key = keys::phase_loss_key(keys::usual_salts(), n, rows, 0);
    head.fill(0);
    head[0] = ONE;
    head[2] = word_key;
    head[3] = phase_loss_key;
    head[4] = 1;
    head[6] = ONE;
}

// THE CALL: a sum of the fresh entry, if 1 is above the cutoff, in a store holding any words. 1, 2.
pub fn fresh(size: Size, threshold: f64, cutoff: f64, store: &mut [u64]) -> Answer
    ensures { gave result store.new ≡ start (Calls.fresh size threshold cutoff) store.old }
{
    if !checks::size_sound(size, store.len()) {
        return answers::plain_answer(answers::zero_header(), 1);
    }
    if !checks::bounds_sound(threshold, cutoff) {
        return answers::plain_answer(answers::zero_header(), 2);
    }
    if cutoff < 1.0 {
        let (first, rest) = store.split_at_mut(entries::entry_len(size));
        fresh_entry(first, size);
        rest.fill(0);
        return answers::plain_answer(answers::header(size, 1, threshold, cutoff, false), 0);
    }
    store.fill(0);
    answers::plain_answer(answers::header(size, 0, threshold, cutoff, false), 0)
}
