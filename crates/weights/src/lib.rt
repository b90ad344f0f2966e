// Normalise and truncate: document 01, point 4. An entry's weight has its bits in the first of the entry's words.
#![tactic(auto)]

mod calls;

ghost use Rattle.std.specs.Prelude.{◌≡◌, true, map};
ghost use Rattle.model.specs.Floats.{finite_from_zero};
ghost use Rattle.model.specs.Entries.{listed};
ghost use Rattle.model.specs.Store.{keyed_weighed};
ghost use Rattle.model.specs.Sum.{total, divided_by, kept, taken_by};
ghost use Rattle.model.specs.Sound.{Packed};
ghost use Rattle.entries.specs.Holds.{Holds};
ghost use Rattle.weights.specs.Outcomes.{Normalised, Truncated};

pub use calls::{normalise, normalise_known, truncate, truncate_known};
use model::Size;

// ---- normalise

// The weights added from 0 in list order.
pub fn weights_total(store: &[u64], size: Size, count: usize) -> f64
    requires { Packed size count store.now }
    ensures { result ≡ total keyed_weighed (listed size count store.now) }
{
    let len = entries::entry_len(size);
    let mut sum = 0.0;
    for i in 0..count {
        sum += words::float_of(store[i * len]);
    }
    sum
}

// Each weight divided by `by`.
pub fn divide_weights(store: &mut [u64], size: Size, count: usize, by: f64)
    requires { Packed size count store.old }
    ensures { Holds size count (map (divided_by keyed_weighed by) (listed size count store.old)) store.new }
{
    let len = entries::entry_len(size);
    for i in 0..count {
        let at = i * len;
        let weight = words::float_of(store[at]);
        store[at] = words::bits_of(weight / by);
    }
}

// Each weight divided by the total. A list that is not empty and whose total is 0 is left as it is, and the answer is false.
pub fn normalise_entries(store: &mut [u64], size: Size, count: usize) -> bool
    requires { Packed size count store.old }
    ensures { Normalised size count store.old result store.new }
{
    if count == 0 {
        return true;
    }
    let sum = weights_total(store, size, count);
    if sum == 0.0 {
        return false;
    }
    divide_weights(store, size, count, sum);
    true
}

// ---- truncate

// What truncating leaves: so many entries. The weights of those that went, added from 0 in list order.
#[derive(Clone, Copy)]
pub struct Cut {
    pub left: usize,
    pub taken: f64,
}

// The entries whose weight is above the cutoff, moved to the front in list order. The slots past them are emptied.
fn keep_above(store: &mut [u64], size: Size, count: usize, cutoff: f64) -> Cut
    requires { Packed size count store.old }
    ensures holds { Holds size result.left (kept keyed_weighed cutoff (listed size count store.old)) store.new }
    ensures taken_value { result.taken ≡ taken_by keyed_weighed cutoff (listed size count store.old) }
{
    let len = entries::entry_len(size);
    let mut left = 0;
    let mut taken = 0.0;
    for i in 0..count {
        let weight = words::float_of(store[i * len]);
        if cutoff < weight {
            entries::move_entry(store, size, count, i, left);
            left += 1;
        } else {
            taken += weight;
        }
    }
    entries::clear_from(store, size, left, count);
    Cut { left, taken }
}

// The entries whose weight is above the cutoff, in list order, the slots past them emptied; if any went, normalised.
// (Weights above a cutoff that is not below 0 have a total above 0: there is no 9.)
pub fn truncate_entries(store: &mut [u64], size: Size, count: usize, cutoff: f64) -> Cut
    requires { Packed size count store.old × (finite_from_zero cutoff ≡ true) }
    ensures { Truncated size count cutoff store.old result store.new }
{
    let cut = keep_above(store, size, count, cutoff);
    if cut.left != count {
        normalise_entries(store, size, cut.left);
    }
    cut
}
