// A list of entries given by their places in the store: entries leave it, and the store is put into its order.
#![tactic(auto)]

ghost use Rattle.std.specs.Prelude.{◌≡◌, ℕ, ◌+◌, ◌<◌, ◌≤◌, length, get_or};
ghost use Rattle.model.specs.Entries.{listed};
ghost use Rattle.model.specs.Sound.{Packed};
ghost use Rattle.places.specs.Places.{picked, Distinct, Left};
ghost use Rattle.places.specs.Settled.{Inverse, Settled};

use model::Size;

// ---- entries leave

// Every place in its turn, as far as `count`.
pub fn own_places(count: usize) -> [usize; 256]
    requires { count ≤ 256 }
    ensures { (length result ≡ 256) × ((i : ℕ) → i < count → get_or result i 0 ≡ i) }
{
    let mut places = [0usize; 256];
    for i in 0..count {
        places[i] = i;
    }
    places
}

// The entries lost at q leave by `swap_remove`, from the highest place down. `order` holds every place in its turn; then it holds the
// places of those that stay, whose number is the answer, and `left` those of the entries that left, in that order.
pub fn leave(
    store: &[u64],
    size: Size,
    count: usize,
    q: usize,
    order: &mut [usize; 256],
    left: &mut [usize; 256],
) -> usize
    requires { Packed size count store.now × (q < 64) × (length order.old ≡ 256) × (length left.old ≡ 256) × ((i : ℕ) → i < count → get_or order.old i 0 ≡ i) }
    ensures { Left size count q store.now order.new left.new result }
{
    let len = entries::entry_len(size);
    let mut stay = count;
    let mut out = 0;
    for i in (0..count).rev() {
        if (store[i * len + 1] >> q) % 2 == 1 {
            left[out] = i;
            out += 1;
            stay -= 1;
            order[i] = order[stay];
        }
    }
    stay
}

// ---- the store is put into their order

// Which of the first `many` of the order stands at each place: 256 where none does.
// (A number and no Option: one test against `many` tells those that are still to come from those that went and from none.)
fn fill_holds(order: &[usize; 256], many: usize) -> [usize; 256]
    requires { (many ≤ 256) × (length order.now ≡ 256) × Distinct 256 many order.now }
    ensures { Inverse many order.now result }
{
    let mut holds = [256usize; 256];
    for u in 0..many {
        holds[order[u]] = u;
    }
    holds
}

// Entry v of the order is moved to place v. If one that is still to come stands there, the two change places.
fn settle(
    store: &mut [u64],
    size: Size,
    count: usize,
    order: &mut [usize; 256],
    holds: &mut [usize; 256],
    many: usize,
    v: usize,
)
    requires { Packed size count store.old × (v < many) × (many ≤ count) × Settled count many v order.old holds.old }
    ensures { Packed size count store.new × Settled count many (v + 1) order.new holds.new × (picked size many order.new store.new ≡ picked size many order.old store.old) }
{
    let s = order[v];
    if s == v {
        return;
    }
    let x = holds[v];
    order[v] = v;
    holds[v] = v;
    if x < many {
        entries::swap_entries(store, size, count, v, s);
        order[x] = s;
        holds[s] = x;
        return;
    }
    entries::move_entry(store, size, count, s, v);
    holds[s] = 256;
}

// The store lists the entries at the first `many` places of `order`, in that order, and no others: each is moved to its place in its turn.
pub fn arrange(store: &mut [u64], size: Size, count: usize, order: &mut [usize; 256], many: usize)
    requires { Packed size count store.old × (many ≤ count) × (length order.old ≡ 256) × Distinct count many order.old }
    ensures { Packed size many store.new × (listed size many store.new ≡ picked size many order.old store.old) }
{
    let mut holds = fill_holds(order, many);
    for v in 0..many {
        settle(store, size, count, order, &mut holds, many, v);
    }
    entries::clear_from(store, size, many, count);
}
