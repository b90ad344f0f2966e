// The entries in a store: where they stand; which of their qubits are live; one moved, two exchanged, slots emptied.
#![tactic(auto)]

ghost use Rattle.std.specs.Prelude.{◌≡◌, [], ◌∷◌, ◌+◌, ◌*◌, ◌<◌, ◌≤◌, length, take, get_or, set};
ghost use Rattle.model.specs.Entries.{rows_len, entry_len, entry_of, stretch, listed, body_in};
ghost use Rattle.model.specs.Keys.{all_live};
ghost use Rattle.model.specs.Sound.{Packed};
ghost use Rattle.entries.specs.Exchanged.{exchanged};
ghost use Rattle.entries.specs.Holds.{Holds};
ghost use Rattle.entries.specs.Within.{Within};

use model::Size;

// ---- where they stand

// The words of an entry.
pub fn entry_len(size: Size) -> usize
    requires { Within size }
    ensures { result ≡ entry_len size }
{
    5 + 3 * size.k + 3 * (2 * size.n)
}

// The words of the entry at place i.
pub fn entry(store: &[u64], size: Size, i: usize) -> &[u64]
    requires within { Within size }
    requires size_in_bounds { i * entry_len size + entry_len size ≤ length store.now }
    ensures { (result.now ≡ stretch size store.now i) × (length result.now ≡ entry_len size) }
{
    words::stretch(store, entry_len(size), i)
}

// The rows of entry i.
pub fn rows_of(store: &[u64], size: Size, i: usize) -> &[u64]
    requires { Within size × (i * entry_len size + entry_len size ≤ length store.now) }
    ensures { (result.now ≡ (body_in size (stretch size store.now i)).rows) × (length result.now ≡ rows_len size) }
{
    let rows = 5 + 3 * size.k;
    &entry(store, size, i)[rows..]
}

// ---- lost and live

// Qubit q is live, by an entry's loss word.
#[tactic(auto, unfolding(model::specs::Lists::every))]
pub fn is_live(loss: u64, q: usize) -> bool
    requires { q < 64 }
    ensures { result ≡ all_live loss (q ∷ []) }
{
    (loss >> q) % 2 == 0
}

// Both qubits are.
#[tactic(auto, unfolding(model::specs::Lists::every))]
pub fn both_live(loss: u64, a: usize, b: usize) -> bool
    requires { (a < 64) × (b < 64) }
    ensures { result ≡ all_live loss (a ∷ b ∷ []) }
{
    is_live(loss, a) && is_live(loss, b)
}

// ---- moved and exchanged

// The entry at place `from` written over the one at place `to`: all its words, so its keys move with it.
pub fn move_entry(store: &mut [u64], size: Size, count: usize, from: usize, to: usize)
    requires { Packed size count store.old × (from < count) × (to ≤ from) }
    ensures { Holds size count (set (listed size count store.old) to (get_or (listed size count store.old) from (entry_of size []))) store.new }
{
    if from == to {
        return;
    }
    let len = entry_len(size);
    let at = from * len;
    store.copy_within(at..at + len, to * len);
}

// Two entries change places.
pub fn swap_entries(store: &mut [u64], size: Size, count: usize, a: usize, b: usize)
    requires { Packed size count store.old × (a < b) × (b < count) }
    ensures { Packed size count store.new × (listed size count store.new ≡ exchanged (entry_of size []) a b (listed size count store.old)) }
{
    let len = entry_len(size);
    let at = a * len;
    let bt = b * len;
    for j in 0..len {
        store.swap(at + j, bt + j);
    }
}

// ---- slots emptied

// The slots from `from` up to `count` are emptied: the store holds the first `from` entries, and no others.
pub fn clear_from(store: &mut [u64], size: Size, from: usize, count: usize)
    requires { Packed size count store.old × (from ≤ count) }
    ensures { Packed size from store.new × (listed size from store.new ≡ take from (listed size count store.old)) }
{
    let len = entry_len(size);
    words::clear(&mut store[from * len..count * len]);
}
