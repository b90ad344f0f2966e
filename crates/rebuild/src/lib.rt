// Keys rebuilt; weights and keys saved, and put back. What a function does, it does to the list of entries.
#![tactic(auto)]

ghost use Rattle.std.specs.Prelude.{◌≡◌, [], ◌∷◌, map, ℕ, ◌+◌, ◌*◌, ◌<◌, ◌≤◌, length, take};
ghost use Rattle.model.specs.Entries.{entry_len, listed};
ghost use Rattle.model.specs.Keys.{usual_salts, word_key_of, phase_loss_key_of};
ghost use Rattle.model.specs.Store.{keyed_weighed, weight_of};
ghost use Rattle.model.specs.Calls.{rebuilt_entries};
ghost use Rattle.model.specs.Sound.{Packed, Sized};
ghost use Rattle.entries.specs.Within.{Within};
ghost use Rattle.entries.specs.Became.{Became};
ghost use Rattle.keys.specs.Tables.{PhaseMasks};
ghost use Rattle.rebuild.specs.Saved.{word_at, with_word, word_key_at, phase_loss_key_at, each_by, with_weights, with_key_words};

use model::Size;

// ---- keys rebuilt

// The word key of entry i, worked out from its rows.
#[tactic(auto, unfolding(model::specs::Keys::word_key_of))]
pub fn word_key_at(store: &[u64], size: Size, i: usize) -> u64
    requires { Within size × (i * entry_len size + entry_len size ≤ length store.now) }
    ensures { result ≡ word_key_at size store.now i }
{
    keys::word_key(entries::rows_of(store, size, i), size.n)
}

// The word keys of entries i to i + 3.
#[tactic(auto, unfolding(model::specs::Keys::word_key_of))]
pub fn four_at(store: &[u64], size: Size, i: usize) -> [u64; 4]
    requires { Within size × ((i + 4) * entry_len size ≤ length store.now) }
    ensures { result ≡ word_key_at size store.now i ∷ word_key_at size store.now (i + 1) ∷ word_key_at size store.now (i + 2) ∷ word_key_at size store.now (i + 3) ∷ [] }
{
    let a = entries::rows_of(store, size, i);
    let b = entries::rows_of(store, size, i + 1);
    let c = entries::rows_of(store, size, i + 2);
    let d = entries::rows_of(store, size, i + 3);
    keys::four_word_keys([a, b, c, d], size.n)
}

// Every entry's word key: four at once, while four are left.
pub fn word_keys(store: &[u64], size: Size, count: usize) -> [u64; 256]
    requires { Packed size count store.now }
    ensures { (length result ≡ 256) × (take count result ≡ map (λ e. word_key_of size.n e.entry.body) (listed size count store.now)) }
{
    let mut found = [0u64; 256];
    let mut i = 0;
    // A `while`: what is left after the fours begins where they end.
    while i + 4 <= count {
        let [a, b, c, d] = four_at(store, size, i);
        found[i] = a;
        found[i + 1] = b;
        found[i + 2] = c;
        found[i + 3] = d;
        i += 4;
    }
    for j in i..count {
        found[j] = word_key_at(store, size, j);
    }
    found
}

// The phase-loss key of entry i, worked out from its rows and its loss word, under the usual salts.
pub fn phase_loss_key_at(table: &[u64; 512], store: &[u64], size: Size, i: usize) -> u64
    requires { PhaseMasks usual_salts (2 * size.n) table.now × Within size × (i * entry_len size + entry_len size ≤ length store.now) }
    ensures { result ≡ phase_loss_key_at size store.now i }
{
    let len = entries::entry_len(size);
    let loss = store[i * len + 1];
    let rows = entries::rows_of(store, size, i);
    keys::phase_loss_key_from(keys::usual_salts(), table, size.n, rows, loss)
}

// Every entry's phase-loss key.
pub fn phase_loss_keys(store: &[u64], size: Size, count: usize) -> [u64; 256]
    requires { Packed size count store.now }
    ensures { (length result ≡ 256) × (take count result ≡ map (λ e. phase_loss_key_of usual_salts size.n e.entry.body) (listed size count store.now)) }
{
    let table = keys::phase_masks(keys::usual_salts(), 2 * size.n);
    let mut found = [0u64; 256];
    for i in 0..count {
        found[i] = phase_loss_key_at(&table, store, size, i);
    }
    found
}

// Every entry's keys.
pub fn rebuild_keys(store: &mut [u64], size: Size, count: usize)
    requires { Packed size count store.old }
    ensures { Packed size count store.new × (listed size count store.new ≡ rebuilt_entries size.n (listed size count store.old)) }
{
    let words = word_keys(store, size, count);
    let phases = phase_loss_keys(store, size, count);
    restore_keys(store, size, count, &words, &phases);
}

// ---- words saved

// Word j of every entry: weight 0, loss word 1, word key 2, phase-loss key 3.
pub fn save_word(saved: &mut [u64; 256], store: &[u64], size: Size, count: usize, j: usize)
    requires { Packed size count store.now × (j < 4) × (length saved.old ≡ 256) }
    ensures { (length saved.new ≡ 256) × (take count saved.new ≡ map (word_at j) (listed size count store.now)) }
{
    let len = entries::entry_len(size);
    for i in 0..count {
        saved[i] = store[i * len + j];
    }
}

// Every weight.
#[tactic(auto, unfolding(crate::specs::Saved::word_at, model::specs::Entries::words_of))]
pub fn save_weights(saved: &mut [u64; 256], store: &[u64], size: Size, count: usize)
    requires { Packed size count store.now × (length saved.old ≡ 256) }
    ensures { (length saved.new ≡ 256) × (take count saved.new ≡ map (weight_of keyed_weighed) (listed size count store.now)) }
{
    save_word(saved, store, size, count, 0);
}

// Every entry's two keys.
#[tactic(auto, unfolding(crate::specs::Saved::word_at, model::specs::Entries::words_of))]
pub fn save_keys(
    words: &mut [u64; 256],
    phases: &mut [u64; 256],
    store: &[u64],
    size: Size,
    count: usize,
)
    requires { Packed size count store.now × (length words.old ≡ 256) × (length phases.old ≡ 256) }
    ensures { (length words.new ≡ 256) × (length phases.new ≡ 256) × (take count words.new ≡ map (λ e. e.word_key) (listed size count store.now)) × (take count phases.new ≡ map (λ e. e.phase_loss_key) (listed size count store.now)) }
{
    save_word(words, store, size, count, 2);
    save_word(phases, store, size, count, 3);
}

// ---- words put back, into the first `count` entries of a store that may hold more

// One word of an entry.
pub fn put_word(e: &mut [u64], size: Size, j: usize, v: u64)
    requires { (length e.old ≡ entry_len size) × (j < 4) }
    ensures { Became size (with_word j v) e.old e.new }
{
    e[j] = v;
}

// Word j of each.
pub fn restore_word(store: &mut [u64], size: Size, count: usize, j: usize, saved: &[u64; 256])
    requires { Sized size (length store.old) × (count ≤ size.capacity) × (j < 4) × (length saved.now ≡ 256) }
    ensures { (total : ℕ) → count ≤ total → Packed size total store.old → Packed size total store.new × (listed size total store.new ≡ each_by (with_word j) (take count saved.now) (listed size total store.old)) }
{
    let len = entries::entry_len(size);
    for i in 0..count {
        let at = i * len;
        put_word(&mut store[at..at + len], size, j, saved[i]);
    }
}

// The weight of each.
#[tactic(auto, unfolding(crate::specs::Saved::with_word, crate::specs::Saved::with_weights))]
pub fn restore_weights(store: &mut [u64], size: Size, count: usize, saved: &[u64; 256])
    requires { Sized size (length store.old) × (count ≤ size.capacity) × (length saved.now ≡ 256) }
    ensures { (total : ℕ) → count ≤ total → Packed size total store.old → Packed size total store.new × (listed size total store.new ≡ with_weights (take count saved.now) (listed size total store.old)) }
{
    restore_word(store, size, count, 0, saved);
}

// The two keys of each.
pub fn restore_keys(
    store: &mut [u64],
    size: Size,
    count: usize,
    words: &[u64; 256],
    phases: &[u64; 256],
)
    requires { Sized size (length store.old) × (count ≤ size.capacity) × (length words.now ≡ 256) × (length phases.now ≡ 256) }
    ensures { (total : ℕ) → count ≤ total → Packed size total store.old → Packed size total store.new × (listed size total store.new ≡ with_key_words (take count words.now) (take count phases.now) (listed size total store.old)) }
{
    restore_word(store, size, count, 2, words);
    restore_word(store, size, count, 3, phases);
}
