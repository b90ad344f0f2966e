// Lost entries leave, become live and are merged: document 01, point 6. They stay where they stand while they are merged: the list is given
// by the places of its entries, and the store is put into its order at the end.
#![tactic(auto)]

mod call;

ghost use Rattle.std.specs.Prelude.{◌≡◌, cond, map, ℕ, ◌+◌, ◌*◌, ◌-◌, ◌<◌, ◌≤◌, length, get_or, set};
ghost use Rattle.model.specs.Entries.{entry_len, entry_of, stretch, listed};
ghost use Rattle.model.specs.Keys.{stored_key};
ghost use Rattle.model.specs.Store.{keyed_weighed, gained};
ghost use Rattle.model.specs.Calls as Calls;
ghost use Rattle.model.specs.Sound.{Packed, FewCoefficients};
ghost use Rattle.entries.specs.Within.{Within};
ghost use Rattle.places.specs.Leaving.{leaving};
ghost use Rattle.places.specs.Places.{picked, Distinct, Apart};
ghost use Rattle.seeking.specs.Noted.{seen_at, Noted};
ghost use Rattle.reset.specs.Return.{live, live_at, sought_live, lost_of, Returned, Brought, Merged};
ghost use Rattle.reset.specs.Tests.{MayReset};

pub use call::{reset_loss_channel, reset_loss_channel_known};
use merging::{Fate, Limits, Progress, Settled};
use model::{Answer, BranchMutation, Header, Size};
use seeking::Sought;

// An entry that left: its place, and the qubit that it is lost at.
#[derive(Clone, Copy)]
pub struct LostEntry {
    pub place: usize,
    pub qubit: usize,
}

// ---- one of them comes back

// The full key of the entry at place i, once it is live again at q.
pub fn live_key(store: &[u64], size: Size, i: usize, q: usize) -> u64
    requires { Within size × (i * entry_len size + entry_len size ≤ length store.now) }
    ensures { result ≡ stored_key (live_at size q store.now i) }
{
    let e = entries::entry(store, size, i);
    let change = changes::loss_change(q);
    e[2] ^ e[3] ^ change.delta
}

// What is sought: the entry, live.
fn sought_live(store: &[u64], size: Size, lost: LostEntry) -> Sought
    requires { Within size × (lost.place * entry_len size + entry_len size ≤ length store.now) }
    ensures { result ≡ sought_live size store.now lost }
{
    let q = lost.qubit;
    Sought {
        origin: lost.place,
        mutation: BranchMutation::Loss(q),
        change: changes::loss_change(q),
        key: live_key(store, size, lost.place, q),
    }
}

// The entry at place i becomes live.
pub fn revive(store: &mut [u64], size: Size, total: usize, i: usize, q: usize)
    requires { Packed size total store.old × (i < total) × (q < 64) }
    ensures { Packed size total store.new × (listed size total store.new ≡ set (listed size total store.old) i (live_at size q store.old i)) }
{
    let len = entries::entry_len(size);
    let at = i * len;
    let end = at + len;
    let change = changes::loss_change(q);
    branch::toggle_entry(&mut store[at..end], size, q, change.delta);
}

// The weight of the entry at place `to` gains that of the entry at place `from`.
pub fn gain(store: &mut [u64], size: Size, total: usize, to: usize, from: usize)
    requires { Packed size total store.old × (to < total) × (from < total) }
    ensures { Packed size total store.new × (listed size total store.new ≡ set (listed size total store.old) to (gained keyed_weighed (entry_of size (stretch size store.old from)) (entry_of size (stretch size store.old to)))) }
{
    let len = entries::entry_len(size);
    let more = words::float_of(store[from * len]);
    let weight = &mut store[to * len];
    *weight = words::bits_of(words::float_of(*weight) + more);
}

// The entry is merged into the list of the `count` entries at the places of `order`. Where one is alike, its weight gains the entry's, cutoff
// or not; otherwise the entry is appended, live, if its weight is above the cutoff, else dropped.
pub fn bring_back(
    store: &mut [u64],
    order: &mut [usize; 256],
    keys: &mut [u64; 256],
    firsts: &mut [u8; 4096],
    limits: Limits,
    total: usize,
    count: usize,
    lost: LostEntry,
) -> Settled
    requires packed { Packed limits.size total store.old × (length order.old ≡ 256) × Distinct total count order.old × Noted count (seen_at limits.size order.old store.old) keys.old firsts.old × (count < total) × (lost.place < total) × ((u : ℕ) → u < count → get_or order.old u 0 ≡ lost.place → ⊥) }
    requires place_bound { ((entry_of limits.size (stretch limits.size store.old lost.place)).entry.body.count ≤ limits.size.k) × (lost.qubit < 64) }
    ensures { Returned limits.size total count limits.threshold limits.cutoff lost.place (live_at limits.size lost.qubit store.old lost.place) order.old store.old order.new store.new keys.new firsts.new result }
{
    let size = limits.size;
    let i = lost.place;
    let sought = sought_live(store, size, lost);
    let search = seeking::seek(
        store,
        order,
        keys,
        firsts,
        size,
        count,
        limits.threshold,
        sought,
    );
    let compared = search.compared;
    let Some(v) = search.found else {
        if words::float_of(store[i * entries::entry_len(size)]) > limits.cutoff {
            revive(store, size, total, i, lost.qubit);
            order[count] = i;
            seeking::note(keys, firsts, count, sought.key);
            return Settled {
                fate: Fate::Stored,
                compared,
            };
        }
        return Settled {
            fate: Fate::Dropped,
            compared,
        };
    };
    let to = order[v];
    gain(store, size, total, to, i);
    Settled {
        fate: Fate::Merged,
        compared,
    }
}

// ---- all of them

// The entries at the places of `left` come back, in that order. Those that stayed, `stay` of them, stand at the places of `order`.
pub fn bring_all_back(
    store: &mut [u64],
    order: &mut [usize; 256],
    left: &[usize; 256],
    limits: Limits,
    total: usize,
    stay: usize,
    q: usize,
) -> Progress
    requires packed { Packed limits.size total store.old × (stay ≤ total) × (length order.old ≡ 256) × (length left.now ≡ 256) × Distinct total stay order.old × Distinct total (total - stay) left.now × Apart stay 0 (total - stay) order.old left.now }
    requires few_coefficients { FewCoefficients limits.size total store.old × (q < 64) }
    ensures { Brought limits.size total limits.threshold limits.cutoff (picked limits.size stay order.old store.old) (map (live limits.size q) (picked limits.size (total - stay) left.now store.old)) result order.new store.new }
{
    let size = limits.size;
    let mut keys = [0u64; 256];
    let mut firsts = [255u8; 4096];
    seeking::note_all(&mut keys, &mut firsts, store, order, size, stay);
    let mut p = merging::start(stay);
    let out = total - stay;
    for j in 0..out {
        let place = left[j];
        let lost = LostEntry { place, qubit: q };
        let weight = store[place * entries::entry_len(size)];
        let settled = bring_back(
            store,
            order,
            &mut keys,
            &mut firsts,
            limits,
            total,
            p.count,
            lost,
        );
        p = merging::counted(p, settled, weight);
    }
    p
}

// The entries lost at q leave, and are merged in that order. The store lists what comes of it.
pub fn merge_lost(store: &mut [u64], limits: Limits, count: usize, q: usize) -> Progress
    requires { Packed limits.size count store.old × FewCoefficients limits.size count store.old × (q < 64) }
    ensures { Merged limits.size limits.threshold limits.cutoff (leaving q (listed limits.size count store.old)).stay (lost_of limits.size q (listed limits.size count store.old)) result store.new }
{
    let size = limits.size;
    let mut order = places::own_places(count);
    let mut left = [0usize; 256];
    let stay = places::leave(store, size, count, q, &mut order, &mut left);
    let p = bring_all_back(store, &mut order, &left, limits, count, stay, q);
    places::arrange(store, size, count, &mut order, p.count);
    p
}

// ---- the reset

// A dirty sum's keys are rebuilt.
pub fn ready(store: &mut [u64], size: Size, count: usize, dirty: bool)
    requires { Packed size count store.old }
    ensures { Packed size count store.new × (listed size count store.new ≡ cond dirty (Calls.rebuilt_entries size.n (listed size count store.old)) (listed size count store.old)) }
{
    if dirty {
        rebuild::rebuild_keys(store, size, count);
    }
}

// The reset itself, on a sum that its tests let through.
pub fn run(h: Header, store: &mut [u64], q: usize) -> Answer
    requires { MayReset (Calls.held h store.old) q }
    ensures { Calls.gave result store.new ≡ Calls.acted (Calls.reset q) (Calls.held h store.old) }
{
    let size = h.size;
    let count = h.count;
    let limits = Limits {
        size,
        threshold: h.threshold,
        cutoff: h.cutoff,
    };
    ready(store, size, count, h.dirty);
    let p = merge_lost(store, limits, count, q);
    merging::answer(h, p.count, p, 0.0)
}
