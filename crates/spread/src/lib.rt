// Entries scaled, and their branches merged: document 01, point 5 (noise.rs).
#![tactic(auto)]

ghost use Rattle.std.specs.Prelude.{◌≡◌, true, [], map, ◌+◌, ◌*◌, ◌<◌, ◌≤◌, length, take};
ghost use Rattle.model.specs.Lists.{all_below};
ghost use Rattle.model.specs.Entries.{entry_len, entry_of, stretch, listed};
ghost use Rattle.model.specs.Keys.{usual_salts};
ghost use Rattle.model.specs.Store.{keyed_weighed, weight_of};
ghost use Rattle.model.specs.Sound.{Packed, FewCoefficients};
ghost use Rattle.entries.specs.Within.{Within};
ghost use Rattle.entries.specs.Became.{Became};
ghost use Rattle.arms.specs.Arms.{ShapeBelow};
ghost use Rattle.changes.specs.Changes.{SignMasks};
ghost use Rattle.changes.specs.Tables.{walked_rows};
ghost use Rattle.seeking.specs.Noted.{seen_at, Noted};
ghost use Rattle.spread.specs.Spread.{Spread};
ghost use Rattle.merging.specs.Progress.{Went, Light, started};
ghost use Rattle.branch.specs.Same.{same_pauli};
ghost use Rattle.spread.specs.Branches.{rows_at, TablesOf, TablesUpTo, parent_at, branches_below, live_at, scaled_by, branches_up_to};

use arms::{Arms, Shape};
use merging::{Branch, Limits, Progress};
use model::Size;

// What the branches of an entry change, as two tables (crates/changes): for its first Pauli, and for its second or its only one; and the
// place of an entry that they are made from.
#[derive(Clone, Copy)]
pub struct Tables {
    pub place: usize,
    pub first: [u64; 12],
    pub second: [u64; 12],
}

// An entry whose branches are merged: its place, and the weight it had before it was scaled.
#[derive(Clone, Copy)]
pub struct Parent {
    pub place: usize,
    pub weight: u64,
}

// ---- tables. Entries that came from one by Paulis and losses have the same x and z, and so the same tables; a gate parts those that it turns
// from those that it passes over.

// Those of the entry at this place.
fn tables_of(store: &[u64], masks: &[u64; 128], size: Size, shape: Shape, place: usize) -> Tables
    requires { Within size × (place * entry_len size + entry_len size ≤ length store.now) × ShapeBelow 64 shape × SignMasks usual_salts (walked_rows shape size.n) masks.now }
    ensures { (result.place ≡ place) × TablesOf size shape (entry_of size (stretch size store.now place)) result }
{
    let rows = entries::rows_of(store, size, place);
    let first = changes::first_table(masks, size.n, rows, shape);
    let second = changes::second_table(masks, size.n, rows, shape);
    Tables {
        place,
        first,
        second,
    }
}

// The entries at the two places have the same x and z, as far as tables are made from them. Stored word keys (word 2) that differ tell most
// that have not; a word key that is wrong costs time only.
fn same_at(store: &[u64], size: Size, shape: Shape, i: usize, j: usize) -> bool
    requires { Within size × (i * entry_len size + entry_len size ≤ length store.now) × (j * entry_len size + entry_len size ≤ length store.now) }
    ensures { result ≡ true → all_below (same_pauli (rows_at size store.now i) (rows_at size store.now j)) (walked_rows shape size.n) ≡ true }
{
    let walked = changes::walked_rows(shape, size.n);
    if walked == 0 {
        return true;
    }
    let len = entries::entry_len(size);
    if store[i * len + 2] != store[j * len + 2] {
        return false;
    }
    let a = entries::rows_of(store, size, i);
    let b = entries::rows_of(store, size, j);
    branch::same_paulis(a, b, walked)
}

// Those of the entry at place i, with some at hand that may be the same.
fn tables_at(
    store: &[u64],
    masks: &[u64; 128],
    size: Size,
    shape: Shape,
    tables: Tables,
    i: usize,
) -> Tables
    requires { Within size × (i * entry_len size + entry_len size ≤ length store.now) × ShapeBelow 64 shape × SignMasks usual_salts (walked_rows shape size.n) masks.now × TablesUpTo size shape i store.now tables }
    ensures { TablesUpTo size shape i store.now result × TablesOf size shape (entry_of size (stretch size store.now i)) result }
{
    if same_at(store, size, shape, tables.place, i) {
        tables
    } else {
        tables_of(store, masks, size, shape, i)
    }
}

// ---- parents

// The branches of the parent, in order, merged. What a branch changes is told by the parent's tables.
fn merge_arms(
    store: &mut [u64],
    keys: &mut [u64; 256],
    firsts: &mut [u8; 4096],
    limits: Limits,
    arms: Arms,
    tables: Tables,
    parent: Parent,
    p: Progress,
) -> Progress
    requires packed { Packed limits.size p.count store.old × Noted p.count (seen_at limits.size [] store.old) keys.old firsts.old × (parent.place < p.count) × ((entry_of limits.size (stretch limits.size store.old parent.place)).entry.body.count ≤ limits.size.k) }
    requires tables_of { TablesOf limits.size arms.shape (entry_of limits.size (stretch limits.size store.old parent.place)) tables × ShapeBelow 64 arms.shape × (arms.count ≤ 15) × Light (15 * parent.place) p }
    ensures { Went limits.size limits.threshold limits.cutoff (branches_below limits.size limits.threshold arms arms.count (parent_at limits.size store.old parent.place parent.weight)) p store.old result store.new × Noted result.count (seen_at limits.size [] store.new) keys.new firsts.new }
{
    let weight = words::float_of(parent.weight);
    let mut q = p;
    for a in 0..arms.count {
        let branch = Branch {
            parent: parent.place,
            shape: arms.shape,
            arm: a,
            weight: words::bits_of(weight * arms.rates[a]),
            change: changes::change_at(&tables.first, &tables.second, a),
        };
        q = merging::merge_changed(store, keys, firsts, limits, branch, q);
    }
    q
}

// Whether none of the qubits is lost.
pub fn is_live(shape: Shape, loss: u64) -> bool
    requires { ShapeBelow 64 shape }
    ensures { result ≡ live_at shape loss }
{
    match shape {
        Shape::One(q) | Shape::Lose(q) => entries::is_live(loss, q),
        Shape::Two(p, q) => entries::both_live(loss, p, q),
    }
}

// The weight of a live entry times `keep`.
pub fn scale_entry(e: &mut [u64], size: Size, shape: Shape, keep: f64)
    requires { (length e.old ≡ entry_len size) × ShapeBelow 64 shape }
    ensures { Became size (scaled_by shape keep) e.old e.new }
{
    if is_live(shape, e[1]) {
        e[0] = words::bits_of(words::float_of(e[0]) * keep);
    }
}

// Every live entry's.
pub fn scale_parents(store: &mut [u64], size: Size, count: usize, shape: Shape, keep: f64)
    requires { Packed size count store.old × ShapeBelow 64 shape }
    ensures { Packed size count store.new × (listed size count store.new ≡ map (scaled_by shape keep) (listed size count store.old)) }
{
    let len = entries::entry_len(size);
    for i in 0..count {
        let at = i * len;
        let end = at + len;
        scale_entry(&mut store[at..end], size, shape, keep);
    }
}

// The branches of every live parent, in list order, merged. The parents are scaled; `saved` has the weights they had. At hand are the tables of
// the last parent, and those of the last one that had others.
pub fn merge_parents(
    store: &mut [u64],
    keys: &mut [u64; 256],
    firsts: &mut [u8; 4096],
    limits: Limits,
    arms: Arms,
    count: usize,
    saved: &[u64; 256],
) -> Progress
    requires packed { Packed limits.size count store.old × FewCoefficients limits.size count store.old × Noted count (seen_at limits.size [] store.old) keys.old firsts.old }
    requires shape_below { ShapeBelow 64 arms.shape × (arms.count ≤ 15) × (length saved.now ≡ 256) }
    ensures { Went limits.size limits.threshold limits.cutoff (branches_up_to limits.size limits.threshold arms saved.now store.old count) (started count) store.old result store.new }
{
    let size = limits.size;
    let shape = arms.shape;
    let len = entries::entry_len(size);
    let masks = changes::sign_masks(keys::usual_salts(), changes::walked_rows(shape, size.n));
    let mut last = tables_of(store, &masks, size, shape, 0);
    let mut before = last;
    let mut q = merging::start(count);
    for i in 0..count {
        if is_live(shape, store[i * len + 1]) {
            if !same_at(store, size, shape, last.place, i) {
                let found = tables_at(store, &masks, size, shape, before, i);
                before = last;
                last = found;
            }
            let weight = saved[i];
            let parent = Parent { place: i, weight };
            q = merge_arms(store, keys, firsts, limits, arms, last, parent, q);
        }
    }
    q
}

// The entries scaled, and their branches merged. `saved` takes the weights they had.
pub fn spread(
    store: &mut [u64],
    saved: &mut [u64; 256],
    limits: Limits,
    arms: Arms,
    count: usize,
) -> Progress
    requires packed { Packed limits.size count store.old × FewCoefficients limits.size count store.old }
    requires shape_below { ShapeBelow 64 arms.shape × (arms.count ≤ 15) × (length saved.old ≡ 256) }
    ensures { (length saved.new ≡ 256) × (take count saved.new ≡ map (weight_of keyed_weighed) (listed limits.size count store.old)) × Spread limits.size limits.threshold limits.cutoff arms (listed limits.size count store.old) result store.new }
{
    let size = limits.size;
    let shape = arms.shape;
    rebuild::save_weights(saved, store, size, count);
    let keep = 1.0 - arms::total_rate(arms);
    scale_parents(store, size, count, shape, keep);
    let mut keys = [0u64; 256];
    let mut firsts = [255u8; 4096];
    seeking::note_listed(&mut keys, &mut firsts, store, size, count);
    merge_parents(store, &mut keys, &mut firsts, limits, arms, count, saved)
}
