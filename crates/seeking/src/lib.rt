// The walk over stored keys for a branch that is not made yet: document 01, point 3. The full keys of the list's entries stand in an
// array, and a table says from which place on a key can stand; the branch is its parent, changed. A list is given by the places of its
// entries in the store: entry i stands at places[i] or, where no place is given, at place i.
#![tactic(auto)]

ghost use Rattle.std.specs.Prelude.{◌≡◌, [], min, ◌+◌, ◌*◌, ◌≤◌, ◌<◌, length, get_or, set};
ghost use Rattle.model.specs.Entries.{entry_len, entry_of, stretch, listed};
ghost use Rattle.model.specs.Keys.{usual_salts};
ghost use Rattle.model.specs.Lists.{all_below};
ghost use Rattle.model.specs.Likeness.{square, near_at, same_rows, alike};
ghost use Rattle.model.specs.Changes.{changed_body};
ghost use Rattle.model.specs.Qubits.{QubitsBelow};
ghost use Rattle.model.specs.Sound.{Packed};
ghost use Rattle.entries.specs.Within.{Within};
ghost use Rattle.changes.specs.Changes.{change_of};
ghost use Rattle.seeking.specs.Noted.{seen_at, SeenIn, gathered, slot_of, Lowered, Kept, Noted};
ghost use Rattle.seeking.specs.Parts.{flips_from};
ghost use Rattle.seeking.specs.Walk.{sought_in, Consistent, Searched, Walking};

use changes::Change;
use model::{BranchMutation, Size};

// ---- what is looked for, and what is found

// The entry at place `origin` of the store, changed so: its key is this.
#[derive(Clone, Copy)]
pub struct Sought {
    pub origin: usize,
    pub mutation: BranchMutation,
    pub change: Change,
    pub key: u64,
}

// What a search finds, and how many full comparisons it made.
#[derive(Clone, Copy)]
pub struct Search {
    pub found: Option<usize>,
    pub compared: usize,
}

// ---- the entries

// Where entry i stands.
pub fn place_of(places: &[usize], i: usize) -> usize
    ensures { result ≡ get_or places.now i i }
{
    places.get(i).copied().unwrap_or(i)
}

// Its words.
pub fn entry_at<'a>(store: &'a [u64], places: &[usize], size: Size, i: usize) -> &'a [u64]
    requires { Within size × (get_or places.now i i * entry_len size + entry_len size ≤ length store.now) }
    ensures { (result.now ≡ stretch size store.now (get_or places.now i i)) × (length result.now ≡ entry_len size) }
{
    entries::entry(store, size, place_of(places, i))
}

// ---- their keys

// A key's place in the table.
pub fn slot(key: u64) -> usize
    ensures { result ≡ slot_of key }
{
    (key % 4096) as usize
}

// The lowest place that an entry with the key can have.
pub fn first_place(firsts: &[u8; 4096], key: u64) -> usize
    requires { length firsts.now ≡ 4096 }
    ensures { result ≡ get_or firsts.now (slot_of key) 0 }
{
    usize::from(firsts[slot(key)])
}

// The key of the entry at place i.
pub fn note(keys: &mut [u64; 256], firsts: &mut [u8; 4096], i: usize, key: u64)
    requires { (i < 256) × (length keys.old ≡ 256) × (length firsts.old ≡ 4096) }
    ensures { (keys.new ≡ set keys.old i key) × Lowered (slot_of key) i firsts.old firsts.new }
{
    keys[i] = key;
    let at = slot(key);
    let place = i as u8;
    if place < firsts[at] {
        firsts[at] = place;
    }
}

// The keys of `count` entries. Of the table only its length matters: an entry's place is noted if it is lower.
pub fn note_all(
    keys: &mut [u64; 256],
    firsts: &mut [u8; 4096],
    store: &[u64],
    places: &[usize],
    size: Size,
    count: usize,
)
    requires { Within size × (count ≤ 256) × SeenIn size count places.now store.now × (length keys.old ≡ 256) × (length firsts.old ≡ 4096) }
    ensures { Noted count (seen_at size places.now store.now) keys.new firsts.new }
{
    for i in 0..count {
        let e = entry_at(store, places, size, i);
        note(keys, firsts, i, e[2] ^ e[3]);
    }
}

// ---- the search

// The bits of the rows from r on that the change flips, where r is 0 or 64.
fn flips_from(c: Change, r: usize) -> u64
    ensures { result ≡ flips_from c r }
{
    if r == 0 { c.low } else { c.high }
}

// The rows of e are the parent's, with the phases that the change leaves: 64 rows are compared at a time, or those that are left. The first
// part that differs ends the comparison.
fn rows_same(e: &[u64], parent: &[u64], size: Size, c: Change) -> bool
    requires { Within size × (length e.now ≡ entry_len size) × (length parent.now ≡ entry_len size) }
    ensures { (m : BranchMutation) → c ≡ change_of usual_salts size.n m (entry_of size parent.now).entry.body.rows → result ≡ same_rows size (entry_of size e.now).entry.body (changed_body size.n m (entry_of size parent.now).entry.body) }
{
    let rows = 2 * size.n;
    let mut r = 0;
    // (`step_by` was tried: at 64 qubits merging took a twentieth more time.)
    while r < rows {
        let many = (rows - r).min(64);
        let flips = flips_from(c, r);
        let at = 5 + 3 * size.k + 3 * r;
        let end = at + 3 * many;
        if !branch::same_part(&e[at..end], &parent[at..end], many, flips) {
            return false;
        }
        r += many;
    }
    true
}

// Each coefficient of e is near the parent's, which has as many.
fn coefficients_near(e: &[u64], parent: &[u64], size: Size, threshold: f64) -> bool
    requires within { Within size × (length e.now ≡ entry_len size) × (length parent.now ≡ entry_len size) }
    requires e_value { ((entry_of size e.now).entry.body.count ≡ (entry_of size parent.now).entry.body.count) × ((entry_of size parent.now).entry.body.count ≤ size.k) }
    ensures { result ≡ all_below (near_at (square threshold) (entry_of size e.now).entry.body (entry_of size parent.now).entry.body) (entry_of size e.now).entry.body.count }
{
    let rows = 5 + 3 * size.k;
    let coefs = &e[5..rows];
    let parent_coefs = &parent[5..rows];
    let count = e[4] as usize;
    let limit = threshold * threshold;
    for j in likeness::near_unread(coefs, parent_coefs, count, limit)..count {
        if !likeness::near_at(coefs, parent_coefs, count, j, limit) {
            return false;
        }
    }
    true
}

// The entry with the words e is alike with the parent, changed: equal loss (word 1), coefficient count (word 4) and rows, and each of its
// coefficients near. The first of these that differs ends the comparison.
fn alike_changed(
    e: &[u64],
    parent: &[u64],
    size: Size,
    threshold: f64,
    m: BranchMutation,
    c: Change,
) -> bool
    requires within { Within size × (length e.now ≡ entry_len size) × (length parent.now ≡ entry_len size) }
    requires parent_bound { ((entry_of size parent.now).entry.body.count ≤ size.k) × QubitsBelow 64 m × (c ≡ change_of usual_salts size.n m (entry_of size parent.now).entry.body.rows) }
    ensures { result ≡ alike size threshold (entry_of size e.now).entry.body (changed_body size.n m (entry_of size parent.now).entry.body) }
{
    e[1] == branch::loss_after(m, parent[1])
        && e[4] == parent[4]
        && rows_same(e, parent, size, c)
        && coefficients_near(e, parent, size, threshold)
}

// The walk from place `first` on, where no entry before that has the key: the first of the `count` entries that has it and is alike
// with what is sought. Only an entry with the key is compared in full.
fn walk_from(
    store: &[u64],
    places: &[usize],
    keys: &[u64; 256],
    size: Size,
    count: usize,
    threshold: f64,
    sought: Sought,
    first: usize,
) -> Search
    requires within { Within size × (count ≤ 256) × SeenIn size count places.now store.now × Kept count (seen_at size places.now store.now) keys.now }
    requires consistent { Consistent size store.now sought × Walking size threshold (sought_in size store.now sought) (gathered count (seen_at size places.now store.now)) 0 first }
    ensures { Searched size threshold (sought_in size store.now sought) (gathered count (seen_at size places.now store.now)) result }
{
    let key = sought.key;
    let m = sought.mutation;
    let c = sought.change;
    let parent = entries::entry(store, size, sought.origin);
    let mut compared = 0;
    let mut i = first;
    // The search is held to this form: a loop over the keys, left by its label, that yields the place.
    let found = 'keys: loop {
        if count <= i {
            break 'keys None;
        }
        let place = i;
        i += 1;
        if keys[place] != key {
            continue 'keys;
        }
        compared += 1;
        let e = entry_at(store, places, size, place);
        if alike_changed(e, parent, size, threshold, m, c) {
            break 'keys Some(place);
        }
    };
    Search { found, compared }
}

// The search among `count` entries for one that is alike with what is sought.
pub fn seek(
    store: &[u64],
    places: &[usize],
    keys: &[u64; 256],
    firsts: &[u8; 4096],
    size: Size,
    count: usize,
    threshold: f64,
    sought: Sought,
) -> Search
    requires within { Within size × (count ≤ 256) × SeenIn size count places.now store.now × Noted count (seen_at size places.now store.now) keys.now firsts.now }
    requires consistent { Consistent size store.now sought }
    ensures { Searched size threshold (sought_in size store.now sought) (gathered count (seen_at size places.now store.now)) result }
{
    let first = first_place(firsts, sought.key);
    if count <= first {
        return Search {
            found: None,
            compared: 0,
        };
    }
    walk_from(store, places, keys, size, count, threshold, sought, first)
}

// ---- the list that the store lists: each entry stands at its own place

// The keys of its entries.
pub fn note_listed(
    keys: &mut [u64; 256],
    firsts: &mut [u8; 4096],
    store: &[u64],
    size: Size,
    count: usize,
)
    requires { Packed size count store.now × (length keys.old ≡ 256) × (length firsts.old ≡ 4096) }
    ensures { Noted count (seen_at size [] store.now) keys.new firsts.new }
{
    note_all(keys, firsts, store, &[], size, count);
}

// The search among them.
pub fn seek_listed(
    store: &[u64],
    keys: &[u64; 256],
    firsts: &[u8; 4096],
    size: Size,
    count: usize,
    threshold: f64,
    sought: Sought,
) -> Search
    requires within { Within size × (count ≤ 256) × (count * entry_len size ≤ length store.now) × Noted count (seen_at size [] store.now) keys.now firsts.now }
    requires consistent { Consistent size store.now sought }
    ensures { Searched size threshold (sought_in size store.now sought) (listed size count store.now) result }
{
    seek(store, &[], keys, firsts, size, count, threshold, sought)
}
