// Branches merged into the entries listed, one after the other: document 01, point 3.
#![tactic(auto)]

ghost use Rattle.std.specs.Prelude.{◌≡◌, [], ◌∷◌, ◌+◌, ◌*◌, ◌≤◌, ◌<◌, length, None};
ghost use Rattle.model.specs.Entries.{entry_len, entry_of, stretch, listed};
ghost use Rattle.model.specs.Keys.{usual_salts, stored_key};
ghost use Rattle.model.specs.Changes.{changed_keyed};
ghost use Rattle.model.specs.Sound.{Packed};
ghost use Rattle.entries.specs.Within.{Within};
ghost use Rattle.seeking.specs.Noted.{seen_at, Noted};
ghost use Rattle.seeking.specs.Walk.{Searched};
ghost use Rattle.merging.specs.Fates.{count_by, SettledBy, MergedBy};
ghost use Rattle.merging.specs.Progress.{mutation_of, branch_in, Changes, appended, Went, Light, after, started, answered};

use arms::Shape;
use changes::Change;
use model::{Answer, Counts, Header, Lost, Size};
use seeking::{Search, Sought};

// What every merge of one call shares: n, K and capacity, and the two floats of the header.
#[derive(Clone, Copy)]
pub struct Limits {
    pub size: Size,
    pub threshold: f64,
    pub cutoff: f64,
}

// A branch that is not made yet: branch `arm` of the entry at place `parent`, and what it changes.
#[derive(Clone, Copy)]
pub struct Branch {
    pub parent: usize,
    pub shape: Shape,
    pub arm: usize,
    pub weight: u64,
    pub change: Change,
}

// What becomes of a branch. NoRoom: it is above the cutoff and every slot is taken, so nothing is changed.
#[derive(Clone, Copy)]
pub enum Fate {
    Merged,
    Stored,
    Dropped,
    NoRoom,
}

// The branch's fate, and how many full comparisons its search made.
#[derive(Clone, Copy)]
pub struct Settled {
    pub fate: Fate,
    pub compared: usize,
}

// How far merging has come: the entries listed, what became of the branches, the weight of those that were dropped, added in order from 0,
// and whether one found no room.
#[derive(Clone, Copy)]
pub struct Progress {
    pub count: usize,
    pub merged: usize,
    pub stored: usize,
    pub dropped: usize,
    pub compared: usize,
    pub lost: f64,
    pub full: bool,
}

// ---- counts

// No branch is merged yet.
pub fn start(count: usize) -> Progress
    ensures { result ≡ started count }
{
    Progress {
        count,
        merged: 0,
        stored: 0,
        dropped: 0,
        compared: 0,
        lost: 0.0,
        full: false,
    }
}

// With one branch more settled, of this weight; one that is stored is listed. (A Progress whose fields are written one by one is slower: it
// goes through memory for every branch.)
pub fn counted(p: Progress, settled: Settled, weight: u64) -> Progress
    requires { Light 65536 p × (settled.compared ≤ 256) × (p.count ≤ 256) }
    ensures { result ≡ after settled.fate p settled.compared weight }
{
    let compared = p.compared + settled.compared;
    match settled.fate {
        Fate::Merged => Progress {
            merged: p.merged + 1,
            compared,
            ..p
        },
        Fate::Stored => Progress {
            count: p.count + 1,
            stored: p.stored + 1,
            compared,
            ..p
        },
        Fate::Dropped => Progress {
            dropped: p.dropped + 1,
            lost: p.lost + words::float_of(weight),
            compared,
            ..p
        },
        Fate::NoRoom => Progress {
            full: true,
            compared,
            ..p
        },
    }
}

// ---- a branch that is not made yet

// It is made in the first free slot, and its key noted.
pub fn append_changed(
    store: &mut [u64],
    keys: &mut [u64; 256],
    firsts: &mut [u8; 4096],
    size: Size,
    count: usize,
    branch: Branch,
)
    requires packed { Packed size count store.old × Noted count (seen_at size [] store.old) keys.old firsts.old × (branch.parent < count) × (count < size.capacity) }
    requires changes { Changes size store.old branch }
    ensures { (store.new ≡ appended size count branch store.old) × Noted (count + 1) (seen_at size [] store.new) keys.new firsts.new }
{
    let i = branch.parent;
    let change = branch.change;
    let own_key = keys[i] ^ change.delta;
    let m = arms::mutation_at(branch.shape, branch.arm);
    branch::make_branch(store, size, i, count, m, branch.weight, change);
    seeking::note(keys, firsts, count, own_key);
}

// Its search among the entries listed. Most end with a look at the table, before its mutation is worked out.
fn seek_arm(
    store: &[u64],
    keys: &[u64; 256],
    firsts: &[u8; 4096],
    size: Size,
    count: usize,
    threshold: f64,
    branch: Branch,
    key: u64,
) -> Search
    requires within { Within size × (count ≤ 256) × (count * entry_len size ≤ length store.now) × Noted count (seen_at size [] store.now) keys.now firsts.now }
    requires size_in_bounds { (branch.parent * entry_len size + entry_len size ≤ length store.now) × ((entry_of size (stretch size store.now branch.parent)).entry.body.count ≤ size.k) × Changes size store.now branch × (key ≡ stored_key (changed_keyed usual_salts size.n (mutation_of branch) (entry_of size (stretch size store.now branch.parent)))) }
    ensures { Searched size threshold (changed_keyed usual_salts size.n (mutation_of branch) (entry_of size (stretch size store.now branch.parent))) (listed size count store.now) result }
{
    if count <= seeking::first_place(firsts, key) {
        return Search {
            found: None,
            compared: 0,
        };
    }
    let sought = Sought {
        origin: branch.parent,
        mutation: arms::mutation_at(branch.shape, branch.arm),
        change: branch.change,
        key,
    };
    seeking::seek_listed(store, keys, firsts, size, count, threshold, sought)
}

// No entry listed is alike: it is appended if its weight is above the cutoff, else dropped.
fn store_or_drop(
    store: &mut [u64],
    keys: &mut [u64; 256],
    firsts: &mut [u8; 4096],
    limits: Limits,
    count: usize,
    branch: Branch,
) -> Fate
    requires { Packed limits.size count store.old × Noted count (seen_at limits.size [] store.old) keys.old firsts.old × (branch.parent < count) × Changes limits.size store.old branch }
    ensures { SettledBy limits.size count limits.cutoff (branch_in limits.size store.old branch) None store.old store.new result × Noted (count_by result count) (seen_at limits.size [] store.new) keys.new firsts.new }
{
    let size = limits.size;
    if words::float_of(branch.weight) > limits.cutoff {
        if count < size.capacity {
            append_changed(store, keys, firsts, size, count, branch);
            return Fate::Stored;
        }
        return Fate::NoRoom;
    }
    Fate::Dropped
}

// It is merged into the `count` entries listed, whose keys are noted. Where one is alike, its weight (word 0) gains the branch's, cutoff
// or not.
pub fn merge_one_changed(
    store: &mut [u64],
    keys: &mut [u64; 256],
    firsts: &mut [u8; 4096],
    limits: Limits,
    count: usize,
    branch: Branch,
) -> Settled
    requires packed { Packed limits.size count store.old × Noted count (seen_at limits.size [] store.old) keys.old firsts.old × (branch.parent < count) × ((entry_of limits.size (stretch limits.size store.old branch.parent)).entry.body.count ≤ limits.size.k) }
    requires changes { Changes limits.size store.old branch }
    ensures { MergedBy limits.size count limits.threshold limits.cutoff (branch_in limits.size store.old branch) store.old store.new result × Noted (count_by result.fate count) (seen_at limits.size [] store.new) keys.new firsts.new }
{
    let size = limits.size;
    let key = keys[branch.parent] ^ branch.change.delta;
    let search = seek_arm(
        store,
        keys,
        firsts,
        size,
        count,
        limits.threshold,
        branch,
        key,
    );
    let compared = search.compared;
    let Some(place) = search.found else {
        let fate = store_or_drop(store, keys, firsts, limits, count, branch);
        return Settled { fate, compared };
    };
    let weight = &mut store[place * entries::entry_len(size)];
    *weight = words::bits_of(words::float_of(*weight) + words::float_of(branch.weight));
    Settled {
        fate: Fate::Merged,
        compared,
    }
}

// One branch more of those that are not made yet.
pub fn merge_changed(
    store: &mut [u64],
    keys: &mut [u64; 256],
    firsts: &mut [u8; 4096],
    limits: Limits,
    branch: Branch,
    p: Progress,
) -> Progress
    requires packed { Packed limits.size p.count store.old × Noted p.count (seen_at limits.size [] store.old) keys.old firsts.old × (branch.parent < p.count) × ((entry_of limits.size (stretch limits.size store.old branch.parent)).entry.body.count ≤ limits.size.k) }
    requires changes { Changes limits.size store.old branch × Light 65536 p }
    ensures { Went limits.size limits.threshold limits.cutoff (branch_in limits.size store.old branch ∷ []) p store.old result store.new × Noted result.count (seen_at limits.size [] store.new) keys.new firsts.new }
{
    if p.full {
        return p;
    }
    let settled = merge_one_changed(store, keys, firsts, limits, p.count, branch);
    counted(p, settled, branch.weight)
}

// ---- the answer

// What a call answers that was not refused: it lists `count` entries, its branches became what p counts, and truncating took so much.
pub fn answer(h: Header, count: usize, p: Progress, truncated: f64) -> Answer
    ensures { result ≡ answered h count p truncated }
{
    let counts = Counts {
        merged: p.merged,
        stored: p.stored,
        dropped: p.dropped,
        compared: p.compared,
    };
    let lost = Lost {
        dropped: p.lost,
        truncated,
    };
    answers::answer(0, answers::header_with(h, count, false), counts, lost, 0, 0)
}
