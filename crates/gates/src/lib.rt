// Gates, after Aaronson and Gottesman: document 01, point 8, and document 02, request 5. A gate turns every row of every entry that has not
// lost one of its qubits; keys stay as they are, and are stale.
#![tactic(auto)]

mod call;

ghost use Rattle.std.specs.Prelude.{◌≡◌, ◌||◌, map, ◌*◌, ◌^◌, ◌<◌, ◌≤◌, length};
ghost use Rattle.model.specs.Entries.{entry_len, row_at, row_words, rows_below, map_rows, entry_of, words_of, listed};
ghost use Rattle.model.specs.Keys.{if_set, all_live};
ghost use Rattle.model.specs.Store.{keyed_weighed};
ghost use Rattle.model.specs.Gates.{turned_row, turned, gate_qubits};
ghost use Rattle.model.specs.Numbers.{some_not_below, both_the_same};
ghost use Rattle.model.specs.declared.Gate.TheVariants.{H as h-gate, S as s-gate, Cnot as cnot-gate};
ghost use Rattle.model.specs.Sound.{Packed};
ghost use Rattle.entries.specs.Within.{Within};
ghost use Rattle.gates.specs.Qubits.{GateBelow};

pub use call::{gate, gate_known};
use model::{Gate, Size};

// ---- a row. Bits are taken by masks: `w & power(q)` is 2^q if bit q of w is set, else 0.

pub fn power(q: usize) -> u64
    requires { q < 64 }
    ensures { result ≡ 2 ^ q }
{
    1 << q
}

// m if b is not 0, else 0.
#[tactic(auto, unfolding(model::specs::Keys::if_set))]
fn select(b: u64, m: u64) -> u64
    ensures { result ≡ if_set b m }
{
    if b == 0 { 0 } else { m }
}

// H: r ^= x·z, swap x and z.
pub fn turn_h(row: &mut [u64], q: usize)
    requires { (length row.old ≡ 3) × (q < 64) }
    ensures { row.new ≡ row_words (turned_row (h-gate q) (row_at row.old 0)) }
{
    let at = power(q);
    let x = row[0];
    let z = row[1];
    let apart = (x ^ z) & at;
    row[2] ^= select(x & z & at, 2);
    row[0] = x ^ apart;
    row[1] = z ^ apart;
}

// S: r ^= x·z, z ^= x.
pub fn turn_s(row: &mut [u64], q: usize)
    requires { (length row.old ≡ 3) × (q < 64) }
    ensures { row.new ≡ row_words (turned_row (s-gate q) (row_at row.old 0)) }
{
    let x = row[0] & power(q);
    let z = row[1];
    row[2] ^= select(z & x, 2);
    row[1] = z ^ x;
}

// CNOT a to b: r ^= x_a·z_b·(x_b ^ z_a ^ 1), x_b ^= x_a, z_a ^= z_b. Of z_b and x_b a copy at bit a is made, where x_a and z_a stand.
pub fn turn_cnot(row: &mut [u64], a: usize, b: usize)
    requires { (length row.old ≡ 3) × (a < 64) × (b < 64) }
    ensures { row.new ≡ row_words (turned_row (cnot-gate a b) (row_at row.old 0)) }
{
    let at = power(a);
    let to = power(b);
    let x = row[0];
    let z = row[1];
    let zb = select(z & to, at);
    let xb = select(x & to, at);
    row[2] ^= select(x & zb & (xb ^ z ^ at), 2);
    row[0] = x ^ select(x & at, to);
    row[1] = z ^ zb;
}

// A row of three words, by the gate's rule.
pub fn turn_row(row: &mut [u64], gate: Gate)
    requires { (length row.old ≡ 3) × GateBelow 64 gate }
    ensures { row.new ≡ row_words (turned_row gate (row_at row.old 0)) }
{
    match gate {
        Gate::H(q) => turn_h(row, q),
        Gate::S(q) => turn_s(row, q),
        Gate::Cnot(a, b) => turn_cnot(row, a, b),
    }
}

// Two rows, by the gate's rule.
pub fn turn_pair(pair: &mut [u64], gate: Gate)
    requires { (length pair.old ≡ 6) × GateBelow 64 gate }
    ensures { pair.new ≡ rows_below (λ r. turned_row gate (row_at pair.old r)) 2 }
{
    turn_row(&mut pair[0..3], gate);
    turn_row(&mut pair[3..6], gate);
}

// ---- entries

// Each of 2n rows, two a turn.
pub fn turn_rows(rows: &mut [u64], n: usize, gate: Gate)
    requires { (length rows.old ≡ 3 * (2 * n)) × (n ≤ 64) × GateBelow 64 gate }
    ensures { rows.new ≡ map_rows n (turned_row gate) rows.old }
{
    for i in 0..n {
        let at = i * 6;
        turn_pair(&mut rows[at..at + 6], gate);
    }
}

// None of the gate's qubits is lost.
#[tactic(auto, unfolding(model::specs::Gates::gate_qubits))]
pub fn is_live(gate: Gate, loss: u64) -> bool
    requires { GateBelow 64 gate }
    ensures { result ≡ all_live loss (gate_qubits gate) }
{
    match gate {
        Gate::H(q) | Gate::S(q) => entries::is_live(loss, q),
        Gate::Cnot(a, b) => entries::both_live(loss, a, b),
    }
}

// An entry: its rows, if none of the gate's qubits is lost.
pub fn turn_entry(e: &mut [u64], size: Size, gate: Gate)
    requires { Within size × (length e.old ≡ entry_len size) × GateBelow 64 gate }
    ensures { e.new ≡ words_of (turned keyed_weighed size.n gate (entry_of size e.old)) }
{
    let rows = 5 + 3 * size.k;
    if is_live(gate, e[1]) {
        turn_rows(&mut e[rows..], size.n, gate);
    }
}

// Each listed entry, by rising place.
pub fn turn_entries(store: &mut [u64], size: Size, count: usize, gate: Gate)
    requires { Packed size count store.old × GateBelow 64 gate }
    ensures { Packed size count store.new × (listed size count store.new ≡ map (turned keyed_weighed size.n gate) (listed size count store.old)) }
{
    let len = entries::entry_len(size);
    for place in 0..count {
        let at = place * len;
        turn_entry(&mut store[at..at + len], size, gate);
    }
}

// Number 3 applies: a qubit is not below n, or CNOT's two are the same.
#[tactic(auto, unfolding(model::specs::Numbers::some_not_below, model::specs::Numbers::both_the_same, model::specs::Lists::some_of, model::specs::Gates::gate_qubits))]
pub fn qubits_refused(n: usize, gate: Gate) -> bool
    ensures { result ≡ (some_not_below n (gate_qubits gate) || both_the_same gate) }
{
    match gate {
        Gate::H(q) | Gate::S(q) => n <= q,
        Gate::Cnot(a, b) => n <= a || n <= b || a == b,
    }
}
