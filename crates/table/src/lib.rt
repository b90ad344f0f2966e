// The sampling table and the pick: document 01, point 7. The table's order is that of pairs of words: list place, weight bits.
#![tactic(auto)]

ghost use Rattle.std.specs.Prelude.{◌≡◌, true, map, ◌+◌, ◌*◌, ◌≤◌, length, drop};
ghost use Rattle.model.specs.Floats.{float, zero_bits};
ghost use Rattle.model.specs.Entries.{strip, listed};
ghost use Rattle.model.specs.Numbers.{weight_sound, draw_sound};
ghost use Rattle.model.specs.Table as Table;
ghost use Rattle.model.specs.Calls as Calls;
ghost use Rattle.model.specs.Known.{Known};
ghost use Rattle.model.specs.Sound.{Sound};
ghost use Rattle.table.specs.Pairs.{pair, pairs, heavier, Falls};

use model::{Answer, Header, Size};

// ---- the order

// How many of m pairs in falling order are above a weight. They come first, so halving finds their end.
fn count_above(part: &[u64], m: usize, weight: u64) -> usize
    requires { (2 * m ≤ length part.now) × (m ≤ 256) × (weight_sound weight ≡ true) × Falls (pairs m part.now) }
    ensures { result ≡ heavier (float weight) (pairs m part.now) }
{
    let w = words::float_of(weight);
    let mut low = 0;
    let mut high = m;
    while low < high {
        let mid = (low + high) / 2;
        if w < words::float_of(part[2 * mid + 1]) {
            low = mid + 1;
        } else {
            high = mid;
        }
    }
    low
}

// A pair joins m others, which stand in falling order behind a free one: those above it move down by one, and it comes behind them.
fn insert(part: &mut [u64], m: usize, place: u64, weight: u64)
    requires { (length part.old ≡ 2 * m + 2) × (m ≤ 256) × (weight_sound weight ≡ true) × Falls (pairs m (drop 2 part.old)) }
    ensures { pairs (m + 1) part.new ≡ Table.insert (pair place weight) (pairs m (drop 2 part.old)) }
{
    let end = 2 * count_above(&part[2..], m, weight);
    part.copy_within(2..end + 2, 0);
    part[end] = place;
    part[end + 1] = weight;
}

// The listed entries by falling weight, from the last one on: of equal weights the earlier comes first.
fn put_order(out: &mut [u64], store: &[u64], size: Size, count: usize)
    requires { Sound size count store.now × (length out.old ≡ 2 * count) }
    ensures { pairs count out.new ≡ Table.table_order (map strip (listed size count store.now)) }
{
    let len = entries::entry_len(size);
    for i in (0..count).rev() {
        let at = 2 * i;
        insert(&mut out[at..], count - 1 - i, i as u64, store[i * len]);
    }
}

// ---- the table

// Each weight becomes the total so far, from 0.
fn put_totals(out: &mut [u64], m: usize)
    requires { (length out.old ≡ 2 * m) × (m ≤ 256) }
    ensures { out.new ≡ Table.table_from (float zero_bits) (pairs m out.old) }
{
    let mut total = 0.0;
    for i in 0..m {
        let at = 2 * i + 1;
        total = total + words::float_of(out[at]);
        out[at] = words::bits_of(total);
    }
}

// The table of a sound sum.
fn put_table(out: &mut [u64], store: &[u64], size: Size, count: usize)
    requires { Sound size count store.now × (length out.old ≡ 2 * count) }
    ensures { out.new ≡ Table.table_words (map strip (listed size count store.now)) }
{
    put_order(out, store, size, count);
    put_totals(out, count);
}

// THE CALL: the sampling table at the start of `out`, two words an entry: list place, total bits; what stands past it unchanged. 1, 2, 5, 8, 9.
pub fn table(h: Header, store: &[u64], out: &mut [u64]) -> Answer
    ensures answer { result ≡ (Calls.step (Calls.table (length out.old)) (Calls.held h store.now)).answer }
    ensures output { out.new ≡ Calls.overlaid (Calls.step (Calls.table (length out.old)) (Calls.held h store.now)).output out.old }
{
    table_known(h, store, out, false)
}

// .. told whether all but the weights is known to be sound.
pub fn table_known(h: Header, store: &[u64], out: &mut [u64], known: bool) -> Answer
    requires { Known known (Calls.held h store.now) }
    ensures answer { result ≡ (Calls.step (Calls.table (length out.old)) (Calls.held h store.now)).answer }
    ensures output { out.new ≡ Calls.overlaid (Calls.step (Calls.table (length out.old)) (Calls.held h store.now)).output out.old }
{
    let size = h.size;
    let count = h.count;
    let number = checks::front(h, store, 0, known);
    if number != 0 {
        return answers::plain_answer(h, number);
    }
    let room = 2 * count;
    if out.len() < room {
        return answers::plain_answer(h, 8);
    }
    if count == 0 {
        return answers::plain_answer(h, 9);
    }
    put_table(&mut out[0..room], store, size, count);
    answers::looked_answer(h, 0, room)
}

// ---- the pick

// Not NaN, not below 0, below 1.
fn draw_sound(draw: f64) -> bool
    ensures { result ≡ draw_sound draw }
{
    0.0 <= draw && draw < 1.0
}

// The place of the first of m pairs whose total is above the draw, else of the last.
fn pick_from(order: &[u64], m: usize, draw: f64) -> u64
    requires { (2 * m ≤ length order.now) × (m ≤ 256) }
    ensures { result ≡ Table.pick_from draw (float zero_bits) 0 (pairs m order.now) }
{
    let mut total = 0.0;
    let mut last = 0;
    for i in 0..m {
        let at = 2 * i;
        let place = order[at];
        total = total + words::float_of(order[at + 1]);
        if draw < total {
            return place;
        }
        last = place;
    }
    last
}

// The pick from a sound sum, with room for its order.
fn pick_in(order: &mut [u64], store: &[u64], size: Size, count: usize, draw: f64) -> u64
    requires { Sound size count store.now × (length order.old ≡ 2 * count) }
    ensures { result ≡ Table.pick_place draw (map strip (listed size count store.now)) }
{
    put_order(order, store, size, count);
    pick_from(order, count, draw)
}

// The pick from a sound sum.
fn pick_place(store: &[u64], size: Size, count: usize, draw: f64) -> u64
    requires { Sound size count store.now }
    ensures { result ≡ Table.pick_place draw (map strip (listed size count store.now)) }
{
    let mut order = [0u64; 512];
    pick_in(&mut order[0..2 * count], store, size, count, draw)
}

// THE CALL: the list place of the first table entry whose total is above the draw, else of the last. 1, 2, 5, 9, 10.
pub fn pick(h: Header, store: &[u64], draw: f64) -> Answer
    ensures { result ≡ (Calls.step (Calls.pick draw) (Calls.held h store.now)).answer }
{
    pick_known(h, store, draw, false)
}

// .. told whether all but the weights is known to be sound.
pub fn pick_known(h: Header, store: &[u64], draw: f64, known: bool) -> Answer
    requires { Known known (Calls.held h store.now) }
    ensures { result ≡ (Calls.step (Calls.pick draw) (Calls.held h store.now)).answer }
{
    let size = h.size;
    let count = h.count;
    let number = checks::front(h, store, 0, known);
    if number != 0 {
        return answers::plain_answer(h, number);
    }
    if count == 0 {
        return answers::plain_answer(h, 9);
    }
    if !draw_sound(draw) {
        return answers::plain_answer(h, 10);
    }
    let place = pick_place(store, size, count, draw);
    answers::looked_answer(h, place as usize, 0)
}
