// One call, made from its words on a lent store. Word 0 is its kind, words 1 and 2 are whole numbers, words 3 to 17 the bits of rates:
//    0 Pauli channel at q, three rates   1 loss channel   2 depolarising channel
//    3 two-qubit Pauli at p and q, 15 rates   4 depolarize2 at p and q   5 reset at q
//    6 H at q   7 S at q   8 CNOT p to q   9 truncate   10 normalise
//   11 table, its room in word 1   12 pick, its draw in word 3   13 sheet   14 view, its place in word 1
//   15 page
// What it gives goes to a record: number, merged, stored, dropped, compared, place, length, the bits of the dropped and of the truncated
// weight, entries, flag, and behind these a table's words or a view's. A sheet or a page goes to a text. specs/Encoding.antt says which
// words are which call, specs/Records.antt what is left.
#![tactic(auto)]

ghost use Rattle.std.specs.Prelude.{◌≡◌, true, ℕ, ◌<◌, ◌≤◌, length, get_or};
ghost use Rattle.model.specs.Calls as Calls;
ghost use Rattle.model.specs.Calls.{held, overlaid};
ghost use Rattle.model.specs.Known.{Known, known_after, Stepped};
ghost use Rattle.perform.specs.Encoding.{call_words, shown_words, rates_in, room_in, shows_words, call_of};
ghost use Rattle.perform.specs.Encoding as Encoding;
ghost use Rattle.perform.specs.Said.{said, said_change, said_look, ShowsBy, ShowsWithin};
ghost use Rattle.perform.specs.Records.{numbers, record_words, number_words, flag_word, Made, Looked};

use model::{Answer, Channel, Gate, Header};

// ---- the words of a call

pub const CALL_WORDS: usize = 18;

// The most that a table or a view shows: the table of a full list. The longest entry is shorter.
pub const SHOWN_WORDS: usize = 2 * model::MAX_CAPACITY;

// The most room that a record may have for it: what was asked for before request 4 of document 02.
pub const MOST_SHOWN: usize = 581;

// A record begins with the numbers of an answer; what is shown stands behind them.
pub const NUMBER_WORDS: usize = 11;

pub const RECORD_WORDS: usize = NUMBER_WORDS + SHOWN_WORDS;

// ---- a call

// A call that changes the sum.
#[derive(Clone, Copy)]
enum Change {
    Noise(Channel, usize),
    TwoQubits([f64; 15], usize, usize),
    Depolarize2(f64, usize, usize),
    Reset(usize),
    Gate(Gate),
    Truncate,
    Normalise,
}

// A call that shows what it gives in its record.
#[derive(Clone, Copy)]
enum Look {
    Table(usize),
    Pick(f64),
    View(usize),
}

#[derive(Clone, Copy)]
enum Call {
    Change(Change),
    Look(Look),
    Sheet,
    Page,
}

// The words have a kind that is known.
#[tactic(auto, unfolding(crate::specs::Encoding::known))]
pub fn known(call: &[u64]) -> bool
    requires { length call.now ≡ call_words }
    ensures { result ≡ Encoding.known call.now }
{
    call[0] < 16
}

// It shows words in its record: a table or a view.
#[tactic(auto, unfolding(crate::specs::Encoding::shows_words))]
fn shows(call: &[u64]) -> bool
    requires { length call.now ≡ call_words }
    ensures { result ≡ shows_words call.now }
{
    matches!(call[0], 11 | 14)
}

// .. and a record with room for `shown` words behind its numbers can show what it may show.
#[tactic(auto, unfolding(crate::specs::Encoding::fitting))]
pub fn fitting(call: &[u64], shown: usize) -> bool
    requires { length call.now ≡ call_words }
    ensures { result ≡ Encoding.fitting shown call.now }
{
    known(call) && (!shows(call) || SHOWN_WORDS <= shown)
}

// A whole number of a call.
fn whole(call: &[u64], i: usize) -> usize
    requires { i < length call.now }
    ensures { result ≡ get_or call.now i 0 }
{
    call[i] as usize
}

// Rate i of a call.
fn rate(call: &[u64], i: usize) -> f64
    requires { (length call.now ≡ call_words) × (i < 15) }
    ensures { result ≡ Encoding.rate_in call.now i }
{
    words::float_of(call[3 + i])
}

// All 15 rates of a call.
fn rates(call: &[u64]) -> [f64; 15]
    requires { length call.now ≡ call_words }
    ensures { result ≡ rates_in call.now }
{
    let mut all = [0.0f64; 15];
    for i in 0..15 {
        all[i] = rate(call, i);
    }
    all
}

// The room of a table.
#[tactic(auto, unfolding(crate::specs::Encoding::room_in))]
fn table_room(call: &[u64]) -> usize
    requires { length call.now ≡ call_words }
    ensures { result ≡ room_in call.now }
{
    let asked = whole(call, 1);
    if SHOWN_WORDS < asked {
        SHOWN_WORDS
    } else {
        asked
    }
}

// The call that the words say.
#[tactic(auto, using(crate::proofs::Encoded::room_small), unfolding(crate::specs::Encoding::call_by, crate::specs::Encoding::known, crate::specs::Encoding::shows_words))]
fn call_in(call: &[u64]) -> Call
    requires { (length call.now ≡ call_words) × (Encoding.known call.now ≡ true) }
    ensures said { (bytes : ℕ) → said bytes result ≡ call_of bytes call.now }
    ensures shows { ShowsBy result call.now }
{
    let p = whole(call, 1);
    let q = whole(call, 2);
    let x = rate(call, 0);
    match call[0] {
        0 => Call::Change(Change::Noise(Channel::Pauli(x, rate(call, 1), rate(call, 2)), p)),
        1 => Call::Change(Change::Noise(Channel::Loss(x), p)),
        2 => Call::Change(Change::Noise(Channel::Depolarizing(x), p)),
        3 => Call::Change(Change::TwoQubits(rates(call), p, q)),
        4 => Call::Change(Change::Depolarize2(x, p, q)),
        5 => Call::Change(Change::Reset(p)),
        6 => Call::Change(Change::Gate(Gate::H(p))),
        7 => Call::Change(Change::Gate(Gate::S(p))),
        8 => Call::Change(Change::Gate(Gate::Cnot(p, q))),
        9 => Call::Change(Change::Truncate),
        10 => Call::Change(Change::Normalise),
        11 => Call::Look(Look::Table(table_room(call))),
        12 => Call::Look(Look::Pick(x)),
        13 => Call::Sheet,
        14 => Call::Look(Look::View(p)),
        _ => Call::Page,
    }
}

// ---- the calls that change the sum

fn make(h: Header, store: &mut [u64], change: Change, known: bool) -> Answer
    requires { Known known (held h store.old) }
    ensures { Stepped (said_change change) known (held h store.old) result store.new }
{
    match change {
        Change::Noise(channel, q) => noise::channel_known(h, store, channel, q, known),
        Change::TwoQubits(rates, p, q) => {
            noise::two_qubit_pauli_error_known(h, store, rates, p, q, known)
        }
        Change::Depolarize2(x, p, q) => noise::depolarize2_known(h, store, x, p, q, known),
        Change::Reset(q) => reset::reset_loss_channel_known(h, store, q, known),
        Change::Gate(gate) => gates::gate_known(h, store, gate, known),
        Change::Truncate => weights::truncate_known(h, store, known),
        Change::Normalise => weights::normalise_known(h, store, known),
    }
}

// ---- the record

// 0 or 1.
fn flag_word(dirty: bool) -> u64
    ensures { result ≡ flag_word dirty }
{
    dirty as u64
}

// An answer's numbers at the start of a record.
fn put_numbers(out: &mut [u64], a: Answer)
    requires { number_words ≤ length out.old }
    ensures { out.new ≡ overlaid (numbers a) out.old }
{
    let counts = a.counts;
    let lost = a.lost;
    let header = a.header;
    let all = [
        a.number,
        counts.merged as u64,
        counts.stored as u64,
        counts.dropped as u64,
        counts.compared as u64,
        a.place as u64,
        a.length as u64,
        words::bits_of(lost.dropped),
        words::bits_of(lost.truncated),
        header.count as u64,
        flag_word(header.dirty),
    ];
    out[..NUMBER_WORDS].copy_from_slice(&all);
}

// ---- the calls that change nothing

// A table in a record.
fn show_table(h: Header, store: &[u64], room: usize, out: &mut [u64], known: bool) -> Answer
    requires { (room ≤ shown_words) × (record_words ≤ length out.old) × Known known (held h store.now) }
    ensures { Looked (Calls.table room) (held h store.now) result out.old out.new }
{
    let end = NUMBER_WORDS + room;
    let a = table::table_known(h, store, &mut out[NUMBER_WORDS..end], known);
    put_numbers(out, a);
    a
}

// A pick in a record.
fn show_pick(h: Header, store: &[u64], draw: f64, out: &mut [u64], known: bool) -> Answer
    requires { (number_words ≤ length out.old) × Known known (held h store.now) }
    ensures { Looked (Calls.pick draw) (held h store.now) result out.old out.new }
{
    let a = table::pick_known(h, store, draw, known);
    put_numbers(out, a);
    a
}

// A view in a record: the entry's words, its keys among them.
fn show_view(h: Header, store: &[u64], place: usize, out: &mut [u64], known: bool) -> Answer
    requires { (record_words ≤ length out.old) × Known known (held h store.now) }
    ensures { Looked (Calls.view place) (held h store.now) result out.old out.new }
{
    let a = view::view_answer_known(h, store, place, known);
    let shown = view::view_words_known(h, store, place, known);
    let end = NUMBER_WORDS + shown.len();
    out[NUMBER_WORDS..end].copy_from_slice(shown);
    put_numbers(out, a);
    a
}

// There is room for what it may show.
fn show(h: Header, store: &[u64], look: Look, out: &mut [u64], known: bool) -> Answer
    requires room { ShowsWithin look (length out.old) }
    requires known { Known known (held h store.now) }
    ensures { Looked (said_look look) (held h store.now) result out.old out.new }
{
    match look {
        Look::Table(room) => show_table(h, store, room, out, known),
        Look::Pick(draw) => show_pick(h, store, draw, out, known),
        Look::View(place) => show_view(h, store, place, out, known),
    }
}

// ---- one call

// Any call, on header and store, told whether all but the weights is known to be sound; its record in `out`, and its text, if it is a sheet
// or a page, in `text`.
pub fn perform(
    h: Header,
    store: &mut [u64],
    call: &[u64],
    out: &mut [u64],
    text: &mut [u8],
    known: bool,
) -> Answer
    requires call_len { (length call.now ≡ call_words) × (Encoding.known call.now ≡ true) × Known known (held h store.old) }
    requires number_words_in_bounds { (number_words ≤ length out.old) × (shows_words call.now ≡ true → record_words ≤ length out.old) }
    ensures made { Made (call_of (length text.old) call.now) (held h store.old) result store.new out.old out.new text.old text.new }
    ensures known { Known (known_after known result.number) (held result.header store.new) }
{
    match call_in(call) {
        Call::Change(change) => {
            let a = make(h, store, change, known);
            put_numbers(out, a);
            a
        }
        Call::Look(look) => show(h, store, look, out, known),
        Call::Sheet => {
            let a = sheet::write_sheet_known(h, store, text, known);
            put_numbers(out, a);
            a
        }
        Call::Page => {
            let a = page::write_page_known(h, store, text, known);
            put_numbers(out, a);
            a
        }
    }
}
