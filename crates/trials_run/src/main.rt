// Cutoffs tried on channel steps, in cases from standard input (trials::try_cutoffs); and the same calls made one by one, fresh::fresh and
// noise::channel, on a second store. Of each case a line: its place, the answer's numbers, the header; how many words of the output
// behind the places are not as they were lent, and how many of the store behind the entries are not 0; how many words of the output,
// the store and the header are not those that the calls leave one by one. Then the places, a line for each cutoff, and all words of the
// entries, a line each. Of a refused call: how many words of the output and of the store are not as they were lent.
// differential/trials_run.py has the cases, and makes both the input and what is to come out.
#![tactic(auto)]

ghost use Rattle.std.specs.Prelude.{◌≤◌, length};

use model::{Answer, Channel, Header, Size};
use streams::STDIN_FILENO;
use test_support::{CALL_WORDS, Given, MOST_CALLS};

// A case is given as an item: n, K, capacity, threshold, how many words of the store and of the output are lent, how many steps, how many cutoffs,
// and these, at most 9. Its steps follow as calls, at most 65.
const STEPS_WORDS: usize = CALL_WORDS * (MOST_CALLS + 1);

const STORE_WORDS: usize = 8192;

const OUTPUT_WORDS: usize = 1200;

// What every word of the store and of the output is beforehand.
const LENT: u64 = 0x5555_5555_5555_5555;

// ---- a case

// What is tried: of the steps, the first `count`.
#[derive(Drop)]
struct Case<'a> {
    size: Size,
    threshold: f64,
    cutoffs: &'a [f64],
    channels: [Channel; 64],
    qubits: [usize; 64],
    count: usize,
}

// All nine, whether they count or not.
fn cutoffs_in(item: &[u64; 18]) -> [f64; 9] {
    let mut cutoffs = [0.0; 9];
    for (cutoff, word) in cutoffs.iter_mut().zip(&item[9..]) {
        *cutoff = words::float_of(*word);
    }
    cutoffs
}

fn rate(call: &[u64], i: usize) -> f64 {
    words::float_of(test_support::word_at(call, i))
}

// The channel that the words of a call say.
fn channel_in(call: &[u64]) -> Channel {
    match test_support::word_at(call, 0) {
        0 => Channel::Pauli(rate(call, 3), rate(call, 4), rate(call, 5)),
        1 => Channel::Loss(rate(call, 3)),
        _ => Channel::Depolarizing(rate(call, 3)),
    }
}

fn channels_in(calls: &[u64]) -> [Channel; 64] {
    let mut channels = [Channel::Loss(0.0); 64];
    for (channel, call) in channels.iter_mut().zip(calls.chunks_exact(CALL_WORDS)) {
        *channel = channel_in(call);
    }
    channels
}

fn qubits_in(calls: &[u64]) -> [usize; 64] {
    let mut qubits = [0; 64];
    for (q, call) in qubits.iter_mut().zip(calls.chunks_exact(CALL_WORDS)) {
        *q = test_support::word_at(call, 1) as usize;
    }
    qubits
}

fn case_of<'a>(item: &[u64; 18], calls: &[u64], cutoffs: &'a [f64]) -> Case<'a> {
    Case {
        size: Size {
            n: item[1] as usize,
            k: item[2] as usize,
            capacity: item[3] as usize,
        },
        threshold: words::float_of(item[4]),
        cutoffs,
        channels: channels_in(calls),
        qubits: qubits_in(calls),
        count: item[7] as usize,
    }
}

// ---- the calls one by one

// The call of a step, unless one before it was refused.
fn step(a: Answer, store: &mut [u64], channel: Channel, q: usize) -> Answer {
    if a.number == 0 {
        return noise::channel(a.header, store, channel, q);
    }
    a
}

// A place's two words.
fn put_place(place: &mut [u64], a: Answer) {
    let h = a.header;
    test_support::put_word(place, 0, a.number);
    test_support::put_word(place, 1, h.count as u64);
}

impl Case<'_> {
    fn words_of_places(&self) -> usize {
        self.count.wrapping_mul(2)
    }

    // A trial: the fresh call and the steps, for which there are places.
    fn one_trial(&self, cutoff: f64, store: &mut [u64], places: &mut [u64]) -> Header {
        let mut a = fresh::fresh(self.size, self.threshold, cutoff, store);
        let steps = self.channels.iter().zip(self.qubits.iter());
        for ((channel, q), place) in steps.zip(places.chunks_exact_mut(2)) {
            a = step(a, store, *channel, *q);
            put_place(place, a);
        }
        a.header
    }

    // .. for each cutoff, in one store. The header is that of the last sum.
    fn one_by_one(&self, store: &mut [u64], out: &mut [u64]) -> Header {
        let mut header = answers::zero_header();
        let words = self.words_of_places().max(1);
        for (cutoff, places) in self.cutoffs.iter().zip(out.chunks_exact_mut(words)) {
            header = self.one_trial(*cutoff, store, places);
        }
        header
    }
}

// ---- what is told

// How many words of the two are not the same.
fn differing(a: &[u64], b: &[u64]) -> u64 {
    a.iter().zip(b).filter(|(x, y)| **x != **y).count() as u64
}

// How many words from a place on are not v.
fn others(words: &[u64], from: usize, v: u64) -> u64 {
    words.iter().skip(from).filter(|w| **w != v).count() as u64
}

fn header_words(h: Header) -> [u64; 7] {
    let size = h.size;
    [
        size.n as u64,
        size.k as u64,
        size.capacity as u64,
        h.count as u64,
        words::bits_of(h.threshold),
        words::bits_of(h.cutoff),
        h.dirty as u64,
    ]
}

// Number, merged, stored, dropped, compared, place, length, the bits of the dropped and of the truncated weight; the header.
fn tell_answer(case: u64, a: Answer) {
    let counts = a.counts;
    let lost = a.lost;
    test_support::number(case);
    test_support::text(b" gives");
    test_support::numbers(&[
        a.number,
        counts.merged as u64,
        counts.stored as u64,
        counts.dropped as u64,
        counts.compared as u64,
        a.place as u64,
        a.length as u64,
        words::bits_of(lost.dropped),
        words::bits_of(lost.truncated),
    ]);
    test_support::text(b", header");
    test_support::numbers(&header_words(a.header));
}

fn tell_refused(store: &[u64], out: &[u64]) {
    test_support::text(b", changed");
    test_support::number(others(out, 0, LENT));
    test_support::number(others(store, 0, LENT));
    test_support::text(b"\n");
}

// The words of an entry.
fn entry_words(h: Header, store: &[u64]) -> usize {
    let size = h.size;
    store.len().checked_div(size.capacity).unwrap_or(0)
}

// The words of the listed entries.
fn listed_words(h: Header, store: &[u64]) -> usize {
    entry_words(h, store).wrapping_mul(h.count)
}

fn tell_behind(a: Answer, store: &[u64], out: &[u64]) {
    test_support::text(b", behind");
    test_support::number(others(out, a.length, LENT));
    test_support::number(others(store, listed_words(a.header, store), 0));
}

// The places of a trial on a line, an entry on a line.
fn tell_words(a: Answer, case: &Case<'_>, store: &[u64], out: &[u64]) {
    let places = test_support::first(out, a.length);
    let entries = test_support::first(store, listed_words(a.header, store));
    test_support::lines(places, case.words_of_places());
    test_support::lines(entries, entry_words(a.header, store));
}

// ---- the cases

// The calls one by one in another store and output of the same lengths: how many words of these, and of the header, are not as they were left.
fn compare(h: Header, case: &Case<'_>, store: &[u64], out: &[u64])
    requires { (length store.now ≤ 8192) × (length out.now ≤ 1200) }
{
    let mut other_store = [LENT; STORE_WORDS];
    let mut other_out = [LENT; OUTPUT_WORDS];
    let other_store = &mut other_store[..store.len()];
    let other_out = &mut other_out[..out.len()];
    test_support::text(b", one by one");
    let other = case.one_by_one(other_store, other_out);
    test_support::number(differing(out, other_out));
    test_support::number(differing(store, other_store));
    test_support::number(differing(&header_words(h), &header_words(other)));
    test_support::text(b"\n");
}

// What is compared is lent only once the case was accepted.
fn run_case(place: u64, case: &Case<'_>, store: &mut [u64], out: &mut [u64])
    requires { (length store.old ≤ 8192) × (length out.old ≤ 1200) }
{
    let a = trials::try_cutoffs(
        case.size,
        case.threshold,
        case.cutoffs,
        case.channels,
        case.qubits,
        case.count,
        store,
        out,
    );
    tell_answer(place, a);
    if a.number != 0 {
        tell_refused(store, out);
        return;
    }
    tell_behind(a, store, out);
    compare(a.header, case, store, out);
    tell_words(a, case, store, out);
}

// With the words that are lent.
fn lend(place: u64, item: &[u64; 18], calls: &[u64]) {
    let len = item[5] as usize;
    let room = item[6] as usize;
    let tried = item[8] as usize;
    if len > STORE_WORDS || room > OUTPUT_WORDS || tried > 9 {
        test_support::text(b"a case has no room\n");
        return;
    }
    let mut store = [LENT; STORE_WORDS];
    let mut out = [LENT; OUTPUT_WORDS];
    let cutoffs = cutoffs_in(item);
    run_case(
        place,
        &case_of(item, calls, &cutoffs[0..tried]),
        &mut store[0..len],
        &mut out[0..room],
    );
}

// The cases up to the end of what is given, at most 1000.
fn run_given(given: &[u8]) {
    let mut given = Given::new(given);
    let mut calls = [0u64; STEPS_WORDS];
    for place in 1..1001 {
        let Some(item) = given.item() else {
            return;
        };
        given.calls(item[7] as usize, &mut calls);
        lend(place, &item, &calls);
    }
}

fn main() {
    let mut given = test_support::room();
    let n = io::read_full(STDIN_FILENO, &mut given);
    run_given(&given[0..n]);
}
