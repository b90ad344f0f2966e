// A list of at most 64 calls from standard input, run from a fresh sum on (runs::run_fresh), and again from the sheet that its last call
// wrote (runs::run_sheet). For each run a line of its number, how many calls were made, the header's count and flag, and the digest of the
// store without keys; then a line for each call: its kind, the record's numbers, the digest of its record, a view's without keys, and that
// of its stretch of text. differential/list_run.py makes the list, and works out what is to come out from entries that have no keys.
#![tactic(auto)]

use model::Size;
use runs::{Ran, Room};
use streams::STDIN_FILENO;
use test_support::{
    CALL_WORDS, Given, LIST_WORDS, LOG_WORDS, MOST_CALLS, NUMBER_WORDS, RECORD_WORDS, SHOWN_WORDS,
};

// What each call has room for.
const BYTES: usize = 32_768;

const ROOM: Room = Room {
    shown: SHOWN_WORDS,
    bytes: BYTES,
};

// The two keys of an entry put to 0.
fn clear_keys(entry: &mut [u64]) {
    for key in entry.iter_mut().skip(2).take(2) {
        *key = 0;
    }
}

fn tell_sum(ran: Ran, store: &mut [u64], len: usize) {
    let h = ran.header;
    for entry in store.chunks_mut(len.max(1)) {
        clear_keys(entry);
    }
    test_support::text(b"gives");
    test_support::number(ran.number);
    test_support::number(ran.made as u64);
    test_support::text(b", count");
    test_support::number(h.count as u64);
    test_support::text(b", flag");
    test_support::number(h.dirty as u64);
    test_support::text(b", digest");
    test_support::number(test_support::digest(store));
    test_support::text(b"\n");
}

fn tell_record(kind: u64, record: &[u64], text: &[u8]) {
    test_support::number(kind);
    test_support::text(b":");
    test_support::numbers(test_support::first(record, NUMBER_WORDS));
    test_support::text(b", record");
    test_support::number(test_support::digest_record(record));
    test_support::text(b", text");
    test_support::number(test_support::digest(text));
    test_support::text(b"\n");
}

fn kind(call: &[u64]) -> u64 {
    test_support::word_at(call, 0)
}

// Each call of the list, with its record and its stretch of text. The record of a view (14) has its keys put to 0.
fn tell_run(calls: &[u64], log: &mut [u64], text: &[u8]) {
    let records = log.chunks_exact_mut(RECORD_WORDS);
    let texts = text.chunks_exact(BYTES);
    for ((call, record), text) in calls.chunks_exact(CALL_WORDS).zip(records).zip(texts) {
        let kind = kind(call);
        if kind == 14 {
            clear_keys(&mut record[NUMBER_WORDS..]);
        }
        tell_record(kind, record, text);
    }
}

// The text that the last call wrote goes into `sheet`; how long it is, if there is room for it, is the answer. Of no call it is empty.
fn keep_sheet(log: &[u64], text: &[u8], count: usize, sheet: &mut [u8]) -> Option<usize> {
    let records = log.chunks_exact(RECORD_WORDS);
    let texts = text.chunks_exact(BYTES);
    let Some((record, text)) = records.zip(texts).take(count).last() else {
        return Some(0);
    };
    let length = test_support::word_at(record, 6) as usize;
    if text.len() < length || sheet.len() < length {
        return None;
    }
    sheet[..length].copy_from_slice(&text[..length]);
    Some(length)
}

// Room for the text of every call.
const TEXT: usize = BYTES * MOST_CALLS;

fn text_room() -> [u8; TEXT] {
    [120u8; TEXT]
}

// What a run starts from, and how many words an entry has.
#[derive(Clone, Copy)]
struct Start {
    size: Size,
    threshold: f64,
    cutoff: f64,
    entry_words: usize,
}

fn start_in(item: &[u64; 18]) -> Start {
    Start {
        size: Size {
            n: item[1] as usize,
            k: item[2] as usize,
            capacity: item[3] as usize,
        },
        threshold: words::float_of(item[4]),
        cutoff: words::float_of(item[5]),
        entry_words: item[6] as usize,
    }
}

// From a fresh sum on. Its last sheet goes into `sheet`; how many bytes it has, if there is room for them, is the answer.
fn from_fresh(start: Start, calls: &[u64], sheet: &mut [u8]) -> Option<usize> {
    let mut store = [7u64; 2460];
    let mut log = [7u64; LOG_WORDS];
    let mut text = text_room();
    let ran = runs::run_fresh(
        start.size,
        start.threshold,
        start.cutoff,
        &mut store,
        calls,
        &mut log,
        &mut text,
        ROOM,
    );
    tell_sum(ran, &mut store, start.entry_words);
    tell_run(calls, &mut log, &text);
    keep_sheet(&log, &text, calls.len() / CALL_WORDS, sheet)
}

// From a sheet on.
fn from_sheet(start: Start, calls: &[u64], sheet: &[u8]) {
    let mut store = [7u64; 2460];
    let mut log = [7u64; LOG_WORDS];
    let mut text = text_room();
    let ran = runs::run_sheet(sheet, &mut store, calls, &mut log, &mut text, ROOM);
    tell_sum(ran, &mut store, start.entry_words);
    tell_run(calls, &mut log, &text);
}

// Both runs, in stores of 2460 words that hold sevens.
fn run_both(start: Start, calls: &[u64]) {
    let mut sheet = [0u8; BYTES];
    if let Some(length) = from_fresh(start, calls, &mut sheet) {
        from_sheet(start, calls, test_support::first(&sheet, length));
    }
}

fn run_given(given: &[u8]) {
    let mut given = Given::new(given);
    let mut calls = [0u64; LIST_WORDS];
    let start = given.item().unwrap_or([0; 18]);
    let count = start[7] as usize;
    given.calls(count, &mut calls);
    if count <= MOST_CALLS {
        run_both(start_in(&start), &calls[0..CALL_WORDS * count]);
    }
}

fn main() {
    let mut given = [0u8; 65_536];
    let n = io::read_full(STDIN_FILENO, &mut given);
    run_given(&given[0..n]);
}
