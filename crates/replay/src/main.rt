// Calls from standard input, made one after the other on one store and one text, each as a list of one call (runs::run). A line for each
// call: its kind and two whole numbers; the record's numbers; the header; the digests of the store, of the record and of the text; and up
// to twenty words that the call wrote or shows. A start has its number in place of the record. Of a list of more calls: its number and how
// many were made, and then the numbers of every record, a line each. differential/replay.py has the cases, and makes both the input and
// what is to come out.
#![tactic(auto)]

ghost use Rattle.std.specs.Prelude.{◌<◌};

use model::{Header, MAX_CAPACITY, MAX_COEFFICIENTS, MAX_ENTRY_WORDS, MAX_QUBITS, Size};
use runs::Room;
use streams::STDIN_FILENO;
use test_support::{
    Given, LIST_WORDS, LOG_WORDS, MOST_SHOWN, NUMBER_WORDS, RECORD_WORDS, SHOWN_WORDS,
};

// ---- items

// What is lent: a header, and so many words of the store and bytes of the text.
#[derive(Clone, Copy)]
struct Lent {
    header: Header,
    words: usize,
    bytes: usize,
}

// A list of calls: how many are given, whether a refusal ends it, what each call has room for; then the words of the log, and those of the
// calls.
#[derive(Clone, Copy)]
struct List {
    count: usize,
    stop: bool,
    room: Room,
    log: usize,
    calls: usize,
}

#[derive(Clone, Copy)]
enum Item<'a> {
    Call(&'a [u64; 18]),
    // A sum begins, from its size and bounds or from the sheet that the text is.
    Fresh(Size, f64, f64),
    Sheet,
    // On the store: a word, all words, the words of a large sum, some words shown in lines.
    Word(usize, u64),
    Words(u64),
    Large,
    Lines(usize, usize),
    // On the text: a byte, all bytes; a byte told on a line.
    Byte(usize, u8),
    Bytes(u8),
    Title(u8),
    Lend(Lent),
    List(List),
    Unknown,
}

fn byte(word: u64) -> u8 {
    (word % 256) as u8
}

fn size_in(n: u64, k: u64, capacity: u64) -> Size {
    Size {
        n: n as usize,
        k: k as usize,
        capacity: capacity as usize,
    }
}

// After word 0 the header's seven words, how many words of the store, and how many bytes of the text.
fn lent_in(words: &[u64; 18]) -> Lent {
    let header = answers::header(
        size_in(words[1], words[2], words[3]),
        words[4] as usize,
        words::float_of(words[5]),
        words::float_of(words[6]),
        words[7] != 0,
    );
    Lent {
        header,
        words: words[8] as usize,
        bytes: words[9] as usize,
    }
}

fn list_in(words: &[u64; 18]) -> List {
    List {
        count: words[1] as usize,
        stop: words[2] != 0,
        room: Room {
            shown: words[3] as usize,
            bytes: words[4] as usize,
        },
        log: words[5] as usize,
        calls: words[6] as usize,
    }
}

fn item_in(words: &[u64; 18]) -> Item<'_> {
    match words[0] {
        0..=19 => Item::Call(words),
        20 => Item::Fresh(
            size_in(words[1], words[2], words[3]),
            words::float_of(words[4]),
            words::float_of(words[5]),
        ),
        21 => Item::Sheet,
        22 => Item::Word(words[1] as usize, words[2]),
        23 => Item::Words(words[1]),
        24 => Item::Large,
        25 => Item::Lines(words[1] as usize, words[2] as usize),
        26 => Item::Byte(words[1] as usize, byte(words[2])),
        27 => Item::Bytes(byte(words[1])),
        28 => Item::Title(byte(words[1])),
        30 => Item::Lend(lent_in(words)),
        31 => Item::List(list_in(words)),
        _ => Item::Unknown,
    }
}

// ---- what is told

fn tell_sum(h: Header, store: &[u64]) {
    let size = h.size;
    test_support::text(b", header");
    test_support::numbers(&[
        size.n as u64,
        size.k as u64,
        size.capacity as u64,
        h.count as u64,
        words::bits_of(h.threshold),
        words::bits_of(h.cutoff),
        h.dirty as u64,
    ]);
    test_support::text(b", digest");
    test_support::number(test_support::digest(store));
}

fn tell_start(kind: u64, number: u64, h: Header, store: &[u64]) {
    test_support::number(kind);
    test_support::text(b" begins");
    test_support::number(number);
    tell_sum(h, store);
    test_support::text(b"\n");
}

// The words that the call wrote or shows, at most twenty. What a sheet (13) or a page (15) wrote is in the text.
fn tell_shown(kind: u64, record: &[u64; RECORD_WORDS]) {
    let length = record[6];
    if kind == 13 || kind == 15 || length == 0 {
        return;
    }
    test_support::text(b", shown");
    let shown = length.min(20) as usize;
    test_support::numbers(&record[NUMBER_WORDS..NUMBER_WORDS + shown]);
}

// The digests of a record or a log, which is given, and of the text.
fn tell_written(name: &[u8], digest: u64, text: &[u8]) {
    test_support::text(name);
    test_support::number(digest);
    test_support::text(b", text");
    test_support::number(test_support::digest(text));
}

// The words of a record that has room to show so many. With more than there may be the list does not fit, and no record is written.
fn record_len(shown: usize) -> usize
    ensures { 0 < result }
{
    NUMBER_WORDS + shown.min(MOST_SHOWN)
}

// The numbers of each record of a log.
fn tell_records(log: &[u64], shown: usize, count: usize) {
    for record in log.chunks_exact(record_len(shown)).take(count) {
        test_support::numbers(test_support::first(record, NUMBER_WORDS));
        test_support::text(b"\n");
    }
}

// ---- calls

impl Lent {
    // A call, made as a list of one.
    fn call(&mut self, store: &mut [u64], text: &mut [u8], call: &[u64; 18]) {
        let mut record = [7u64; RECORD_WORDS];
        let room = Room {
            shown: SHOWN_WORDS,
            bytes: text.len(),
        };
        let ran = runs::run(self.header, store, call, &mut record, text, room, false);
        self.header = ran.header;
        test_support::numbers(&call[0..3]);
        test_support::text(b" gives");
        test_support::numbers(&record[0..NUMBER_WORDS]);
        tell_sum(ran.header, store);
        tell_written(b", record", test_support::digest_record(&record), text);
        tell_shown(call[0], &record);
        test_support::text(b"\n");
    }

    // A list of calls, from their words, with this log.
    fn run(
        &mut self,
        store: &mut [u64],
        text: &mut [u8],
        list: List,
        calls: &[u64],
        log: &mut [u64],
    ) {
        let room = list.room;
        let ran = runs::run(self.header, store, calls, log, text, room, list.stop);
        self.header = ran.header;
        test_support::number(31);
        test_support::text(b" gives");
        test_support::number(ran.number);
        test_support::number(ran.made as u64);
        tell_sum(ran.header, store);
        let digest = test_support::digest_log(log, record_len(room.shown));
        tell_written(b", log", digest, text);
        test_support::text(b"\n");
        if ran.number == 0 {
            tell_records(log, room.shown, list.count);
        }
    }

    // .. if there are as many words.
    fn make_list(&mut self, store: &mut [u64], text: &mut [u8], list: List, calls: &[u64]) {
        let mut log = [7u64; LOG_WORDS];
        if list.log <= log.len() && list.calls <= calls.len() {
            self.run(
                store,
                text,
                list,
                &calls[0..list.calls],
                &mut log[0..list.log],
            );
        }
    }

    fn begin_fresh(&mut self, store: &mut [u64], size: Size, threshold: f64, cutoff: f64) {
        let a = fresh::fresh(size, threshold, cutoff, store);
        self.header = a.header;
        tell_start(20, a.number, a.header, store);
    }

    fn begin_read(&mut self, store: &mut [u64], text: &[u8]) {
        let a = reader::read_sheet(text, store);
        self.header = a.header;
        tell_start(21, a.number, a.header, store);
    }

    // An item, on the part of the store and of the text that is lent. The calls are those of a list.
    fn act(&mut self, store: &mut [u64], text: &mut [u8], item: Item<'_>, calls: &[u64]) {
        match item {
            Item::Call(call) => self.call(store, text, call),
            Item::Fresh(size, threshold, cutoff) => self.begin_fresh(
                store, size, threshold, cutoff,
            ),
            Item::Sheet => self.begin_read(store, text),
            Item::Word(at, word) => test_support::put_word(store, at, word),
            Item::Words(word) => store.fill(word),
            Item::Large => test_support::lay_large(store),
            Item::Lines(count, width) => {
                test_support::lines(test_support::first(store, count), width)
            }
            Item::Byte(at, byte) => put_byte(text, at, byte),
            Item::Bytes(byte) => text.fill(byte),
            Item::Title(letter) => test_support::text(&[letter, b'\n']),
            Item::List(list) => self.make_list(store, text, list, calls),
            Item::Lend(_) | Item::Unknown => {}
        }
    }

    // .. if there is as much of both.
    fn step(&mut self, store: &mut [u64], text: &mut [u8], item: Item<'_>, calls: &[u64]) {
        let words = self.words;
        let bytes = self.bytes;
        if words <= store.len() && bytes <= text.len() {
            self.act(&mut store[0..words], &mut text[0..bytes], item, calls);
        }
    }
}

fn put_byte(text: &mut [u8], at: usize, byte: u8) {
    if let Some(b) = text.get_mut(at) {
        *b = byte;
    }
}

// The items up to the end of what is given, at most 40 000.
fn replay(given: &[u8], store: &mut [u64], text: &mut [u8]) {
    let mut given = Given::new(given);
    let mut lent = lent_in(&[0; 18]);
    let mut calls = [0u64; LIST_WORDS];
    for _ in 0..40_000 {
        let Some(words) = given.item() else {
            return;
        };
        let item = item_in(&words);
        match item {
            Item::Lend(l) => lent = l,
            Item::List(list) => given.calls(list.count, &mut calls),
            _ => {}
        }
        lent.step(store, text, item, &calls);
    }
}

// The words of the largest store.
const STORE_WORDS: usize = MAX_CAPACITY * MAX_ENTRY_WORDS;

// The bytes of the largest sheet: a line of 127, and lines of 64 for each entry, one and one for each coefficient and row.
const TEXT_BYTES: usize = 127 + 64 * MAX_CAPACITY * (1 + MAX_COEFFICIENTS + 2 * MAX_QUBITS);

fn text_room() -> [u8; TEXT_BYTES] {
    [0u8; TEXT_BYTES]
}

fn main() {
    let mut given = test_support::room();
    let mut store = [0u64; STORE_WORDS];
    let mut text = text_room();
    let n = io::read_full(STDIN_FILENO, &mut given);
    replay(&given[0..n], &mut store, &mut text);
}
