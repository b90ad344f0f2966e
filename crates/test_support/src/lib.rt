// What the programs that try calls share: reading items, printing numbers, a large sum, and telling what became of slices.
#![tactic(auto)]

use streams::STDOUT_FILENO;

mod given;
mod large;

pub use given::{Given, room};
pub use large::lay_large;

// As crates/perform has them: the words of a call, the numbers of its record, what a table or a view shows behind these, and the most
// room that there may be for it.
pub const CALL_WORDS: usize = 18;

pub const NUMBER_WORDS: usize = 11;

pub const SHOWN_WORDS: usize = 2 * model::MAX_CAPACITY;

pub const MOST_SHOWN: usize = 581;

pub const RECORD_WORDS: usize = NUMBER_WORDS + SHOWN_WORDS;

// The most calls of a list, and the words of these and of their records.
pub const MOST_CALLS: usize = 64;

pub const LIST_WORDS: usize = CALL_WORDS * MOST_CALLS;

pub const LOG_WORDS: usize = RECORD_WORDS * MOST_CALLS;

pub fn text(t: &[u8]) {
    io::write_all(STDOUT_FILENO, t);
}

// A blank, and the number.
pub fn number(v: u64) {
    io::write_all(STDOUT_FILENO, b" ");
    io::print_decimal(STDOUT_FILENO, v);
}

// The words, each after a blank.
pub fn numbers(words: &[u64]) {
    for w in words {
        number(*w);
    }
}

// The words, with a line end after each `width` of them.
pub fn lines(words: &[u64], width: usize) {
    let width = width.max(1);
    for line in words.chunks(width) {
        numbers(line);
        if line.len() == width {
            text(b"\n");
        }
    }
}

// The first ones, as many as there are.
pub fn first<T>(items: &[T], count: usize) -> &[T] {
    &items[..count.min(items.len())]
}

// The word at a place, 0 if there is none.
pub fn word_at(words: &[u64], at: usize) -> u64 {
    words.get(at).copied().unwrap_or(0)
}

// The word at a place put to v, if there is such a place.
pub fn put_word(words: &mut [u64], at: usize, v: u64) {
    if let Some(word) = words.get_mut(at) {
        *word = v;
    }
}

// Where FNV-1a begins, and what it multiplies by.
const DIGEST_OF_NOTHING: u64 = 0xcbf2_9ce4_8422_2325;

fn absorb(h: u64, w: u64) -> u64 {
    words::wrapping_mul(h ^ w, 0x0100_0000_01b3)
}

// FNV-1a over bytes, or the same word by word.
pub fn digest<T: Copy + Into<u64>>(items: &[T]) -> u64 {
    items
        .iter()
        .fold(DIGEST_OF_NOTHING, |h, item| absorb(h, (*item).into()))
}

// Of a record in words that were 7, without those that are 7 at its end: the same however much room it has.
pub fn digest_record(record: &[u64]) -> u64 {
    let end = record
        .iter()
        .rposition(|w| *w != 7)
        .map_or(0, |last| last + 1);
    digest(&record[..end])
}

// Of a log, by the digests of its records. What is behind the last whole one counts as one more.
pub fn digest_log(log: &[u64], record_len: usize) -> u64 {
    if record_len == 0 {
        return DIGEST_OF_NOTHING;
    }
    log.chunks(record_len).fold(DIGEST_OF_NOTHING, |h, record| {
        absorb(h, digest_record(record))
    })
}
