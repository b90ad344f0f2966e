// The sheet, read: document 01, "The sheet". A text is read from the front: `text` in the functions below is what is left of it.
#![tactic(auto)]

ghost use Rattle.std.specs.Prelude.{◌≡◌, true, [], ◌∷◌, map, ◌+◌, ◌*◌, ◌≤◌, length, take, drop, get_or};
ghost use Rattle.model.specs.Lists.{joined};
ghost use Rattle.model.specs.Entries.{entry_len, words_of, pack};
ghost use Rattle.model.specs.Sheet.{line_fields, read_entries, read_sheet};
ghost use Rattle.model.specs.Numbers as Numbers;
ghost use Rattle.model.specs.Calls as Calls;
ghost use Rattle.model.specs.Calls.{gave, start};
ghost use Rattle.entries.specs.Within.{Within};
ghost use Rattle.checks.specs.Sound.{entry_sound};
ghost use Rattle.fields.specs.Read.{is_some};
ghost use Rattle.reader.specs.Reading.{got, Lined, lines_on, count_on, entry_span, entry_bytes, entry_on, entries_on, zero_keyed, header_on, sheet_number, Readable, sheet_in};

use model::{Answer, Header, Size};

// ---- bytes and lines

// What is left from byte `at` on.
pub fn text_from(text: &[u8], at: usize) -> &[u8]
    requires { at ≤ length text.now }
    ensures { result.now ≡ drop at text.now }
{
    &text[at..]
}

// The bytes of line 1.
pub fn first_line(text: &[u8]) -> &[u8]
    requires { 127 ≤ length text.now }
    ensures { result.now ≡ take 127 text.now }
{
    &text[0..127]
}

// The numbers of the first m lines.
pub fn read_lines(out: &mut [u64], text: &[u8], m: usize)
    requires { Lined text.now × (m ≤ length (lines_on text.now)) × (length out.old ≡ 3 * m) }
    ensures { out.new ≡ joined (take m (lines_on text.now)) }
{
    for i in 0..m {
        let at = 64 * i;
        let a = fields::number_at(text, at);
        let b = fields::number_at(text, at + 21);
        let c = fields::number_at(text, at + 42);
        let to = 3 * i;
        out[to] = a;
        out[to + 1] = b;
        out[to + 2] = c;
    }
}

// ---- one entry

// The bytes of the first entry's lines; 0 if not all of them are there.
// No Option: where they are known to be there, callers add the bytes as they are.
pub fn entry_bytes(text: &[u8], size: Size) -> usize
    requires { Lined text.now }
    ensures { result ≡ entry_bytes size (lines_on text.now) }
{
    let n = size.n;
    let lines = text.len() / 64;
    if lines == 0 {
        return 0;
    }
    let count = fields::number_at(text, 42) as usize;
    let left = lines - 1;
    if left < count {
        return 0;
    }
    if (left - count) / 2 < n {
        return 0;
    }
    64 * (1 + count + 2 * n)
}

// The words before the coefficients: weight, loss, no keys, and the coefficient count.
pub fn read_head(e: &mut [u64], text: &[u8])
    requires { Lined text.now × (1 ≤ length (lines_on text.now)) × (length e.old ≡ 5) }
    ensures { e.new ≡ get_or (get_or (lines_on text.now) 0 []) 0 0 ∷ get_or (get_or (lines_on text.now) 0 []) 1 0 ∷ 0 ∷ 0 ∷ count_on (lines_on text.now) ∷ [] }
{
    e[0] = fields::number_at(text, 0);
    e[1] = fields::number_at(text, 21);
    e[2] = 0;
    e[3] = 0;
    e[4] = fields::number_at(text, 42);
}

// The first entry, in every word of its stretch.
pub fn read_entry(e: &mut [u64], text: &[u8], size: Size)
    requires within { Within size × (length e.old ≡ entry_len size) }
    requires lined { Lined text.now × (entry_span size (lines_on text.now) ≤ length (lines_on text.now)) × (count_on (lines_on text.now) ≤ size.k) }
    ensures { e.new ≡ words_of (zero_keyed (entry_on size (lines_on text.now))) }
{
    let n = size.n;
    let count = fields::number_at(text, 42) as usize;
    let unused = 5 + 3 * count;
    let rows = 5 + 3 * size.k;
    let coefs_text = text_from(text, 64);
    let rows_text = text_from(text, 64 + 64 * count);
    read_head(&mut e[0..5], text);
    read_lines(&mut e[5..unused], coefs_text, count);
    words::clear(&mut e[unused..rows]);
    read_lines(&mut e[rows..], rows_text, 2 * n);
}

// Every word of the first entry is one that a call accepts.
pub fn entry_accepted(text: &[u8], size: Size) -> bool
    requires { Within size × Lined text.now × (entry_span size (lines_on text.now) ≤ length (lines_on text.now)) }
    ensures { result ≡ entry_sound size (entry_on size (lines_on text.now)) }
{
    let k = size.k;
    if (k as u64) < fields::number_at(text, 42) {
        return false;
    }
    let len = entries::entry_len(size);
    let mut scratch = [0u64; model::MAX_ENTRY_WORDS];
    read_entry(&mut scratch[0..len], text, size);
    checks::entry_sound(&scratch[0..len], size)
}

// ---- the entries

// The lines are those of `count` entries, and no more.
pub fn entries_fit(text: &[u8], size: Size, count: usize) -> bool
    requires { Lined text.now }
    ensures { result ≡ is_some (read_entries size count (lines_on text.now)) }
{
    let mut at = 0;
    for _ in 0..count {
        let bytes = entry_bytes(text_from(text, at), size);
        if bytes == 0 {
            return false;
        }
        at += bytes;
    }
    at == text.len()
}

// Number 5 does not apply to the entries.
pub fn entries_accepted(text: &[u8], size: Size, count: usize) -> bool
    requires { Within size × Lined text.now × (is_some (read_entries size count (lines_on text.now)) ≡ true) }
    ensures { result ≡ Numbers.entries_sound size (entries_on size count (lines_on text.now)) }
{
    let mut at = 0;
    for _ in 0..count {
        let here = text_from(text, at);
        if !entry_accepted(here, size) {
            return false;
        }
        at += entry_bytes(here, size);
    }
    true
}

// The entries, each in its slot.
pub fn put_entries(slots: &mut [u64], text: &[u8], size: Size, count: usize)
    requires within { Within size × (length slots.old ≡ count * entry_len size) }
    requires lined { Lined text.now × (is_some (read_entries size count (lines_on text.now)) ≡ true) × (Numbers.entries_sound size (entries_on size count (lines_on text.now)) ≡ true) }
    ensures { slots.new ≡ joined (map (λ e. words_of (zero_keyed e)) (entries_on size count (lines_on text.now))) }
{
    let len = entries::entry_len(size);
    let mut at = 0;
    for i in 0..count {
        let here = text_from(text, at);
        let to = i * len;
        read_entry(&mut slots[to..to + len], here, size);
        at += entry_bytes(here, size);
    }
}

// ---- the sheet

// What line 1 says, as the header of a sum that has been read.
pub fn header_on(first: &[u8]) -> Header
    requires { is_some (line_fields 6 first.now) ≡ true }
    ensures { result ≡ header_on (got (line_fields 6 first.now)) }
{
    let n = fields::number_at(first, 0) as usize;
    let k = fields::number_at(first, 21) as usize;
    let capacity = fields::number_at(first, 42) as usize;
    let count = fields::number_at(first, 63) as usize;
    let threshold = words::float_of(fields::number_at(first, 84));
    let cutoff = words::float_of(fields::number_at(first, 105));
    let size = Size { n, k, capacity };
    answers::header(size, count, threshold, cutoff, true)
}

// Number 7 does not apply: line 1, the lines of the entries, and nothing more.
pub fn text_sound(text: &[u8]) -> bool
    ensures { result ≡ is_some (read_sheet text.now) }
{
    if text.len() < 127 {
        return false;
    }
    let first = first_line(text);
    if !fields::line_sound(first, 6) {
        return false;
    }
    let rest = text_from(text, 127);
    if !fields::lines_sound(rest) {
        return false;
    }
    let h = header_on(first);
    let size = h.size;
    entries_fit(rest, size, h.count)
}

// The number that reading gives for a store of `words` words: 7, 1, 2, 5 or 0.
// No Result: the numbers are those of the C interface.
pub fn sheet_number(text: &[u8], words: usize) -> u64
    ensures { result ≡ sheet_number text.now words }
{
    if !text_sound(text) {
        return 7;
    }
    let h = header_on(first_line(text));
    let size = h.size;
    if !checks::size_sound(size, words) {
        return 1;
    }
    if !checks::header_sound(h) {
        return 2;
    }
    if entries_accepted(text_from(text, 127), size, h.count) {
        return 0;
    }
    5
}

// Every word of the store: the entries in their slots, and 0 in the slots past them.
pub fn put_sheet(store: &mut [u64], text: &[u8])
    requires { Readable text.now (length store.old) }
    ensures { store.new ≡ pack (sheet_in text.now).size (map zero_keyed (sheet_in text.now).entries) }
{
    let h = header_on(first_line(text));
    let size = h.size;
    let count = h.count;
    let past = count * entries::entry_len(size);
    put_entries(&mut store[0..past], text_from(text, 127), size, count);
    words::clear(&mut store[past..]);
}

// THE CALL: a sum from the text of its sheet, in a store holding any words: keys 0, and dirty. 7, 1, 2, 5.
pub fn read_sheet(text: &[u8], store: &mut [u64]) -> Answer
    ensures { gave result store.new ≡ start (Calls.read text.now) store.old }
{
    let number = sheet_number(text, store.len());
    if number != 0 {
        return answers::plain_answer(answers::zero_header(), number);
    }
    put_sheet(store, text);
    let h = header_on(first_line(text));
    answers::plain_answer(h, 0)
}
