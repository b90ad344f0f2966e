// The sheet, written: document 01, point 9.
#![tactic(auto)]

ghost use Rattle.std.specs.Prelude.{◌≡◌, [], ◌∷◌, ◌++◌, map, ◌+◌, ◌*◌, ◌≤◌, length, take, drop, get_or};
ghost use Rattle.model.specs.Lists.{groups, joined};
ghost use Rattle.model.specs.Entries.{head_len, coefs_len, entry_len, entry_of, strip, listed};
ghost use Rattle.model.specs.Sheet.{justified, line, line_len, sheet_text};
ghost use Rattle.model.specs.Calls as Calls;
ghost use Rattle.model.specs.Known.{Known};
ghost use Rattle.entries.specs.Within.{Within};
ghost use Rattle.model.specs.Sound.{Sound};
ghost use Rattle.sheet.specs.Text.{entry_text, entries_text, sheet_on};

use model::{Answer, Header, Size};

// ---- fields and lines

// v in as many columns as there are bytes: blanks, and its digits at the end. The columns are written from the last to the first.
pub fn put_number(out: &mut [u8], v: u64)
    requires { 1 ≤ length out.old }
    ensures { out.new ≡ justified (length out.old) v }
{
    let last = out.len() - 1;
    out[last] = (48 + v % 10) as u8;
    let mut rest = v / 10;
    for i in (0..last).rev() {
        if rest == 0 {
            out[i] = b' ';
        } else {
            out[i] = (48 + rest % 10) as u8;
            rest /= 10;
        }
    }
}

// One line: a field for each number, and the line's end.
pub fn put_line(out: &mut [u8], fields: &[u64])
    requires { length out.old ≡ line_len (length fields.now) }
    ensures { out.new ≡ line fields.now }
{
    for (j, field) in fields.iter().enumerate() {
        let at = 21 * j;
        put_number(&mut out[at..at + 21], *field);
    }
    out[21 * fields.len()] = b'\n';
}

// m lines of three numbers each.
pub fn put_lines(out: &mut [u8], words: &[u64], m: usize)
    requires { (length out.old ≡ m * line_len 3) × (3 * m ≤ length words.now) }
    ensures { out.new ≡ joined (map line (groups 3 m words.now)) }
{
    for i in 0..m {
        let at = 64 * i;
        put_line(&mut out[at..at + 64], words::stretch(words, 3, i));
    }
}

// ---- entries

// The bytes of an entry's lines: its own, one for each of `count` coefficients, one a row.
pub fn entry_text_len(size: Size, count: u64) -> usize
    requires { Within size × (count ≤ size.k) }
    ensures { result ≡ (1 + count + 2 * size.n) * line_len 3 }
{
    (1 + count as usize + 2 * size.n) * 64
}

// An entry's own line: its weight bits, its loss word, its coefficient count.
fn put_head(out: &mut [u8], e: &[u64])
    requires { (length out.old ≡ line_len 3) × (head_len ≤ length e.now) }
    ensures { out.new ≡ line (get_or e.now 0 0 ∷ get_or e.now 1 0 ∷ get_or e.now 4 0 ∷ []) }
{
    let head = [e[0], e[1], e[4]];
    put_line(out, &head);
}

// The lines of its `count` coefficients and of its rows.
fn put_body(out: &mut [u8], e: &[u64], size: Size, count: usize)
    requires within { Within size × (length e.now ≡ entry_len size) × (count ≤ size.k) }
    requires out_len { length out.old ≡ (count + 2 * size.n) * line_len 3 }
    ensures { out.new ≡ joined (map line (groups 3 count (take (coefs_len size) (drop head_len e.now)))) ++ joined (map line (groups 3 (2 * size.n) (drop (head_len + coefs_len size) e.now))) }
{
    let rows = 5 + 3 * size.k;
    let end = 64 * count;
    put_lines(&mut out[0..end], &e[5..rows], count);
    put_lines(&mut out[end..], &e[rows..], 2 * size.n);
}

// An entry's lines.
pub fn put_entry(out: &mut [u8], e: &[u64], size: Size)
    requires within { Within size × (length e.now ≡ entry_len size) × (get_or e.now 4 0 ≤ size.k) }
    requires out_len { length out.old ≡ (1 + get_or e.now 4 0 + 2 * size.n) * line_len 3 }
    ensures { out.new ≡ entry_text size.n (strip (entry_of size e.now)) }
{
    let count = e[4] as usize;
    put_head(&mut out[0..64], e);
    put_body(&mut out[64..], e, size, count);
}

// The bytes of the lines of all listed entries.
pub fn entries_text_len(store: &[u64], size: Size, count: usize) -> usize
    requires { Sound size count store.now }
    ensures { (result ≡ length (entries_text size.n (map strip (listed size count store.now)))) × (result ≤ 256 * 12352) }
{
    let len = entries::entry_len(size);
    let mut bytes = 0;
    for i in 0..count {
        let e = words::stretch(store, len, i);
        bytes += entry_text_len(size, e[4]);
    }
    bytes
}

// The lines of all listed entries.
pub fn put_entries(out: &mut [u8], store: &[u64], size: Size, count: usize)
    requires sound { Sound size count store.now }
    requires out_len { length out.old ≡ length (entries_text size.n (map strip (listed size count store.now))) }
    ensures { out.new ≡ entries_text size.n (map strip (listed size count store.now)) }
{
    let len = entries::entry_len(size);
    let mut at = 0;
    for i in 0..count {
        let e = words::stretch(store, len, i);
        let end = at + entry_text_len(size, e[4]);
        put_entry(&mut out[at..end], e, size);
        at = end;
    }
}

// ---- the sheet

// The bytes of a sound sum's sheet.
pub fn sheet_len(h: Header, store: &[u64]) -> usize
    requires { Sound h.size h.count store.now }
    ensures { result ≡ length (sheet_text (sheet_on h store.now)) }
{
    let size = h.size;
    127 + entries_text_len(store, size, h.count)
}

// A sound sum's sheet.
pub fn put_sheet(out: &mut [u8], h: Header, store: &[u64])
    requires sound { Sound h.size h.count store.now }
    requires out_len { length out.old ≡ length (sheet_text (sheet_on h store.now)) }
    ensures { out.new ≡ sheet_text (sheet_on h store.now) }
{
    let size = h.size;
    let count = h.count;
    let threshold = words::bits_of(h.threshold);
    let cutoff = words::bits_of(h.cutoff);
    let first = [
        size.n as u64,
        size.k as u64,
        size.capacity as u64,
        count as u64,
        threshold,
        cutoff,
    ];
    put_line(&mut out[0..127], &first);
    put_entries(&mut out[127..], store, size, count);
}

// THE CALL: the sum's sheet at the start of `out`, what stands past it unchanged. 1, 2, 5, 8.
pub fn write_sheet(h: Header, store: &[u64], out: &mut [u8]) -> Answer
    ensures answer { result ≡ (Calls.step (Calls.sheet (length out.old)) (Calls.held h store.now)).answer }
    ensures output { out.new ≡ Calls.overlaid (Calls.step (Calls.sheet (length out.old)) (Calls.held h store.now)).output out.old }
{
    write_sheet_known(h, store, out, false)
}

// .. told whether all but the weights is known to be sound.
pub fn write_sheet_known(h: Header, store: &[u64], out: &mut [u8], known: bool) -> Answer
    requires { Known known (Calls.held h store.now) }
    ensures answer { result ≡ (Calls.step (Calls.sheet (length out.old)) (Calls.held h store.now)).answer }
    ensures output { out.new ≡ Calls.overlaid (Calls.step (Calls.sheet (length out.old)) (Calls.held h store.now)).output out.old }
{
    let number = checks::front(h, store, 0, known);
    if number != 0 {
        return answers::plain_answer(h, number);
    }
    let length = sheet_len(h, store);
    if out.len() < length {
        return answers::plain_answer(h, 8);
    }
    put_sheet(&mut out[0..length], h, store);
    answers::looked_answer(h, 0, length)
}
