// What is printed at the end of a run: the sheet, the page or the table, and the summary.
use model::{Answer, Header};
use second_pass::Run;
use std::io::Result;
use streams::{STDERR_FILENO, STDOUT_FILENO};

pub fn tell_refused(what: &[u8], number: u64) {
    printing::say(b"run_circuit: ");
    printing::say(what);
    printing::say(b" was refused with ");
    printing::say_number(number);
    printing::say(b": ");
    messages::tell_number(number);
    printing::say(b"\n");
}

// Whether something was written to standard output; else it is said why not.
pub fn is_written(written: bool) -> bool {
    if !written {
        printing::say_failed(b"run_circuit: standard output");
    }
    written
}

// .. brought to where it is kept.
pub fn is_kept(kept: Result<()>) -> bool {
    match kept {
        Ok(()) => true,
        Err(e) => {
            printing::say_why(b"run_circuit: standard output", e);
            false
        }
    }
}

// The text that a call gave this answer for, printed. Whether it was written; else it is said why not. (No call writes more than it has room
// for.)
fn write_text(what: &[u8], a: Answer, text: &[u8]) -> bool {
    if a.number != 0 {
        tell_refused(what, a.number);
        return false;
    }
    if let Some(written) = text.get(..a.length) {
        return is_written(io::write_all(STDOUT_FILENO, written));
    }
    printing::say(b"run_circuit: ");
    printing::say(what);
    printing::say(b" is longer than the room for it\n");
    false
}

// ---- the sheet

// Room for the largest: a line of 6 fields, and for each of 256 entries lines of 3 fields for itself, its coefficient and 128 rows. A field
// has 21 columns, and a line its end: 127 + 256 * 130 * 64.
fn sheet_room() -> [u8; 2_130_047] {
    [0u8; 2_130_047]
}

// Whether it was written.
pub fn write_sheet(h: Header, store: &[u64]) -> bool {
    let mut out = sheet_room();
    let a = sheet::write_sheet(h, store, &mut out);
    write_text(b"the sheet", a, &out)
}

// ---- the page

// Whether it was written. There is room for the largest: 256 lines of 35 bytes.
pub fn write_page(h: Header, store: &[u64]) -> bool {
    let mut out = [0u8; 8960];
    let a = page::write_page(h, store, &mut out);
    write_text(b"the page", a, &out)
}

// ---- the table

fn word_at(words: &[u64], at: usize) -> u64 {
    words.get(at).copied().unwrap_or(0)
}

// The weight bits of the entry at a place.
fn weight_at(store: &[u64], h: Header, place: u64) -> u64 {
    word_at(store, calls::words(h.size.n, place as usize))
}

fn write_entry(place: u64, weight: u64, total: u64) -> bool {
    let mut row = printing::row();
    let first = printing::put_number(&mut row, 0, place, 7);
    let second = printing::put_float(&mut row, first, words::float_of(weight));
    let third = printing::put_float(&mut row, second, words::float_of(total));
    let fourth = printing::put_bits(&mut row, third, weight);
    let end = printing::put_bits(&mut row, fourth, total);
    printing::write(STDOUT_FILENO, &mut row, end)
}

fn write_entries(h: Header, store: &[u64], table: &[u64], count: usize) -> bool {
    for entry in table.chunks_exact(2).take(count) {
        let [place, total] = *entry else {
            return false;
        };
        if !write_entry(place, weight_at(store, h, place), total) {
            return false;
        }
    }
    true
}

pub fn write_table(h: Header, store: &[u64]) -> bool {
    let mut table = [0u64; 512];
    let a = table::table(h, store, &mut table);
    if a.number != 0 {
        tell_refused(b"the table", a.number);
        return false;
    }
    let head = io::write_all(
        STDOUT_FILENO,
        b"# place weight         running_total  weight_bits      running_total_bits\n",
    );
    is_written(head && write_entries(h, store, &table, a.length / 2))
}

// ---- the summary: each of these answers whether it was written

// A sum without entries has lost everything, and no other sign of it.
pub fn say_if_empty(h: Header) -> bool {
    if h.count != 0 {
        return true;
    }
    io::write_all(
        STDERR_FILENO,
        b"run_circuit: all of the initial weight was lost: no weight was above the cutoff, and the sum has no entry\n",
    )
}

fn say_count(name: &[u8], v: u64) -> bool {
    let mut row = printing::row();
    let at = printing::put_left(&mut row, 0, name, 10);
    let end = printing::put_digits(&mut row, at, v);
    printing::write(STDERR_FILENO, &mut row, printing::after(at, end, 1))
}

fn say_lost(x: f64) -> bool {
    let mut row = printing::row();
    let at = printing::put_left(&mut row, 0, b"lost", 10);
    let text = printing::put_float(&mut row, at, x);
    let end = printing::put_left(&mut row, text, b"of the initial weight", 21);
    printing::write(STDERR_FILENO, &mut row, end)
}

pub fn say_summary(r: Run) -> bool {
    let h = r.header;
    let t = r.totals;
    say_count(b"qubits", h.size.n as u64)
        && say_count(b"calls", t.calls)
        && say_count(b"entries", h.count as u64)
        && say_count(b"merged", t.merged)
        && say_count(b"stored", t.stored)
        && say_count(b"dropped", t.dropped)
        && say_count(b"compared", t.compared)
        && say_lost(t.lost)
}
