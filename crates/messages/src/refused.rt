// What is said of a call that was refused, or that lost too much.
use calls::{Asked, Operation, Outgrown};
use circuit::Item;
use model::Header;
use passes::{Outcome, Pass};
use second_pass::{Block, Run, Stack};
use streams::STDERR_FILENO;

// What a number of the C interface means, in document 01's words, to a descriptor. Whether it was written.
pub fn write_number(fd: i32, number: u64) -> bool {
    let meaning: &[u8] = match number {
        1 =>
            b"n, K or capacity is outside its limits, or the store's length is not capacity x entry length",
        2 => b"the count is above the capacity, or threshold or cutoff is infinite or below 0",
        3 => b"a qubit is not below the number of qubits",
        4 => b"a rate is below 0 or above 1, or the rates' total is above 1",
        5 => b"a listed entry has a weight below 0 or above 1024, or a word that may not be there",
        6 => b"there would be more entries than --capacity allows before truncating",
        8 => b"the output has no room",
        9 => b"normalising would divide by a total of 0, or the list is empty",
        11 => b"there are no steps or no cutoffs, or more than 64 steps or 8 cutoffs",
        _ => b"it is no number that this call gives",
    };
    io::write_all(fd, meaning)
}

pub fn tell_number(number: u64) {
    write_number(STDERR_FILENO, number);
}

// ---- number 6: by how much the sum outgrew its room, and what to raise

fn tell_entries(entries: Option<Asked>, capacity: usize) {
    match entries {
        Some(Asked::Exactly(n)) if capacity < n => tell_more(n, n - capacity, b"", capacity),
        Some(Asked::AtMost(n)) if capacity < n => tell_more(n, n - capacity, b"up to ", capacity),
        _ => tell_number(6),
    }
}

// So many entries, and so many more than there may be; what stands before a number that may be less.
fn tell_more(entries: usize, more: usize, up_to: &[u8], capacity: usize) {
    printing::say(b"it would hold ");
    printing::say(up_to);
    printing::say_number(entries as u64);
    printing::say(b" entries before truncating, ");
    printing::say(up_to);
    printing::say_number(more as u64);
    printing::say(b" more than --capacity ");
    printing::say_number(capacity as u64);
}

fn tell_raise(o: Outgrown, capacity: usize) {
    printing::say(b"; raise --cutoff");
    if let Some(cutoff) = o.cutoff {
        printing::say(b" (this call fits with about ");
        printing::say_float(cutoff);
        printing::say(b")");
    }
    if capacity < 256 {
        printing::say(b" or --capacity");
        if let Some(Asked::Exactly(entries)) = o.entries {
            printing::say(b" (to ");
            printing::say_number(entries as u64);
            printing::say(b")");
        } else {
            printing::say(b" (to 256 at most)");
        }
    }
}

// The call is made again on copies of the sum, which it left as it was.
fn tell_outgrown(line: &[u8], h: Header, store: &[u64], scratch: &mut [u64], p: usize, q: usize) {
    let l = circuit::parse(line);
    let Item::Call(act) = l.item else {
        return;
    };
    let rates = l.rates;
    let o = Operation { act, rates, p, q };
    let by = calls::outgrown_by(h, store, scratch, o);
    tell_entries(by.entries, h.size.capacity);
    tell_raise(by, h.size.capacity);
    printing::say(b"\n");
}

// ---- the call

fn tell_qubits(p: usize, q: usize) {
    if p == q {
        printing::say(b" on qubit ");
        printing::say_number(p as u64);
        return;
    }
    printing::say(b" on qubits ");
    printing::say_number(p as u64);
    printing::say(b" ");
    printing::say_number(q as u64);
}

// An instruction's name as it is written.
fn tell_name(line: &[u8], from: usize, to: usize) {
    if let Some(name) = line.get(from..to) {
        printing::say(name);
    }
}

fn tell_repetition(block: Block) {
    printing::say(b" (line ");
    printing::say_number(block.line);
    printing::say(b": repetition ");
    printing::say_number(block.number);
    printing::say(b" of ");
    printing::say_number(block.times);
    printing::say(b")");
}

// Which repetition of each block that is open.
fn tell_repetitions(stack: &Stack, depth: usize) {
    for block in stack.iter().take(depth) {
        tell_repetition(*block);
    }
}

fn tell_refused(
    line: &[u8],
    r: Run,
    stack: &Stack,
    store: &[u64],
    scratch: &mut [u64],
    number: u64,
    p: usize,
    q: usize,
) {
    let pass = r.pass;
    tell_name(line, pass.from, pass.to);
    tell_qubits(p, q);
    tell_repetitions(stack, pass.depth);
    printing::say(b" was refused with ");
    printing::say_number(number);
    printing::say(b": ");
    if number == 6 {
        tell_outgrown(line, r.header, store, scratch, p, q);
        return;
    }
    tell_number(number);
    printing::say(b"\n");
}

// .. whose losses are more than --max-lost allows.
fn tell_lost(line: &[u8], pass: Pass, stack: &Stack, lost: f64) {
    tell_name(line, pass.from, pass.to);
    tell_repetitions(stack, pass.depth);
    printing::say(b": ");
    printing::say_float(lost);
    printing::say(
        b" of the initial weight is lost by now, more than --max-lost allows; lower --cutoff\n",
    );
}

// The line at which a run ended.
fn tell_line(line: &[u8], r: Run, stack: &Stack, store: &[u64], scratch: &mut [u64]) {
    match r.pass.outcome {
        Outcome::Refused(number, p, q) => {
            tell_refused(line, r, stack, store, scratch, number, p, q)
        }
        Outcome::TooMuchLost(lost) => tell_lost(line, r.pass, stack, lost),
        _ => printing::say(b"the run ended\n"),
    }
}

fn is_of_call(pass: Pass) -> bool {
    matches!(pass.outcome, Outcome::Refused(..) | Outcome::TooMuchLost(_))
}

// Why a run did not come to the circuit's end. `stack` has the blocks that are open; the store is as the run left it, and `scratch` is lent.
pub fn tell_run(
    name: &[u8],
    bytes: &[u8],
    r: Run,
    stack: &Stack,
    store: &[u64],
    scratch: &mut [u64],
) {
    let pass = r.pass;
    if !is_of_call(pass) {
        crate::tell(name, bytes, pass);
        return;
    }
    crate::tell_place(name, pass.line);
    if let Some(line) = bytes.get(pass.window.from..pass.window.to) {
        tell_line(line, r, stack, store, scratch);
    }
}
