// The first pass: every line is parsed, its rates are judged, blocks are matched, and the qubits counted. It stands still at each line that
// is bad, and can go on from there.
#![tactic(auto)]

use circuit::{Act, Fault, Item, Line};
use input::{Found, Source};
use passes::{Outcome, Pass};

// The pass, and how many qubits the lines so far need.
#[derive(Clone, Copy)]
pub struct Checked {
    pub pass: Pass,
    pub qubits: usize,
}

// Nothing is looked at yet.
pub fn start() -> Checked {
    Checked {
        pass: passes::start(),
        qubits: 0,
    }
}

// The pass goes on after a bad line.
pub fn resumed(c: Checked) -> Checked {
    with_pass(c, passes::resumed(c.pass))
}

fn with_pass(c: Checked, pass: Pass) -> Checked {
    Checked { pass, ..c }
}

fn ended(c: Checked, outcome: Outcome, from: usize, to: usize) -> Checked {
    with_pass(c, passes::ended(c.pass, outcome, from, to))
}

// ---- calls

// The rates of a call.
fn check_rates(l: Line, act: Act, c: Checked) -> Checked {
    if calls::rates_sound(act, l.rates) {
        return c;
    }
    ended(c, Outcome::Rates, l.from, l.targets)
}

// The targets of a call, of which all are below `limit`, and its rates.
fn check_call(line: &[u8], l: Line, act: Act, c: Checked, limit: usize) -> Checked {
    let r = circuit::reach(line, l.targets, circuit::takes_pairs(act), limit);
    if let Err(fault) = r.verdict {
        return ended(c, Outcome::Bad(fault), r.from, r.to);
    }
    let reached = Checked {
        qubits: c.qubits.max(r.qubits),
        ..c
    };
    check_rates(l, act, reached)
}

// ---- blocks: `begun` has the line of each REPEAT that is open, of the first 64; fixed memory: the pass counts them

// One more block is open.
fn deeper(pass: Pass) -> Pass {
    passes::at_depth(pass, pass.depth.saturating_add(1))
}

// A block begins.
fn open(begun: &mut [u64; 64], pass: Pass, from: usize, to: usize) -> Pass {
    if pass.depth < begun.len() {
        begun[pass.depth] = pass.line;
        return deeper(pass);
    }
    passes::ended(deeper(pass), Outcome::TooDeep, from, to)
}

// .. ends.
fn close(pass: Pass, from: usize, to: usize) -> Pass {
    match pass.depth.checked_sub(1) {
        Some(depth) => passes::at_depth(pass, depth),
        None => passes::ended(pass, Outcome::NoRepeat, from, to),
    }
}

// A bad line that begins a block or ends one still does, so that the other end is not told as bad for it.
fn matched(line: &[u8], begun: &mut [u64; 64], pass: Pass, fault: Fault) -> Pass {
    match fault {
        Fault::After if circuit::is_closing(line) => close(pass, 0, 0),
        Fault::Repeats | Fault::After => open(begun, pass, 0, 0),
        _ => pass,
    }
}

// ---- lines

fn check_item(line: &[u8], begun: &mut [u64; 64], c: Checked, limit: usize) -> Checked {
    let l = circuit::parse(line);
    match l.item {
        Item::Nothing => c,
        Item::Bad(fault) => {
            let after = with_pass(c, matched(line, begun, c.pass, fault));
            ended(after, Outcome::Bad(fault), l.from, l.to)
        }
        Item::Call(act) => check_call(line, l, act, c, limit),
        Item::Repeat(_) => with_pass(c, open(begun, c.pass, l.from, l.to)),
        Item::Close => with_pass(c, close(c.pass, l.from, l.to)),
    }
}

// The line of the innermost block that is open, of the first 64; 0 if none is.
fn innermost(begun: &[u64; 64], depth: usize) -> u64 {
    begun.iter().take(depth).last().copied().unwrap_or(0)
}

// At the circuit's end no block is open.
fn check_end(begun: &[u64; 64], c: Checked) -> Checked {
    let depth = c.pass.depth;
    if 0 < depth {
        return ended(c, Outcome::Unclosed(innermost(begun, depth)), 0, 0);
    }
    ended(c, Outcome::Done, 0, 0)
}

fn check_line(
    s: &Source,
    bytes: &mut [u8],
    begun: &mut [u64; 64],
    c: Checked,
    limit: usize,
) -> Checked {
    let window = input::next_line(s, bytes, c.pass.window);
    let next = with_pass(c, passes::moved(c.pass, window));
    match window.found {
        Found::Line => check_item(&bytes[window.from..window.to], begun, next, limit),
        Found::End => check_end(begun, next),
        Found::TooLong => ended(next, Outcome::TooLong, 0, 0),
        Found::Failed => ended(next, Outcome::Failed, 0, 0),
        Found::Cut => ended(next, Outcome::Cut, 0, 0),
    }
}

// The lines up to the next bad one, or to the circuit's end. A proved loop has to end, and nothing says that a file does: the turns are
// counted down from a number that no run uses up.
pub fn check(
    s: &Source,
    bytes: &mut [u8],
    begun: &mut [u64; 64],
    so_far: Checked,
    limit: usize,
) -> Checked {
    let mut c = so_far;
    for _ in 0..u64::MAX {
        c = check_line(s, bytes, begun, c, limit);
        if !passes::is_going(c.pass) {
            return c;
        }
    }
    c
}
