// The targets of a line: qubits, or pairs of qubits.
ghost use Rattle.std.specs.Prelude.{◌≡◌, ◌≤◌, ◌<◌, length};
ghost use Rattle.circuit.specs.Places.{Stepped, Onward};
ghost use Rattle.circuit.specs.Targets as Targets;

use crate::runs::Run;
use crate::{Fault, Reach, Seen, Target, numbers, runs};
use decimal::DecimalError;

fn bad(fault: Fault, from: usize, to: usize) -> Target
    ensures { result ≡ Targets.bad fault from to }
{
    Target {
        seen: Seen::Bad(fault),
        from,
        to,
    }
}

// The qubit of a number, if there is one.
#[tactic(auto, unfolding(crate::specs::Targets::qubit_of))]
fn qubit_of(v: u64, from: usize, to: usize) -> Target
    ensures { result ≡ Targets.qubit_of (Ok v) from to }
{
    if 64 <= v {
        return bad(Fault::Range, from, to);
    }
    let q = v as usize;
    Target {
        seen: Seen::At(q, q),
        from,
        to,
    }
}

// The qubit at a place, where there is something.
#[tactic(auto, unfolding(crate::specs::Targets::qubit_at, crate::specs::Targets::qubit_in, crate::specs::Targets::qubit_of))]
fn qubit_at(line: &[u8], from: usize) -> Target
    requires { from ≤ length line.now }
    ensures { result ≡ Targets.qubit_at line.now from }
{
    let word = runs::end(line, Run::Word, from);
    let c = numbers::whole_at(line, from);
    if c.end != word || word == from {
        return bad(Fault::Qubit, from, word);
    }
    match c.value {
        Ok(v) => qubit_of(v, from, word),
        Err(DecimalError::TooLarge) => bad(Fault::Range, from, word),
        Err(_) => bad(Fault::Qubit, from, word),
    }
}

// The next qubit.
#[tactic(auto, unfolding(crate::specs::Targets::next_qubit, crate::specs::Targets::qubit_from))]
fn next_qubit(line: &[u8], at: usize) -> Target
    requires { at ≤ length line.now }
    ensures { result ≡ Targets.next_qubit line.now at }
{
    let from = runs::end(line, Run::Blanks, at);
    if runs::is_end(line, from) {
        return Target {
            seen: Seen::End,
            from,
            to: from,
        };
    }
    qubit_at(line, from)
}

// The second qubit of a pair.
#[tactic(auto, unfolding(crate::specs::Targets::second_at, crate::specs::Targets::pair_with))]
fn second(line: &[u8], p: usize, from: usize, at: usize) -> Target
    requires { at ≤ length line.now }
    ensures { result ≡ Targets.second_at line.now p from at }
{
    let b = next_qubit(line, at);
    match b.seen {
        Seen::End => bad(Fault::Half, from, at),
        Seen::Bad(fault) => bad(fault, b.from, b.to),
        Seen::At(q, _) => pair_of(p, q, from, b.to),
    }
}

// Two qubits, if they differ.
#[tactic(auto, unfolding(crate::specs::Targets::pair_of))]
fn pair_of(p: usize, q: usize, from: usize, to: usize) -> Target
    ensures { result ≡ Targets.pair_of p q from to }
{
    if p == q {
        return bad(Fault::Same, from, to);
    }
    Target {
        seen: Seen::At(p, q),
        from,
        to,
    }
}

// The next pair.
#[tactic(auto, unfolding(crate::specs::Targets::next_pair, crate::specs::Targets::pair_after))]
fn next_pair(line: &[u8], at: usize) -> Target
    requires { at ≤ length line.now }
    ensures { result ≡ Targets.next_pair line.now at }
{
    let a = next_qubit(line, at);
    match a.seen {
        Seen::At(p, _) => second(line, p, a.from, a.to),
        _ => a,
    }
}

// The next qubit or pair.
#[tactic(auto, unfolding(crate::specs::Targets::target_at))]
fn next(line: &[u8], at: usize, pairs: bool) -> Target
    requires { at ≤ length line.now }
    ensures stepped { Stepped (length line.now) at result }
    ensures is { result ≡ Targets.target_at pairs line.now at }
{
    if pairs {
        return next_pair(line, at);
    }
    next_qubit(line, at)
}

// What the next call is on, from a place on: a qubit, as both of `At`, or a pair; and from where to where it stands.
pub fn target(line: &[u8], at: usize, pairs: bool) -> Target
    ensures onward { Onward (length line.now) at result }
    ensures is { result ≡ Targets.target_at pairs line.now at }
{
    if at <= line.len() {
        return next(line, at, pairs);
    }
    Target {
        seen: Seen::End,
        from: at,
        to: at,
    }
}

fn reached(verdict: Result<(), Fault>, qubits: usize, from: usize, to: usize) -> Reach
    ensures { (result.qubits ≡ qubits) × (result.from ≡ from) × (result.to ≡ to) }
{
    Reach {
        verdict,
        qubits,
        from,
        to,
    }
}

// The targets from a place on, which lies in the line.
fn reach_from(line: &[u8], from: usize, pairs: bool, limit: usize) -> Reach
    requires { from ≤ length line.now }
    ensures { (result.qubits ≤ 64) × (result.from ≤ result.to) × (result.to ≤ length line.now) }
{
    let mut qubits = 0;
    let mut at = from;
    loop {
        let t = next(line, at, pairs);
        let (p, q) = match t.seen {
            Seen::At(p, q) => (p, q),
            Seen::Bad(fault) => return reached(Err(fault), qubits, t.from, t.to),
            Seen::End => return reached(Ok(()), qubits, t.from, t.to),
        };
        at = t.to;
        qubits = qubits.max(p + 1).max(q + 1);
        if limit < qubits {
            return reached(Err(Fault::Outside(limit)), qubits, t.from, at);
        }
    }
}

// All targets of a line, where there are `limit` qubits: how many of these they need, or the first fault.
pub fn reach(line: &[u8], targets: usize, pairs: bool, limit: usize) -> Reach
    ensures { (result.qubits ≤ 64) × (result.from ≤ result.to) × (targets ≤ length line.now → result.to ≤ length line.now) }
{
    if targets <= line.len() {
        return reach_from(line, targets, pairs, limit);
    }
    reached(Ok(()), 0, targets, targets)
}
