// The second pass: the lines are run. `}` goes back to the line after its REPEAT while repetitions are left.
ghost use Rattle.std.specs.Prelude.{◌≡◌, ◌-◌, ◌≤◌, length, take, drop};
ghost use Rattle.model.specs.Calls.{held, step};
ghost use Rattle.model.specs.Known.{Known, known_after};
ghost use Rattle.model.specs.Demand3.{next};
ghost use Rattle.calls.specs.Instructions.{call_on};
ghost use Rattle.passes.specs.Turns.{Turn, Next, Passed};
ghost use Rattle.second_pass.specs.Lines.{calls_of, After, Made, LineRan};

use crate::blocks::Stack;
use crate::{blocks, trace};
use calls::Operation;
use circuit::{Act, Item, Line, Seen};
use input::{Found, Source, Window};
use model::{Answer, Header};
use passes::{Outcome, Pass};

// What the calls so far came to.
#[derive(Clone, Copy)]
pub struct Totals {
    pub calls: u64,
    pub merged: u64,
    pub stored: u64,
    pub dropped: u64,
    pub compared: u64,
    // The fraction of the initial weight.
    pub lost: f64,
}

// The pass, the sum's header, whether all but its weights is known to be sound, and what the calls came to.
#[derive(Clone, Copy)]
pub struct Run {
    pub pass: Pass,
    pub header: Header,
    pub known: bool,
    pub totals: Totals,
}

// What is wanted besides the sum: a line for each call; and how much of the initial weight may be lost.
#[derive(Clone, Copy)]
pub struct Wanted {
    pub trace: bool,
    pub most_lost: f64,
}

// ---- what a call came to

fn added(t: Totals, a: Answer, lost: f64) -> Totals {
    let c = a.counts;
    Totals {
        calls: passes::next(t.calls),
        merged: t.merged.saturating_add(c.merged as u64),
        stored: t.stored.saturating_add(c.stored as u64),
        dropped: t.dropped.saturating_add(c.dropped as u64),
        compared: t.compared.saturating_add(c.compared as u64),
        lost,
    }
}

fn with_pass(r: Run, pass: Pass) -> Run
    ensures { (result.pass ≡ pass) × (result.header ≡ r.header) × (result.known ≡ r.known) }
{
    Run { pass, ..r }
}

fn ended(r: Run, outcome: Outcome, from: usize, to: usize) -> Run
    ensures { (result.pass.outcome ≡ outcome) × (result.header ≡ r.header) × (result.known ≡ r.known) }
{
    with_pass(r, passes::ended(r.pass, outcome, from, to))
}

// ---- calls

// What has been lost of the initial weight after a call on a sum of this total.
fn lost_after(lost: f64, a: Answer, total: f64) -> f64 {
    calls::lost_after(lost, a.lost, total, 0 < a.counts.dropped, a.header.count)
}

// The weight that a call can lose a part of; 0 before one that can lose nothing.
fn weight_at_stake(r: Run, store: &[u64], act: Act) -> f64
    requires { Known r.known (held r.header store.now) }
{
    if calls::can_lose(act) {
        return calls::total(store, r.header, r.known);
    }
    0.0
}

// The run with its sum as a call left it.
fn with_answer(r: Run, a: Answer) -> Run
    ensures { (result.pass ≡ r.pass) × (result.header ≡ a.header) × (result.known ≡ known_after r.known a.number) }
{
    Run {
        header: a.header,
        known: checks::known_after(r.known, a.number),
        ..r
    }
}

// .. and with what that call, which was accepted, came to. It may have lost too much.
fn with_totals(r: Run, l: Line, a: Answer, lost: f64, most: f64) -> Run
    requires { r.pass.outcome ≡ Outcome.Going }
    ensures { After 0 result.pass.outcome × (result.header ≡ r.header) × (result.known ≡ r.known) }
{
    let next = Run {
        totals: added(r.totals, a, lost),
        ..r
    };
    if most < lost {
        return ended(next, Outcome::TooMuchLost(lost), l.from, l.to);
    }
    next
}

// One call, on a qubit or a pair.
fn call(line: &[u8], l: Line, o: Operation, store: &mut [u64], r: Run, wanted: Wanted) -> Run
    requires { (r.pass.outcome ≡ Outcome.Going) × Known r.known (held r.header store.old) }
    ensures is { held result.header store.new ≡ next (step (call_on o) (held r.header store.old)) }
    ensures stands { After (step (call_on o) (held r.header store.old)).answer.number result.pass.outcome }
    ensures known { Known result.known (held result.header store.new) }
{
    let total = weight_at_stake(r, store, o.act);
    let a = calls::make(r.header, store, o, r.known);
    let next = with_answer(r, a);
    let written = trace::write_if(wanted.trace, r.pass.line, line, l, o, a);
    if a.number != 0 {
        return ended(next, Outcome::Refused(a.number, o.p, o.q), l.from, l.to);
    }
    if !written {
        return ended(next, Outcome::Unwritten, 0, 0);
    }
    let lost = lost_after(r.totals.lost, a, total);
    with_totals(next, l, a, lost, wanted.most_lost)
}

// The calls of a line, target by target.
fn run_targets(line: &[u8], l: Line, act: Act, store: &mut [u64], r: Run, wanted: Wanted) -> Run
    requires { (r.pass.outcome ≡ Outcome.Going) × Known r.known (held r.header store.old) }
    ensures is { Made (calls_of act l.rates line.now l.targets) (held r.header store.old) (held result.header store.new) result.pass.outcome }
    ensures known { Known result.known (held result.header store.new) }
{
    let pairs = circuit::takes_pairs(act);
    let rates = l.rates;
    let mut run = r;
    let mut at = l.targets;
    loop {
        let t = circuit::target(line, at, pairs);
        let Seen::At(p, q) = t.seen else {
            return run;
        };
        let o = Operation { act, rates, p, q };
        run = call(line, l, o, store, run, wanted);
        if !passes::is_going(run.pass) {
            return run;
        }
        at = t.to;
    }
}

// ---- lines

fn run_item(line: &[u8], stack: &mut Stack, store: &mut [u64], r: Run, wanted: Wanted) -> Run
    requires { (r.pass.outcome ≡ Outcome.Going) × Known r.known (held r.header store.old) }
    ensures is { LineRan line.now (held r.header store.old) (held result.header store.new) result.pass.outcome }
    ensures known { Known result.known (held result.header store.new) }
{
    let l = circuit::parse(line);
    let made = r.totals.calls;
    match l.item {
        Item::Nothing => r,
        Item::Bad(fault) => ended(r, Outcome::Bad(fault), l.from, l.to),
        Item::Call(act) => run_targets(line, l, act, store, r, wanted),
        Item::Repeat(times) => {
            with_pass(r, blocks::opened(stack, r.pass, times, made, l.from, l.to))
        }
        Item::Close => with_pass(r, blocks::closed(stack, r.pass, made, l.from, l.to)),
    }
}

// What the window has found.
fn run_found(bytes: &[u8], stack: &mut Stack, store: &mut [u64], r: Run, wanted: Wanted) -> Run
    requires { (r.pass.window.from ≤ r.pass.window.to) × (r.pass.window.to ≤ length bytes.now) × (r.pass.outcome ≡ Outcome.Going) × Known r.known (held r.header store.old) }
    ensures is { Turn LineRan r.pass.window.found (take (r.pass.window.to - r.pass.window.from) (drop r.pass.window.from bytes.now)) (held r.header store.old) (held result.header store.new) result.pass.outcome }
    ensures known { Known result.known (held result.header store.new) }
{
    let Window {
        found,
        from,
        to,
        ..
    } = r.pass.window;
    match found {
        Found::Line => run_item(&bytes[from..to], stack, store, r, wanted),
        Found::End => ended(r, Outcome::Done, 0, 0),
        Found::TooLong => ended(r, Outcome::TooLong, 0, 0),
        Found::Failed => ended(r, Outcome::Failed, 0, 0),
        Found::Cut => ended(r, Outcome::Cut, 0, 0),
    }
}

// The next line.
fn run_line(
    s: &Source,
    bytes: &mut [u8],
    stack: &mut Stack,
    store: &mut [u64],
    r: Run,
    wanted: Wanted,
) -> Run
    requires { Known r.known (held r.header store.old) }
    ensures is { Next LineRan (held r.header store.old) (held result.header store.new) result.pass.outcome }
    ensures known { Known result.known (held result.header store.new) }
{
    let window = input::next_line(s, bytes, r.pass.window);
    let next = with_pass(r, passes::moved(r.pass, window));
    run_found(bytes, stack, store, next, wanted)
}

// A sum that is empty from the start has lost everything.
fn start(header: Header, known: bool) -> Run
    ensures { (result.pass.outcome ≡ Outcome.Going) × (result.header ≡ header) × (result.known ≡ known) }
{
    Run {
        pass: passes::start(),
        header,
        known,
        totals: Totals {
            calls: 0,
            merged: 0,
            stored: 0,
            dropped: 0,
            compared: 0,
            lost: calls::lost_at_start(header.count),
        },
    }
}

// The whole circuit, told whether all but the weights is known to be sound: what is left of the sum are the calls of the lines that were
// read, made on it in order, up to the first that was refused. `stack` has the blocks that are open where it ends.
pub fn run_all(
    s: &Source,
    bytes: &mut [u8],
    stack: &mut Stack,
    store: &mut [u64],
    header: Header,
    known: bool,
    wanted: Wanted,
) -> Run
    requires { Known known (held header store.old) }
    ensures { Passed LineRan (held header store.old) (held result.header store.new) result.pass.outcome }
{
    let mut r = start(header, known);
    for _ in 0..u64::MAX {
        r = run_line(s, bytes, stack, store, r, wanted);
        if !passes::is_going(r.pass) {
            return r;
        }
    }
    r
}
