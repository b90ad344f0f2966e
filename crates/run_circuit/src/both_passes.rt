// Both passes over a circuit: its lines are looked at, and then run from a fresh sum on, or tried with several cutoffs.
ghost use Rattle.model.specs.Calls.{held};
ghost use Rattle.model.specs.Known.{Checked};

use crate::{outputs, trying};
use input::Source;
use model::{Header, Size};
use options::{Cutoffs, Output};
use second_pass::Wanted;
use std::env::Env;
use streams::STDERR_FILENO;

// What the options say. No `qubits`: as many as the circuit needs. `cutoffs` of which there are none: the circuit is run.
#[derive(Clone, Copy)]
pub struct Setup {
    pub qubits: Option<usize>,
    pub capacity: usize,
    pub threshold: f64,
    pub cutoff: f64,
    pub cutoffs: Cutoffs,
    pub most_lost: f64,
    pub output: Output,
    pub quiet: bool,
}

// ---- the first pass

const MOST_TOLD: usize = 20;

// How many qubits the lines need, if all are good. Bad lines are told, the first 20 of them.
fn look(s: &Source, name: &[u8], bytes: &mut [u8], limit: usize) -> Option<usize> {
    let mut begun = [0u64; 64];
    let mut c = first_pass::start();
    for told in 0..MOST_TOLD {
        c = first_pass::check(s, bytes, &mut begun, c, limit);
        if passes::is_done(c.pass) {
            return (told == 0).then_some(c.qubits);
        }
        messages::tell(name, bytes, c.pass);
        if !passes::can_go_on(c.pass) {
            return None;
        }
        c = first_pass::resumed(c);
    }
    c = first_pass::check(s, bytes, &mut begun, c, limit);
    if !passes::is_done(c.pass) {
        printing::say(b"run_circuit: more than 20 lines are bad; the others are not told\n");
    }
    None
}

// ---- the second pass

fn is_trace(output: Output) -> bool {
    matches!(output, Output::Trace)
}

// The sum's last state, printed.
fn print(output: Output, h: Header, store: &[u64]) -> bool {
    match output {
        Output::Sheet => outputs::write_sheet(h, store),
        Output::Page => outputs::write_page(h, store),
        Output::Table => outputs::write_table(h, store),
        Output::Trace => true,
    }
}

// The circuit run from a fresh sum on. Whether all that was asked for is written.
fn run_from(
    source: &Source,
    name: &[u8],
    bytes: &mut [u8],
    store: &mut [u64],
    scratch: &mut [u64],
    h: Header,
    s: Setup,
) -> bool
    requires { Checked (held h store.old) }
{
    let mut stack = second_pass::stack();
    let wanted = Wanted {
        trace: is_trace(s.output),
        most_lost: s.most_lost,
    };
    let r = second_pass::run_all(source, bytes, &mut stack, store, h, true, wanted);
    if !passes::is_done(r.pass) {
        messages::tell_run(name, bytes, r, &stack, store, scratch);
        return false;
    }
    print(s.output, r.header, store)
        && outputs::say_if_empty(r.header)
        && (s.quiet || outputs::say_summary(r))
}

// Whether the fresh sum may be run, and the head of a trace is written.
fn may_run(h: Header, s: Setup) -> bool {
    if s.most_lost < calls::lost_at_start(h.count) {
        printing::say(
            b"run_circuit: the fresh sum's weight 1 is not above the cutoff: all of it is lost, more than --max-lost allows\n",
        );
        return false;
    }
    !is_trace(s.output) || outputs::is_written(second_pass::write_head())
}

fn size_of(n: usize, s: Setup) -> Size {
    Size {
        n,
        k: 1,
        capacity: s.capacity,
    }
}

// Words of the largest store: 256 entries of 64 qubits, 8 + 6 * 64 words each.
fn store_room() -> [u64; 100_352] {
    [0u64; 100_352]
}

// From a fresh sum on, in a store of the length that its size has. Not inlined: there is room for a sheet in it, which a run that tries cutoffs
// does without.
#[inline(never)]
fn run_fresh(
    source: &Source,
    name: &[u8],
    bytes: &mut [u8],
    store: &mut [u64],
    scratch: &mut [u64],
    n: usize,
    s: Setup,
) -> bool {
    let a = fresh::fresh(size_of(n, s), s.threshold, s.cutoff, store);
    if a.number != 0 {
        outputs::tell_refused(b"the fresh sum", a.number);
        return false;
    }
    may_run(a.header, s) && run_from(source, name, bytes, store, scratch, a.header, s)
}

// .. and another one of the largest length, where it is tried by how much a call outgrew its room.
fn run_in_stores(source: &Source, name: &[u8], bytes: &mut [u8], n: usize, s: Setup) -> bool {
    let mut store = store_room();
    let mut scratch = store_room();
    let end = calls::words(n, s.capacity);
    run_fresh(source, name, bytes, &mut store[0..end], &mut scratch, n, s)
}

// .. or tried there.
fn try_in_store(
    rt: &impl Env,
    source: &Source,
    name: &[u8],
    bytes: &mut [u8],
    n: usize,
    s: Setup,
) -> bool {
    let mut store = store_room();
    let end = calls::words(n, s.capacity);
    trying::run(
        rt,
        source,
        name,
        bytes,
        &mut store[0..end],
        size_of(n, s),
        s.threshold,
        s.cutoffs,
    )
}

// ---- both

// A circuit without a target makes no call. That is told; and where nothing says how many qubits there are, there is no sum either.
fn may_be_empty(name: &[u8], s: Setup) -> bool {
    if s.qubits.is_none() {
        printing::say(name);
        printing::say(
            b": the circuit makes no call, since no instruction has a target, and there is no --qubits: nothing was run\n",
        );
        return false;
    }
    io::write_all(STDERR_FILENO, name)
        && io::write_all(
            STDERR_FILENO,
            b": the circuit makes no call, since no instruction has a target: this is the fresh sum\n",
        )
}

// Whether all that was asked for is written; else it was said why not.
pub fn run(rt: &impl Env, source: &Source, name: &[u8], bytes: &mut [u8], s: Setup) -> bool {
    let Some(needed) = look(source, name, bytes, s.qubits.unwrap_or(64)) else {
        return false;
    };
    let n = s.qubits.unwrap_or(needed);
    if s.cutoffs.count != 0 {
        return try_in_store(rt, source, name, bytes, n, s);
    }
    (needed != 0 || may_be_empty(name, s)) && run_in_stores(source, name, bytes, n, s)
}
