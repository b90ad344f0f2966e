// Cutoffs tried: the steps of a circuit are gathered, one call makes all trials, and the table is printed.
use crate::outputs;
use input::Source;
use model::Size;
use options::Cutoffs;
use std::env::Env;
use step_pass::Gathered;

// It is said that the call was refused with a number.
fn refused(number: u64) -> bool {
    outputs::tell_refused(b"the call that tries the cutoffs", number);
    false
}

// Steps that there are, tried. Whether the table is written; else it is said why not.
fn try_steps(
    rt: &impl Env,
    g: Gathered,
    store: &mut [u64],
    size: Size,
    threshold: f64,
    c: Cutoffs,
) -> bool {
    let mut out = [0u64; 1024];
    let (Some(steps), Some(values)) = (g.steps.get(..g.count), c.values.get(..c.count)) else {
        return refused(11);
    };
    let number = step_pass::try_cutoffs(size, threshold, values, g, store, &mut out);
    if number != 0 {
        return refused(number);
    }
    outputs::is_written(entries_table::write(rt, steps, c, &out))
}

// The steps of a circuit that was looked at, in a store of the length that its size has.
pub fn run(
    rt: &impl Env,
    source: &Source,
    name: &[u8],
    bytes: &mut [u8],
    store: &mut [u64],
    size: Size,
    threshold: f64,
    c: Cutoffs,
) -> bool {
    let g = step_pass::gather(source, bytes);
    if !passes::is_done(g.pass) {
        messages::tell(name, bytes, g.pass);
        return false;
    }
    if g.count == 0 {
        printing::say(name);
        printing::say(
            b": there is no step to try cutoffs on, since no instruction has a target: nothing was run\n",
        );
        return false;
    }
    try_steps(rt, g, store, size, threshold, c)
}
