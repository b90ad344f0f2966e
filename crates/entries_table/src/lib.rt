// The table of tried cutoffs: a row for each step, a column for each cutoff, with the entries after the step or, from the step on that was
// refused, `!` and the number; and then a line for each trial that ended early or lost everything. Each of these answers whether it was written.
#![tactic(auto)]

ghost use Rattle.std.specs.Prelude.{◌<◌};

use options::Cutoffs;
use std::env::Env;
use step_pass::Step;
use streams::STDOUT_FILENO;

const WIDTH: usize = 14;

// ---- what the call gave

// Where the place of a step begins, of `count` for each cutoff.
fn place_of(cutoff: usize, step: usize, count: usize) -> usize
    ensures { result < 1023 }
{
    if cutoff < 8 && step < 64 && count <= 64 {
        return 2 * (cutoff * count + step);
    }
    0
}

// The entries after a step, or the number that it was refused with.
fn shown_at(out: &[u64; 1024], cutoff: usize, step: usize, count: usize) -> Result<u64, u64> {
    let at = place_of(cutoff, step, count);
    match out[at] {
        0 => Ok(out[at + 1]),
        number => Err(number),
    }
}

// ---- the head

// A cutoff as it was given or, where that is wider than a column, as floats are printed.
fn put_cutoff(row: &mut [u8; 256], at: usize, list: &[u8], c: Cutoffs, i: usize) -> usize {
    if 8 <= i {
        return at;
    }
    match list.get(c.from[i]..c.to[i]) {
        Some(given) if given.len() <= WIDTH => printing::put(row, at, given),
        _ => printing::put_float_alone(row, at, c.values[i]),
    }
}

fn write_head(list: &[u8], c: Cutoffs) -> bool {
    let mut row = printing::row();
    let mut at = printing::put_left(&mut row, 0, b"# step   line instruction      qubit", 36);
    for i in 0..c.count {
        let mut cell = printing::row();
        let end = put_cutoff(&mut cell, 0, list, c, i);
        at = printing::put_part(&mut row, at, &cell, end, WIDTH);
    }
    printing::write(STDOUT_FILENO, &mut row, at)
}

// ---- the rows

fn put_step(row: &mut [u8; 256], number: u64, step: Step) -> usize {
    let line = printing::put_number(row, 0, number, 6);
    let instruction = printing::put_number(row, line, step.line, 6);
    let qubit = printing::put_left(row, instruction, &step.name, 16);
    printing::put_number(row, qubit, step.qubit as u64, 5)
}

fn put_shown(row: &mut [u8; 256], at: usize, shown: Result<u64, u64>) -> usize {
    match shown {
        Ok(entries) => printing::put_number(row, at, entries, WIDTH),
        Err(number) => {
            let mut cell = printing::row();
            let digits = printing::put_byte(&mut cell, 0, b'!');
            let end = printing::put_digits(&mut cell, digits, number);
            printing::put_part(row, at, &cell, end, WIDTH)
        }
    }
}

fn write_row(step: Step, i: usize, count: usize, cutoffs: usize, out: &[u64; 1024]) -> bool {
    let mut row = printing::row();
    let mut at = put_step(&mut row, passes::next(i as u64), step);
    for cutoff in 0..cutoffs {
        at = put_shown(&mut row, at, shown_at(out, cutoff, i, count));
    }
    printing::write(STDOUT_FILENO, &mut row, at)
}

fn write_rows(steps: &[Step], cutoffs: usize, out: &[u64; 1024]) -> bool {
    for (i, step) in steps.iter().enumerate() {
        if !write_row(*step, i, steps.len(), cutoffs, out) {
            return false;
        }
    }
    true
}

// ---- the trials that ended early or lost everything

// The row up to what is said of the step.
fn put_ended(
    row: &mut [u8; 256],
    list: &[u8],
    c: Cutoffs,
    i: usize,
    number: u64,
    step: Step,
) -> usize {
    let mut at = printing::put(row, 0, b"# cutoff ");
    at = put_cutoff(row, at, list, c, i);
    at = printing::put(row, at, b": step ");
    at = printing::put_digits(row, at, number);
    at = printing::put(row, at, b" (line ");
    at = printing::put_digits(row, at, step.line);
    at = printing::put(row, at, b", qubit ");
    at = printing::put_digits(row, at, step.qubit as u64);
    printing::put(row, at, b") ")
}

// Cutoff i, whose trial ended with a step that was given this number.
fn write_refused(list: &[u8], c: Cutoffs, i: usize, at: usize, step: Step, number: u64) -> bool {
    let mut row = printing::row();
    let said = put_ended(&mut row, list, c, i, passes::next(at as u64), step);
    let digits = printing::put(&mut row, said, b"was refused with ");
    let colon = printing::put_digits(&mut row, digits, number);
    let end = printing::put(&mut row, colon, b": ");
    printing::write_up_to(STDOUT_FILENO, &row, end)
        && messages::write_number(STDOUT_FILENO, number)
        && io::write_all(STDOUT_FILENO, b"\n")
}

// .. whose trial has no entry from a step on: a count of 0 alone would not say so.
fn write_empty(list: &[u8], c: Cutoffs, i: usize, at: usize, step: Step) -> bool {
    let mut row = printing::row();
    let said = put_ended(&mut row, list, c, i, passes::next(at as u64), step);
    let end = printing::put(
        &mut row,
        said,
        b"ends with no entry: all of the weight is lost\n",
    );
    printing::write_up_to(STDOUT_FILENO, &row, end)
}

// .. if it shows a step that was refused, or one after which no entry is left.
fn write_end(list: &[u8], c: Cutoffs, i: usize, steps: &[Step], out: &[u64; 1024]) -> bool {
    for (at, step) in steps.iter().enumerate() {
        match shown_at(out, i, at, steps.len()) {
            Ok(0) => return write_empty(list, c, i, at, *step),
            Err(number) => return write_refused(list, c, i, at, *step, number),
            Ok(_) => {}
        }
    }
    true
}

fn write_ends(list: &[u8], c: Cutoffs, steps: &[Step], out: &[u64; 1024]) -> bool {
    for i in 0..c.count {
        if !write_end(list, c, i, steps, out) {
            return false;
        }
    }
    true
}

// ---- all of it

// The list of cutoffs is taken from the arguments again, as it was given.
pub fn write(rt: &impl Env, steps: &[Step], c: Cutoffs, out: &[u64; 1024]) -> bool {
    let mut list = io::buffer();
    let n = options::value_of(rt, options::place_of(rt, b"--try-cutoffs"), &mut list);
    write_head(&list[..n], c)
        && write_rows(steps, c.count, out)
        && write_ends(&list[..n], c, steps, out)
}
