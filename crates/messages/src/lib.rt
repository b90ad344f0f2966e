// What is said of a pass that ended before the circuit's end: where, which word is at fault, what was expected, and what to do.
#![tactic(auto)]

mod refused;
mod stim;

use circuit::Fault;
use passes::{Outcome, Pass};
pub use refused::{tell_number, tell_run, write_number};

pub fn tell_place(name: &[u8], line: u64) {
    printing::say(name);
    printing::say(b":");
    printing::say_number(line);
    printing::say(b": ");
}

// The word, or where there is none.
fn tell_word(line: &[u8], from: usize, to: usize) {
    if from < to {
        printing::say_word(line, from, to);
    } else {
        printing::say(b"at the end of the line");
    }
    printing::say(b": ");
}

// ---- bad lines

fn tell_arguments(count: usize) {
    match count {
        0 => printing::say(b"this instruction has no arguments"),
        1 => printing::say(b"one argument was expected, in round brackets after the name"),
        _ => {
            printing::say_number(count as u64);
            printing::say(b" arguments were expected, in round brackets after the name");
        }
    }
}

fn tell_outside(limit: usize) {
    printing::say(b"a qubit below ");
    printing::say_number(limit as u64);
    printing::say(b" was expected (--qubits ");
    printing::say_number(limit as u64);
    printing::say(b")");
}

// What was expected.
fn tell_fault(fault: Fault) {
    match fault {
        Fault::Name => stim::say_instructions(),
        Fault::Tag => printing::say(b"the tag has no `]` on its line"),
        Fault::LossTag => printing::say(
            b"I_ERROR is taken with the tag loss only, as I_ERROR[loss](p)",
        ),
        Fault::ResetTag => printing::say(
            b"I is taken with the tag reset_loss only, as I[reset_loss]",
        ),
        Fault::Number => printing::say(b"a decimal number was expected"),
        Fault::Digits => printing::say(
            b"at most 19 significant digits are taken, so that the rate is rounded once",
        ),
        Fault::Infinite => printing::say(b"a number below 1.8e308 was expected"),
        Fault::Bracket => printing::say(b"`,` or `)` was expected after the number"),
        Fault::Arguments(count) => tell_arguments(count),
        Fault::Blank => printing::say(b"a blank was expected before this"),
        Fault::Targets => printing::say(b"TICK has no targets"),
        Fault::Qubit => printing::say(b"a qubit was expected, a whole number"),
        Fault::Range => printing::say(b"the engine has at most 64 qubits, 0 to 63"),
        Fault::Outside(limit) => tell_outside(limit),
        Fault::Half => printing::say(b"the targets come in pairs, and this one has no second"),
        Fault::Same => printing::say(b"the two qubits of a pair must differ"),
        Fault::Repeats => printing::say(
            b"REPEAT is followed by how often: a whole number from 1 to 18446744073709551615",
        ),
        Fault::Open => printing::say(b"`{` was expected, at the end of its line"),
        Fault::After => printing::say(b"nothing but a comment may follow `{` or `}` on its line"),
    }
}

// ---- how a pass ended

// A word that is no instruction: another one of Stim's is known by its name.
fn tell_bad(line: &[u8], fault: Fault, from: usize, to: usize) {
    tell_word(line, from, to);
    if let Fault::Name = fault {
        stim::say_instead(line, from);
        return;
    }
    tell_fault(fault)
}

// The word that a pass ended at, and what is wrong with it.
fn tell_at(line: &[u8], pass: Pass, what: &[u8]) {
    tell_word(line, pass.from, pass.to);
    printing::say(what);
}

fn tell_outcome(line: &[u8], pass: Pass) {
    match pass.outcome {
        Outcome::Bad(fault) => tell_bad(line, fault, pass.from, pass.to),
        Outcome::Rates => tell_at(
            line,
            pass,
            b"a rate is from 0 to 1, and the rates of an instruction add up to 1 at most",
        ),
        Outcome::TooLong => printing::say(b"the line has more than 65535 bytes"),
        Outcome::TooDeep => tell_at(
            line,
            pass,
            b"blocks are nested 64 deep at most, and this is the 65th or a later one",
        ),
        Outcome::NoRepeat => tell_at(line, pass, b"no REPEAT is open here"),
        Outcome::NoStep => tell_at(
            line,
            pass,
            b"--try-cutoffs takes channels on one qubit only (X_ERROR Y_ERROR Z_ERROR PAULI_CHANNEL_1 DEPOLARIZE1 I_ERROR[loss]), \
since each trial begins with a fresh sum and has no other steps; instead run the circuit with each --cutoff, and --output trace",
        ),
        Outcome::TooManySteps => tell_at(
            line,
            pass,
            b"--try-cutoffs takes 64 steps at most, one for each target in each repetition, and this is the 65th; \
leave some out, or run the circuit with each --cutoff, and --output trace",
        ),
        _ => printing::say(b"the run ended"),
    }
    printing::say(b"\n");
}

// The line that a pass ended at, from the window.
fn tell_line(name: &[u8], bytes: &[u8], pass: Pass) {
    tell_place(name, pass.line);
    if let Some(line) = bytes.get(pass.window.from..pass.window.to) {
        tell_outcome(line, pass);
    }
}

// Why a pass did not come to the circuit's end.
pub fn tell(name: &[u8], bytes: &[u8], pass: Pass) {
    match pass.outcome {
        Outcome::Failed => printing::say_failed(name),
        Outcome::Cut => {
            printing::say(name);
            printing::say(b": the circuit's copy was cut while it was read\n")
        }
        Outcome::Unwritten => printing::say_failed(b"run_circuit: standard output"),
        Outcome::Unclosed(line) => {
            tell_place(name, line);
            printing::say(b"`REPEAT`: this block has no `}`\n")
        }
        _ => tell_line(name, bytes, pass),
    }
}
