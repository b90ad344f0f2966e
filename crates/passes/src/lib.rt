// A pass through the lines of a circuit: where it stands, and how it ended.
#![tactic(auto)]

ghost use Rattle.std.specs.Prelude.{◌≡◌, true};
ghost use Rattle.passes.specs.Going.{is_going};

use circuit::Fault;
use input::Window;

// Why a pass stands still.
#[derive(Clone, Copy)]
pub enum Outcome {
    // It does not.
    Going,
    // The circuit's end.
    Done,
    // A word of the line is at fault.
    Bad(Fault),
    // Its rates are: number 4 would be given.
    Rates,
    // The line has no end within the window.
    TooLong,
    // It could not be read; its copy was cut.
    Failed,
    Cut,
    // REPEAT in 64 others; `}` with no REPEAT; the REPEAT of this line without `}`.
    TooDeep,
    NoRepeat,
    Unclosed(u64),
    // A call on these qubits gave this number.
    Refused(u64, usize, usize),
    // After a call more has been lost of the initial weight, this fraction of it, than is allowed.
    TooMuchLost(f64),
    // A line of the trace could not be written.
    Unwritten,
    // An instruction is no step of a trial; the step is one more than trials have.
    NoStep,
    TooManySteps,
}

// The window and the number of the line that was read last, and how many REPEATs are open; the word that the outcome speaks of, from a place
// of the line to another.
#[derive(Clone, Copy)]
pub struct Pass {
    pub window: Window,
    pub line: u64,
    pub depth: usize,
    pub outcome: Outcome,
    pub from: usize,
    pub to: usize,
}

pub fn start() -> Pass
    ensures { result.outcome ≡ Outcome.Going }
{
    Pass {
        window: input::start(),
        line: 0,
        depth: 0,
        outcome: Outcome::Going,
        from: 0,
        to: 0,
    }
}

// One more than n, as far as numbers go.
pub fn next(n: u64) -> u64 {
    n.saturating_add(1)
}

// The pass at its next line.
pub fn moved(pass: Pass, window: Window) -> Pass
    ensures { (result.window ≡ window) × (result.outcome ≡ Outcome.Going) }
{
    Pass {
        window,
        line: next(pass.line),
        ..resumed(pass)
    }
}

// .. ends, at a word.
pub fn ended(pass: Pass, outcome: Outcome, from: usize, to: usize) -> Pass
    ensures { result.outcome ≡ outcome }
{
    Pass {
        outcome,
        from,
        to,
        ..pass
    }
}

// .. is in or out of a block.
pub fn at_depth(pass: Pass, depth: usize) -> Pass
    ensures { result.outcome ≡ Outcome.Going }
{
    Pass {
        depth,
        ..resumed(pass)
    }
}

// .. goes on after a bad line.
pub fn resumed(pass: Pass) -> Pass
    ensures { result.outcome ≡ Outcome.Going }
{
    ended(pass, Outcome::Going, 0, 0)
}

// .. goes on at another offset, after this line.
pub fn jumped(pass: Pass, offset: u64, line: u64) -> Pass
    ensures { result.outcome ≡ Outcome.Going }
{
    Pass {
        window: input::jumped(pass.window, offset),
        line,
        ..resumed(pass)
    }
}

#[tactic(auto, unfolding(crate::specs::Going::goes))]
pub fn is_going(pass: Pass) -> bool
    ensures { result ≡ is_going pass }
{
    matches!(pass.outcome, Outcome::Going)
}

// It can go on past the line where it stands: the lines after it can still be looked at.
pub fn can_go_on(pass: Pass) -> bool {
    matches!(
        pass.outcome,
        Outcome::Bad(_) | Outcome::Rates | Outcome::TooDeep | Outcome::NoRepeat
    )
}

pub fn is_done(pass: Pass) -> bool
    ensures { result ≡ true → pass.outcome ≡ Outcome.Done }
{
    matches!(pass.outcome, Outcome::Done)
}
