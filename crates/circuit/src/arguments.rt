// The arguments of an instruction: decimal numbers in round brackets.
ghost use Rattle.std.specs.Prelude.{◌≤◌, length, ◌≡◌, MatchResult};
ghost use Rattle.circuit.specs.Arguments as Reads;
ghost use Rattle.circuit.specs.Places.{WordBetween};

use crate::lines::Misread;
use crate::runs::Run;
use crate::{Fault, numbers, runs};

// One argument, and where it ends, with the `,` or `)` after it; `more`: another one follows.
#[derive(Clone, Copy)]
pub struct Argument {
    pub value: f64,
    pub to: usize,
    pub more: bool,
}

// All of them: how many there are, 16 for more than 15; and where they end. An array of as many rates as a line has, without heap.
#[derive(Clone, Copy)]
pub struct Arguments {
    pub rates: [f64; 15],
    pub count: usize,
    pub to: usize,
}

// Where a word that is shown ends: it has a byte, unless the line has none there.
#[tactic(auto, unfolding(crate::specs::Arguments::shown_to, crate::specs::Runs::is_end))]
fn shown_to(line: &[u8], from: usize, to: usize) -> usize
    requires { (from ≤ to) × (to ≤ length line.now) }
    ensures lower_bound { (from ≤ result) × (result ≤ length line.now) }
    ensures is { result ≡ Reads.shown_to line.now from to }
{
    if from < to {
        return to;
    }
    if runs::is_end(line, from) {
        return from;
    }
    from + 1
}

// A sound argument, and the `,` or `)` after it.
#[tactic(auto, unfolding(crate::specs::Arguments::closed, crate::specs::Arguments::closed_at, crate::specs::Runs::is_at))]
fn closed(line: &[u8], value: f64, end: usize) -> Result<Argument, Misread>
    requires { end ≤ length line.now }
    ensures within { MatchResult result (λ a. (end ≤ a.to) × (a.to ≤ length line.now)) (λ m. WordBetween end m (length line.now)) }
    ensures is { result ≡ Reads.closed line.now value end }
{
    let at = runs::end(line, Run::Blanks, end);
    if runs::is_at(line, at, b',') {
        return Ok(Argument {
            value,
            to: at + 1,
            more: true,
        });
    }
    if runs::is_at(line, at, b')') {
        return Ok(Argument {
            value,
            to: at + 1,
            more: false,
        });
    }
    Err(Misread {
        fault: Fault::Bracket,
        from: at,
        to: runs::end(line, Run::Word, at),
    })
}

// The argument at a place.
#[tactic(auto, unfolding(crate::specs::Arguments::argument_at, crate::specs::Arguments::argument_from, crate::specs::Arguments::argument_of))]
fn argument_at(line: &[u8], at: usize) -> Result<Argument, Misread>
    requires { at ≤ length line.now }
    ensures within { MatchResult result (λ a. (at ≤ a.to) × (a.to ≤ length line.now)) (λ m. WordBetween at m (length line.now)) }
    ensures is { result ≡ Reads.argument_at line.now at }
{
    let from = runs::end(line, Run::Blanks, at);
    let word = runs::end(line, Run::Argument, from);
    let n = numbers::number_at(line, from);
    let to = shown_to(line, from, word);
    match n.value {
        Err(fault) => Err(Misread { fault, from, to }),
        Ok(_) if n.end != word => Err(Misread {
            fault: Fault::Number,
            from,
            to,
        }),
        Ok(value) => closed(line, value, word),
    }
}

// The arguments from a place on, which is past the `(`.
fn inside(line: &[u8], at: usize) -> Result<Arguments, Misread>
    requires { at ≤ length line.now }
    ensures within { MatchResult result (λ a. (at ≤ a.to) × (a.to ≤ length line.now)) (λ m. WordBetween at m (length line.now)) }
    ensures is { result ≡ Reads.arguments_left 15 line.now Reads.no_rates 0 at }
{
    let mut rates = [0.0; 15];
    let mut to = at;
    for i in 0..15 {
        let Argument {
            value,
            to: end,
            more,
        } = argument_at(line, to)?;
        rates[i] = value;
        to = end;
        if !more {
            return Ok(Arguments {
                rates,
                count: i + 1,
                to,
            });
        }
    }
    Ok(Arguments {
        rates,
        count: 16,
        to,
    })
}

// The arguments at a place, if any stand there.
#[tactic(auto, unfolding(crate::specs::Arguments::arguments_at, crate::specs::Runs::is_at))]
pub fn arguments_at(line: &[u8], at: usize) -> Result<Arguments, Misread>
    requires { at ≤ length line.now }
    ensures within { MatchResult result (λ a. (at ≤ a.to) × (a.to ≤ length line.now)) (λ m. WordBetween at m (length line.now)) }
    ensures is { result ≡ Reads.arguments_at line.now at }
{
    if runs::is_at(line, at, b'(') {
        return inside(line, at + 1);
    }
    Ok(Arguments {
        rates: [0.0; 15],
        count: 0,
        to: at,
    })
}
