// The steps of trials, gathered: a channel on a qubit for each target, in the order in which the circuit runs them. `}` goes back to the line
// after its REPEAT while repetitions are left, as in the second pass.
#![tactic(auto)]

mod tried;

ghost use Rattle.std.specs.Prelude.{◌≡◌, [], ◌∷◌, ◌-◌, ◌≤◌, length, take, drop};
ghost use Rattle.circuit.specs.declared.lines.Act.TheVariants as Act;
ghost use Rattle.circuit.specs.declared.lines.Item.TheVariants as Item;
ghost use Rattle.second_pass.specs.Lines.{calls_of};
ghost use Rattle.passes.specs.Turns.{Turn, Next, Passed};
ghost use Rattle.step_pass.specs.Gathering.{step_call, steps_of, Taken, Gathers, LineGathers, WholeSteps};

use circuit::{Act, Item, Line, Seen};
use input::{Found, Source, Window};
use model::Channel;
use passes::{Outcome, Pass};
use second_pass::Stack;
pub use tried::try_cutoffs;

// A step: its channel and its qubit; its line, and the instruction as the trace prints it, filled up with blanks.
#[derive(Clone, Copy)]
pub struct Step {
    pub channel: Channel,
    pub qubit: usize,
    pub line: u64,
    pub name: [u8; 16],
}

// The pass, and the steps so far: the first `count`, in fixed memory.
#[derive(Clone, Copy)]
pub struct Gathered {
    pub pass: Pass,
    pub count: usize,
    pub steps: [Step; 64],
}

#[tactic(auto, unfolding(crate::specs::Gathering::steps_of))]
fn with_pass(g: Gathered, pass: Pass) -> Gathered
    ensures { (result.pass ≡ pass) × (steps_of result ≡ steps_of g) }
{
    Gathered { pass, ..g }
}

fn ended(g: Gathered, outcome: Outcome, from: usize, to: usize) -> Gathered
    ensures { (result.pass.outcome ≡ outcome) × (steps_of result ≡ steps_of g) }
{
    with_pass(g, passes::ended(g.pass, outcome, from, to))
}

// ---- steps

// One step more, if there may be one.
fn with_step(g: Gathered, step: Step, l: Line) -> Gathered
    requires { g.pass.outcome ≡ Outcome.Going }
    ensures { Taken (step_call step ∷ []) (steps_of g) (steps_of result) result.pass.outcome }
{
    let count = g.count;
    if count < 64 {
        let mut steps = g.steps;
        steps[count] = step;
        return Gathered {
            count: count + 1,
            steps,
            ..g
        };
    }
    ended(g, Outcome::TooManySteps, l.from, l.to)
}

// The instruction as the trace prints it: no name is longer.
fn name_of(line: &[u8], l: Line, channel: Channel) -> [u8; 16] {
    let mut row = printing::row();
    second_pass::put_name(&mut row, 0, line, l, Act::Channel(channel));
    let mut name = [b' '; 16];
    name.copy_from_slice(&row[..16]);
    name
}

// The steps of a line, target by target.
fn gather_targets(line: &[u8], l: Line, channel: Channel, g: Gathered) -> Gathered
    requires { g.pass.outcome ≡ Outcome.Going }
    ensures { Taken (calls_of (Act.Channel channel) l.rates line.now l.targets) (steps_of g) (steps_of result) result.pass.outcome }
{
    let name = name_of(line, l, channel);
    let mut gathered = g;
    let mut at = l.targets;
    loop {
        let t = circuit::target(line, at, false);
        let Seen::At(qubit, _) = t.seen else {
            return gathered;
        };
        let step = Step {
            channel,
            qubit,
            line: g.pass.line,
            name,
        };
        gathered = with_step(gathered, step, l);
        if !passes::is_going(gathered.pass) {
            return gathered;
        }
        at = t.to;
    }
}

// Those of an instruction: only channels on one qubit are steps.
fn gather_call(line: &[u8], l: Line, act: Act, g: Gathered) -> Gathered
    requires { g.pass.outcome ≡ Outcome.Going }
    ensures { Gathers (Item.Call act) (calls_of act l.rates line.now l.targets) (steps_of g) (steps_of result) result.pass.outcome }
{
    match act {
        Act::Channel(channel) => gather_targets(line, l, channel, g),
        _ => ended(g, Outcome::NoStep, l.from, l.targets),
    }
}

// ---- lines

fn gather_item(line: &[u8], stack: &mut Stack, g: Gathered) -> Gathered
    requires { g.pass.outcome ≡ Outcome.Going }
    ensures { LineGathers line.now (steps_of g) (steps_of result) result.pass.outcome }
{
    let l = circuit::parse(line);
    let made = g.count as u64;
    match l.item {
        Item::Nothing => g,
        Item::Bad(fault) => ended(g, Outcome::Bad(fault), l.from, l.to),
        Item::Call(act) => gather_call(line, l, act, g),
        Item::Repeat(times) => {
            with_pass(
                g,
                second_pass::opened(stack, g.pass, times, made, l.from, l.to),
            )
        }
        Item::Close => with_pass(g, second_pass::closed(stack, g.pass, made, l.from, l.to)),
    }
}

// What the window has found.
fn gather_found(bytes: &[u8], stack: &mut Stack, g: Gathered) -> Gathered
    requires { (g.pass.window.from ≤ g.pass.window.to) × (g.pass.window.to ≤ length bytes.now) × (g.pass.outcome ≡ Outcome.Going) }
    ensures { Turn LineGathers g.pass.window.found (take (g.pass.window.to - g.pass.window.from) (drop g.pass.window.from bytes.now)) (steps_of g) (steps_of result) result.pass.outcome }
{
    let Window {
        found,
        from,
        to,
        ..
    } = g.pass.window;
    match found {
        Found::Line => gather_item(&bytes[from..to], stack, g),
        Found::End => ended(g, Outcome::Done, 0, 0),
        Found::TooLong => ended(g, Outcome::TooLong, 0, 0),
        Found::Failed => ended(g, Outcome::Failed, 0, 0),
        Found::Cut => ended(g, Outcome::Cut, 0, 0),
    }
}

// The next line.
fn gather_line(s: &Source, bytes: &mut [u8], stack: &mut Stack, g: Gathered) -> Gathered
    ensures { Next LineGathers (steps_of g) (steps_of result) result.pass.outcome }
{
    let window = input::next_line(s, bytes, g.pass.window);
    let next = with_pass(g, passes::moved(g.pass, window));
    gather_found(bytes, stack, next)
}

// No step yet.
#[tactic(auto, unfolding(crate::specs::Gathering::steps_of))]
fn start() -> Gathered
    ensures { (result.pass.outcome ≡ Outcome.Going) × (steps_of result ≡ []) }
{
    let none = Step {
        channel: Channel::Loss(0.0),
        qubit: 0,
        line: 0,
        name: [b' '; 16],
    };
    Gathered {
        pass: passes::start(),
        count: 0,
        steps: [none; 64],
    }
}

// All steps of a circuit that the first pass has looked at, or up to where it has an instruction that is none, or one step too many: where the pass
// ends with the circuit's end they are the calls of all lines that were read, those that the second pass would make.
pub fn gather(s: &Source, bytes: &mut [u8]) -> Gathered
    ensures lines { Passed LineGathers [] (steps_of result) result.pass.outcome }
    ensures whole { result.pass.outcome ≡ Outcome.Done → WholeSteps (steps_of result) }
{
    let mut stack = second_pass::stack();
    let mut g = start();
    for _ in 0..u64::MAX {
        g = gather_line(s, bytes, &mut stack, g);
        if !passes::is_going(g.pass) {
            return g;
        }
    }
    g
}
