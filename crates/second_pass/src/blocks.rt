// The blocks that are open, 64 at most: the first `depth` of a stack, by the depth of the pass.
ghost use Rattle.std.specs.Prelude.{◌≡◌, replicate};
ghost use Rattle.circuit.specs.declared.lines.Item.TheVariants.{Repeat, Close};
ghost use Rattle.passes.specs.Turns.{Stands};

use passes::{Outcome, Pass};

// The offset where a block's body begins, the line of its REPEAT, which of its repetitions is run, from 1 on, how many there are, and how many calls
// had been made when this one began.
#[derive(Clone, Copy)]
pub struct Block {
    pub body: u64,
    pub line: u64,
    pub number: u64,
    pub times: u64,
    pub calls: u64,
}

// Fixed memory: the pass counts how many of these are open.
pub type Stack = [Block; 64];

const NO_BLOCK: Block = Block {
    body: 0,
    line: 0,
    number: 0,
    times: 0,
    calls: 0,
};

// None is open: 64 times the block of zeros.
pub fn stack() -> Stack
    ensures { result ≡ replicate 64 (record { body = 0; line = 0; number = 0; times = 0; calls = 0 }) }
{
    [NO_BLOCK; 64]
}

// A block begins.
pub fn opened(stack: &mut Stack, pass: Pass, times: u64, calls: u64, from: usize, to: usize) -> Pass
    ensures { Stands (Repeat times) result.outcome }
{
    if pass.depth < stack.len() && 0 < times {
        stack[pass.depth] = Block {
            body: pass.window.next,
            line: pass.line,
            number: 1,
            times,
            calls,
        };
        return passes::at_depth(pass, pass.depth + 1);
    }
    passes::ended(pass, Outcome::TooDeep, from, to)
}

// .. ends, or is gone through again: if that is still to be done and the body makes a call.
pub fn closed(stack: &mut Stack, pass: Pass, calls: u64, from: usize, to: usize) -> Pass
    ensures { Stands Close result.outcome }
{
    if 0 < pass.depth && pass.depth <= stack.len() {
        let depth = pass.depth - 1;
        let block = stack[depth];
        if block.number < block.times && block.calls != calls {
            stack[depth] = Block {
                number: block.number + 1,
                calls,
                ..block
            };
            return passes::jumped(pass, block.body, block.line);
        }
        return passes::at_depth(pass, depth);
    }
    passes::ended(pass, Outcome::NoRepeat, from, to)
}
