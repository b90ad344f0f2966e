// The second pass over a circuit: its lines are run.
#![tactic(auto)]

mod blocks;
mod second;
mod trace;

pub use blocks::{Block, Stack, closed, opened, stack};
pub use second::{Run, Wanted, run_all};
pub use trace::{put_name, write_head};
