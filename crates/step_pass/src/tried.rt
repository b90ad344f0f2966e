// The call that tries cutoffs, made on the steps that were gathered.
ghost use Rattle.std.specs.Prelude.{◌≡◌, map, length};
ghost use Rattle.model.specs.Calls.{overlaid};
ghost use Rattle.model.specs.Trials.{tried};
ghost use Rattle.step_pass.specs.Gathering.{plan_on};

use crate::{Gathered, Step};
use model::{Channel, Size};

fn channels_of(steps: [Step; 64]) -> [Channel; 64]
    ensures { result ≡ map (λ s. s.channel) steps }
{
    // `steps.map(|s| s.channel)` was tried: its proof did not close.
    let mut channels = [Channel::Loss(0.0); 64];
    for i in 0..64 {
        channels[i] = steps[i].channel;
    }
    channels
}

fn qubits_of(steps: [Step; 64]) -> [usize; 64]
    ensures { result ≡ map (λ s. s.qubit) steps }
{
    // `steps.map(|s| s.qubit)` was tried: its proof did not close.
    let mut qubits = [0; 64];
    for i in 0..64 {
        qubits[i] = steps[i].qubit;
    }
    qubits
}

// The call, on the steps that were gathered: what it shows is written to `out`. Its number.
pub fn try_cutoffs(
    size: Size,
    threshold: f64,
    cutoffs: &[f64],
    g: Gathered,
    store: &mut [u64],
    out: &mut [u64],
) -> u64
    ensures number { result ≡ (tried (plan_on size threshold cutoffs.now g) (length out.old) store.old).answer.number }
    ensures shown { out.new ≡ overlaid (tried (plan_on size threshold cutoffs.now g) (length out.old) store.old).output out.old }
{
    let a = trials::try_cutoffs(
        size,
        threshold,
        cutoffs,
        channels_of(g.steps),
        qubits_of(g.steps),
        g.count,
        store,
        out,
    );
    a.number
}
