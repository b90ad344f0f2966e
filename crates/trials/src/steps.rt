// Steps from three slices, for callers that have no enum: kinds, qubits, and three rates for each step.
ghost use Rattle.std.specs.Prelude.{◌≡◌, ◌*◌, ◌≤◌, length, take};
ghost use Rattle.model.specs.Calls.{held, overlaid};
ghost use Rattle.model.specs.Lists.{every};
ghost use Rattle.model.specs.Trials.{plan_of, TrialsPromise};
ghost use Rattle.trials.specs.Steps.{channel_of, known, channels_in, well_formed, tried_from};

use model::{Answer, Channel, Size};

// The number of slices that are not as long as each other, or have a kind that is not known. No call gives it. A number, for the C interface.
pub const DOES_NOT_FIT: u64 = 19;

// ---- the test

fn kinds_known(kinds: &[u64]) -> bool
    ensures { result ≡ every known kinds.now }
{
    kinds.iter().all(|kind| *kind < 3)
}

// Known kinds, and a qubit and three rates for each.
#[tactic(auto, unfolding(crate::specs::Steps::well_formed))]
fn well_formed(kinds: &[u64], qubits: usize, rates: usize) -> bool
    ensures { result ≡ well_formed kinds.now qubits rates }
{
    qubits == kinds.len() && rates == 3 * kinds.len() && kinds_known(kinds)
}

// ---- the arrays

// How many of `count` steps the arrays hold.
fn held_of(count: usize) -> usize
    ensures { (result ≤ 64) × (result ≤ count) × (count ≤ 64 → result ≡ count) }
{
    count.min(64)
}

// 0: a Pauli channel with its three rates. 1, 2: loss, depolarising, with the first of them. The C interface has kinds as words.
#[tactic(auto, unfolding(crate::specs::Steps::channel_of))]
fn channel_of(kind: u64, x: f64, y: f64, z: f64) -> Channel
    ensures { result ≡ channel_of kind x y z }
{
    match kind {
        0 => Channel::Pauli(x, y, z),
        1 => Channel::Loss(x),
        _ => Channel::Depolarizing(x),
    }
}

// The first `count` channels.
fn channels_in(kinds: &[u64], rates: &[f64], count: usize) -> [Channel; 64]
    requires { (count ≤ 64) × (count ≤ length kinds.now) × (length rates.now ≡ 3 * length kinds.now) }
    ensures { take count result ≡ take count (channels_in kinds.now rates.now) }
{
    let none = Channel::Loss(0.0);
    let mut all = [none; 64];
    for i in 0..count {
        let at = 3 * i;
        all[i] = channel_of(kinds[i], rates[at], rates[at + 1], rates[at + 2]);
    }
    all
}

// The first `count` qubits.
fn qubits_in(qubits: &[usize], count: usize) -> [usize; 64]
    requires { (count ≤ 64) × (count ≤ length qubits.now) }
    ensures { take count result ≡ take count qubits.now }
{
    let mut all = [0; 64];
    all[..count].copy_from_slice(&qubits[..count]);
    all
}

// ---- the call

// THE CALL with steps from slices: step i is of kind kinds[i], on qubits[i], with the rates from rates[3 × i] on. 19, first, for slices that are not
// well formed; then the numbers of `try_cutoffs`.
pub fn try_steps(
    size: Size,
    threshold: f64,
    cutoffs: &[f64],
    kinds: &[u64],
    qubits: &[usize],
    rates: &[f64],
    store: &mut [u64],
    out: &mut [u64],
) -> Answer
    ensures answer { result ≡ (tried_from size threshold cutoffs.now kinds.now qubits.now rates.now (length out.old) store.old).answer }
    ensures words { store.new ≡ (tried_from size threshold cutoffs.now kinds.now qubits.now rates.now (length out.old) store.old).words }
    ensures output { out.new ≡ overlaid (tried_from size threshold cutoffs.now kinds.now qubits.now rates.now (length out.old) store.old).output out.old }
    ensures promise { result.number ≡ 0 → TrialsPromise (plan_of size threshold cutoffs.now (channels_in kinds.now rates.now) qubits.now (length kinds.now)) store.old (held result.header store.new) (take result.length out.new) }
{
    if !well_formed(kinds, qubits.len(), rates.len()) {
        return answers::plain_answer(answers::zero_header(), DOES_NOT_FIT);
    }
    let held = held_of(kinds.len());
    let channels = channels_in(kinds, rates, held);
    let on = qubits_in(qubits, held);
    crate::try_cutoffs(
        size,
        threshold,
        cutoffs,
        channels,
        on,
        kinds.len(),
        store,
        out,
    )
}
