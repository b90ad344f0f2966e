// The engine's call for an instruction of a circuit (`make`), what is lost of the initial weight after it (loss.rt), and, if it was refused
// for want of room, how far it outgrew that room (outgrown.rt).
#![tactic(auto)]

mod loss;
mod outgrown;

ghost use Rattle.std.specs.Prelude.{◌≡◌, ℕ, ◌≤◌};
ghost use Rattle.model.specs.Calls.{held};
ghost use Rattle.model.specs.Known.{Known, Stepped};
ghost use Rattle.calls.specs.Instructions.{call_of, call_on, sound_rates};
ghost use Rattle.calls.specs.Stores.{store_words, copied};

use circuit::Act;
pub use loss::{can_lose, lost_after, lost_at_start, total};
use model::{Answer, Gate, Header};
pub use outgrown::{Asked, Outgrown, outgrown_by};

// What an instruction does, with its rates, on a qubit p, or on the qubits p and q.
#[derive(Clone, Copy)]
pub struct Operation {
    pub act: Act,
    pub rates: [f64; 15],
    pub p: usize,
    pub q: usize,
}

// Its call, told whether all but the weights is known to be sound.
pub fn make(h: Header, store: &mut [u64], o: Operation, known: bool) -> Answer
    requires { Known known (held h store.old) }
    ensures { Stepped (call_on o) known (held h store.old) result store.new }
{
    let Operation { act, rates, p, q } = o;
    match act {
        Act::H => gates::gate_known(h, store, Gate::H(p), known),
        Act::S => gates::gate_known(h, store, Gate::S(p), known),
        Act::Channel(channel) => noise::channel_known(h, store, channel, p, known),
        Act::ResetLoss => reset::reset_loss_channel_known(h, store, p, known),
        Act::Cnot => gates::gate_known(h, store, Gate::Cnot(p, q), known),
        Act::PauliPairs => noise::two_qubit_pauli_error_known(h, store, rates, p, q, known),
        Act::Depolarize2(rate) => noise::depolarize2_known(h, store, rate, p, q, known),
    }
}

// Number 4 does not apply to the call, whatever its qubits.
#[tactic(auto, unfolding(model::specs::Calls::kind_of))]
pub fn rates_sound(act: Act, rates: [f64; 15]) -> bool
    ensures { (p q : ℕ) → result ≡ sound_rates (call_of act rates p q) }
{
    match act {
        Act::Channel(channel) => {
            let named = arms::named_rates_sound(channel, 0);
            !noise::rates_refused(arms::channel_arms(channel, 0), named)
        }
        Act::PauliPairs => {
            let named = arms::all_rates_sound(rates);
            !noise::rates_refused(arms::pair_arms(rates, 0, 0), named)
        }
        Act::Depolarize2(rate) => {
            let named = arms::rate_sound(rate);
            !noise::rates_refused(arms::depolarize2_arms(rate, 0, 0), named)
        }
        Act::H | Act::S | Act::ResetLoss | Act::Cnot => true,
    }
}

// The words of a store of so many entries of n qubits, each with one coefficient; 0 beyond the limits of both.
#[tactic(auto, unfolding(crate::specs::Stores::store_words))]
pub fn words(n: usize, entries: usize) -> usize
    ensures upper_bound { result ≤ 100352 }
    ensures value { result ≡ store_words n entries }
{
    if n <= 64 && entries <= 256 {
        return entries * (8 + 6 * n);
    }
    0
}

// The store's words, and 0 past them, in a scratch that has room for them; a shorter one is left as it is.
#[tactic(auto, unfolding(crate::specs::Stores::copied, crate::specs::Stores::laid))]
pub fn copy(scratch: &mut [u64], store: &[u64])
    ensures { scratch.new ≡ copied store.now scratch.old }
{
    let n = store.len();
    if scratch.len() < n {
        return;
    }
    scratch[..n].copy_from_slice(store);
    scratch[n..].fill(0);
}
