// The calls of the channels. After each, the numbers it can give besides 0.
ghost use Rattle.std.specs.Prelude.{◌≡◌, not, [], ◌∷◌, ◌≤◌};
ghost use Rattle.model.specs.Lists.{every};
ghost use Rattle.model.specs.Floats.{float, one_bits, up_to};
ghost use Rattle.model.specs.Channels.{Noise, one, two, qubits};
ghost use Rattle.model.specs.Channels as Channels;
ghost use Rattle.model.specs.Numbers.{gives, first_of, some_not_below, rates, rates_sound};
ghost use Rattle.model.specs.Calls as Calls;
ghost use Rattle.model.specs.Calls.{held, gave, step, acted, tested};
ghost use Rattle.model.specs.Known.{Known, Stepped};
ghost use Rattle.arms.specs.Arms.{Stands, ShapeBelow};
ghost use Rattle.noise.specs.Tests.{MayRun};

use arms::Arms;
use model::{Answer, Channel, Header};

// ---- the tests

// Number 4 applies: a rate that the noise names is not sound, or the rates add to more than 1.
pub fn rates_refused(arms: Arms, named: bool) -> bool
    requires { arms.count ≤ 15 }
    ensures { (c : Noise) → Stands arms c → named ≡ every (up_to (float one_bits)) (rates c) → result ≡ not (rates_sound c) }
{
    !named || 1.0 < arms::total_rate(arms)
}

// Number 3 or 4 of any noise on n qubits that has these branches, or 0; `named`: the rates that it names are sound.
fn own_number(n: usize, arms: Arms, named: bool) -> u64
    requires { arms.count ≤ 15 }
    ensures shape_below { result ≡ 0 → ShapeBelow n arms.shape }
    ensures value { (c : Noise) → Stands arms c → named ≡ every (up_to (float one_bits)) (rates c) → result ≡ first_of (gives 3 (some_not_below n (qubits c)) ∷ gives 4 (not (rates_sound c)) ∷ []) }
{
    if arms::outside(n, arms.shape) {
        return 3;
    }
    checks::test(4, rates_refused(arms, named))
}

// Number 1 to 5 of the call of any noise that has these branches, or 0 if none applies; `named`: the rates that it names are sound.
fn noise_number(h: Header, store: &[u64], arms: Arms, named: bool, known: bool) -> u64
    requires { (arms.count ≤ 15) × Known known (held h store.now) }
    ensures may_run { result ≡ 0 → MayRun (held h store.now) arms }
    ensures store_value { (c : Noise) → Stands arms c → named ≡ every (up_to (float one_bits)) (rates c) → step (Calls.noise c) (held h store.now) ≡ tested (held h store.now) result (acted (Calls.noise c) (held h store.now)) }
{
    checks::front(h, store, own_number(h.size.n, arms, named), known)
}

// ---- the calls

// The call of any noise that has these branches, told whether all but the weights is known to be sound.
fn call(h: Header, store: &mut [u64], arms: Arms, named: bool, known: bool) -> Answer
    requires { (arms.count ≤ 15) × Known known (held h store.old) }
    ensures { (c : Noise) → Stands arms c → named ≡ every (up_to (float one_bits)) (rates c) → Stepped (Calls.noise c) known (held h store.old) result store.new }
{
    let number = noise_number(h, store, arms, named, known);
    if number != 0 {
        return answers::plain_answer(h, number);
    }
    crate::run(h, store, arms)
}

// THE CALL: a channel on one qubit (`pauli_error`, `loss_channel`, `depolarize1`). 1 to 6, 9.
pub fn channel(h: Header, store: &mut [u64], channel: Channel, q: usize) -> Answer
    ensures { gave result store.new ≡ step (Calls.noise (one channel q)) (held h store.old) }
{
    channel_known(h, store, channel, q, false)
}

// .. told whether all but the weights is known to be sound.
pub fn channel_known(
    h: Header,
    store: &mut [u64],
    channel: Channel,
    q: usize,
    known: bool,
) -> Answer
    requires { Known known (held h store.old) }
    ensures { Stepped (Calls.noise (one channel q)) known (held h store.old) result store.new }
{
    let named = arms::named_rates_sound(channel, q);
    call(h, store, arms::channel_arms(channel, q), named, known)
}

// THE CALL: pairs of Paulis on two qubits, with their 15 rates in the order of `PAULI_PAIRS`. Both qubits may be the same one. 1 to 6, 9.
pub fn two_qubit_pauli_error(
    h: Header,
    store: &mut [u64],
    rates: [f64; 15],
    p: usize,
    q: usize,
) -> Answer
    ensures { gave result store.new ≡ step (Calls.noise (two rates p q)) (held h store.old) }
{
    two_qubit_pauli_error_known(h, store, rates, p, q, false)
}

// .. told whether all but the weights is known to be sound.
pub fn two_qubit_pauli_error_known(
    h: Header,
    store: &mut [u64],
    rates: [f64; 15],
    p: usize,
    q: usize,
    known: bool,
) -> Answer
    requires { Known known (held h store.old) }
    ensures { Stepped (Calls.noise (two rates p q)) known (held h store.old) result store.new }
{
    let named = arms::all_rates_sound(rates);
    call(h, store, arms::pair_arms(rates, p, q), named, known)
}

// THE CALL: each of the 15 pairs with a fifteenth of the rate. 1 to 6, 9.
pub fn depolarize2(h: Header, store: &mut [u64], rate: f64, p: usize, q: usize) -> Answer
    ensures { gave result store.new ≡ step (Calls.noise (Channels.depolarize2 rate p q)) (held h store.old) }
{
    depolarize2_known(h, store, rate, p, q, false)
}

// .. told whether all but the weights is known to be sound.
pub fn depolarize2_known(
    h: Header,
    store: &mut [u64],
    rate: f64,
    p: usize,
    q: usize,
    known: bool,
) -> Answer
    requires { Known known (held h store.old) }
    ensures { Stepped (Calls.noise (Channels.depolarize2 rate p q)) known (held h store.old) result store.new }
{
    let named = arms::rate_sound(rate);
    call(h, store, arms::depolarize2_arms(rate, p, q), named, known)
}
