// The branches that a noise makes of an entry: their rates and what each changes (document 01, point 5), and number 4.
#![tactic(auto)]

ghost use Rattle.std.specs.Prelude.{◌≡◌, ◌&&◌, ◌+◌, ◌<◌, ◌≤◌, ◌/◌, ◌%◌, length, get_or};
ghost use Rattle.model.specs.Floats.{up_to, float, one_bits};
ghost use Rattle.model.specs.Channels as Channels;
ghost use Rattle.model.specs.Lists.{every};
ghost use Rattle.model.specs.Numbers.{rates, some_not_below};
ghost use Rattle.arms.specs.Arms as Spec;

use model::{BranchMutation, Channel, Pauli};

// On which qubits, and by what: Paulis at one qubit, its loss, pairs of Paulis at two.
#[derive(Clone, Copy)]
pub enum Shape {
    One(usize),
    Lose(usize),
    Two(usize, usize),
}

// The branches: `count` of them, each with its rate. An array and a count, since memory is fixed.
#[derive(Clone, Copy)]
pub struct Arms {
    pub rates: [f64; 15],
    pub count: usize,
    pub shape: Shape,
}

// I, X, Y, Z.
#[tactic(auto, unfolding(crate::specs::Arms::pauli_at))]
pub fn pauli_at(i: usize) -> Pauli
    ensures { result ≡ Spec.pauli_at i }
{
    match i {
        0 => Pauli::I,
        1 => Pauli::X,
        2 => Pauli::Y,
        _ => Pauli::Z,
    }
}

// What branch a changes: X, Y, Z in order; pairs in the order IX, IY, IZ, XI, XX, ..
#[tactic(auto, unfolding(crate::specs::Arms::mutation_at))]
pub fn mutation_at(shape: Shape, a: usize) -> BranchMutation
    requires { a < 15 }
    ensures { result ≡ Spec.mutation_at shape a }
{
    match shape {
        Shape::One(q) => BranchMutation::Pauli(pauli_at((a + 1) % 4), q),
        Shape::Lose(q) => BranchMutation::Loss(q),
        Shape::Two(p, q) => {
            BranchMutation::Pair(pauli_at((a + 1) / 4), p, pauli_at((a + 1) % 4), q)
        }
    }
}

// Three Pauli rates at a qubit.
#[tactic(auto, unfolding(crate::specs::Arms::arms_list, crate::specs::Arms::arms_below, crate::specs::Arms::mutation_at, crate::specs::Arms::pauli_at, crate::specs::Arms::shape_qubits, model::specs::Channels::arms, model::specs::Channels::qubits, model::specs::Channels::channel_arms, model::specs::Channels::pauli_arms))]
pub fn pauli_arms(x: f64, y: f64, z: f64, q: usize) -> Arms
    ensures { Spec.Stands result (Channels.one (Channel.Pauli x y z) q) }
{
    let mut rates = [0.0f64; 15];
    rates[0] = x;
    rates[1] = y;
    rates[2] = z;
    Arms {
        rates,
        count: 3,
        shape: Shape::One(q),
    }
}

// The loss of a qubit.
#[tactic(auto, unfolding(crate::specs::Arms::arms_list, crate::specs::Arms::arms_below, crate::specs::Arms::mutation_at, crate::specs::Arms::shape_qubits, model::specs::Channels::arms, model::specs::Channels::qubits, model::specs::Channels::channel_arms))]
pub fn loss_arms(p: f64, q: usize) -> Arms
    ensures { Spec.Stands result (Channels.one (Channel.Loss p) q) }
{
    let mut rates = [0.0f64; 15];
    rates[0] = p;
    Arms {
        rates,
        count: 1,
        shape: Shape::Lose(q),
    }
}

// The branches of a channel on one qubit.
#[tactic(auto, unfolding(model::specs::Channels::arms, model::specs::Channels::qubits, model::specs::Channels::channel_arms))]
pub fn channel_arms(channel: Channel, q: usize) -> Arms
    ensures { Spec.Stands result (Channels.one channel q) }
{
    match channel {
        Channel::Pauli(x, y, z) => pauli_arms(x, y, z, q),
        Channel::Loss(p) => loss_arms(p, q),
        Channel::Depolarizing(p) => {
            let part = p / 3.0;
            pauli_arms(part, part, part, q)
        }
    }
}

// The branches of pairs of Paulis, each with its rate.
pub fn pair_arms(rates: [f64; 15], p: usize, q: usize) -> Arms
    ensures { Spec.Stands result (Channels.two rates p q) }
{
    Arms {
        rates,
        count: 15,
        shape: Shape::Two(p, q),
    }
}

// The same rate for each pair: a part in fifteen.
pub fn depolarize2_arms(rate: f64, p: usize, q: usize) -> Arms
    ensures { Spec.Stands result (Channels.depolarize2 rate p q) }
{
    Arms {
        rates: [rate / 15.0; 15],
        count: 15,
        shape: Shape::Two(p, q),
    }
}

// The rates added from 0 in order.
#[tactic(auto, unfolding(crate::specs::Arms::arms_list, crate::specs::Arms::arms_below, model::specs::Channels::folded_to))]
pub fn total_rate(arms: Arms) -> f64
    requires { arms.count ≤ 15 }
    ensures { result ≡ Channels.folded_to (float 0) (Spec.arms_list arms) }
{
    let mut t = 0.0;
    for a in 0..arms.count {
        t += arms.rates[a];
    }
    t
}

// ---- number 3

// A qubit is not below n.
#[tactic(auto, unfolding(model::specs::Numbers::some_not_below, model::specs::Lists::some_of, crate::specs::Arms::shape_qubits))]
pub fn outside(n: usize, shape: Shape) -> bool
    ensures { result ≡ some_not_below n (Spec.shape_qubits shape) }
{
    match shape {
        Shape::One(q) | Shape::Lose(q) => n <= q,
        Shape::Two(p, q) => n <= p || n <= q,
    }
}

// ---- number 4

// Neither NaN nor below 0 nor above 1.
#[tactic(auto, unfolding(model::specs::Floats::up_to))]
pub fn rate_sound(p: f64) -> bool
    ensures { result ≡ up_to (float one_bits) p }
{
    0.0 <= p && p <= 1.0
}

// The rates that the channel names: for depolarising, p itself.
#[tactic(auto, unfolding(model::specs::Lists::every, model::specs::Numbers::rates))]
pub fn named_rates_sound(channel: Channel, q: usize) -> bool
    ensures { result ≡ every (up_to (float one_bits)) (rates (Channels.one channel q)) }
{
    match channel {
        Channel::Pauli(x, y, z) => rate_sound(x) && rate_sound(y) && rate_sound(z),
        Channel::Loss(p) | Channel::Depolarizing(p) => rate_sound(p),
    }
}

// Each of 15 rates.
pub fn all_rates_sound(rates: [f64; 15]) -> bool
    ensures { result ≡ every (up_to (float one_bits)) rates }
{
    for i in 0..15 {
        if !rate_sound(rates[i]) {
            return false;
        }
    }
    true
}
