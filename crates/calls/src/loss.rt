// What is lost of the initial weight after the call of an instruction.
ghost use Rattle.std.specs.Prelude.{◌≡◌, List, ℕ, Float};
ghost use Rattle.model.specs.Calls.{held};
ghost use Rattle.model.specs.Known.{Known};
ghost use Rattle.calls.specs.Instructions.{call_of};
ghost use Rattle.calls.specs.Loss as Spec;

use circuit::Act;
use model::{Header, Lost};

// Whether its call can lose anything: channels and resets drop and truncate, gates do not.
#[tactic(auto, unfolding(model::specs::Calls::kind_of))]
pub fn can_lose(act: Act) -> bool
    ensures { (rates : List Float) (p q : ℕ) → result ≡ Spec.can_lose (call_of act rates p q) }
{
    matches!(
        act,
        Act::Channel(_) | Act::ResetLoss | Act::PauliPairs | Act::Depolarize2(_)
    )
}

// The weights of the listed entries, added from 0 in order; 0 of a sum that no call accepts. It is told whether all but the weights is known
// to be sound.
#[tactic(auto, unfolding(crate::specs::Loss::weight_of))]
pub fn total(store: &[u64], h: Header, known: bool) -> f64
    requires { Known known (held h store.now) }
    ensures { result ≡ Spec.weight_of (held h store.now) }
{
    if checks::front(h, store, 0, known) != 0 {
        return 0.0;
    }
    weights::weights_total(store, h.size, h.count)
}

// The fraction of a total that a part is.
#[tactic(auto, unfolding(crate::specs::Loss::fraction))]
fn fraction(part: f64, whole: f64) -> f64
    ensures { result ≡ Spec.fraction part whole }
{
    if 0.0 < whole {
        return part / whole;
    }
    0.0
}

// What is lost of the initial weight, after a part of what is left is lost too.
#[tactic(auto, unfolding(crate::specs::Loss::lost_too))]
fn lost_too(lost: f64, part: f64) -> f64
    ensures { result ≡ Spec.lost_too lost part }
{
    lost + (1.0 - lost) * part
}

// .. after a call on a sum of this total. The drops take their weight from it; truncating takes its weight from a total of 1, if the call
// normalised first, and else from the same total. Where it leaves no entry, everything is lost.
#[tactic(auto, unfolding(crate::specs::Loss::lost_after))]
pub fn lost_after(lost: f64, l: Lost, total: f64, normalised: bool, left: usize) -> f64
    ensures { result ≡ Spec.lost_after lost l total normalised left }
{
    if left == 0 {
        return 1.0;
    }
    let after = lost_too(lost, fraction(l.dropped, total));
    if normalised {
        return lost_too(after, l.truncated);
    }
    lost_too(after, fraction(l.truncated, total))
}

// .. before the first call: a fresh sum may have no entry.
#[tactic(auto, unfolding(crate::specs::Loss::lost_at_start))]
pub fn lost_at_start(count: usize) -> f64
    ensures { result ≡ Spec.lost_at_start count }
{
    if 0 < count {
        return 0.0;
    }
    1.0
}
