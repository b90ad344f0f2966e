// The call of the reset.
ghost use Rattle.std.specs.Prelude.{◌≡◌};
ghost use Rattle.model.specs.Calls as Calls;
ghost use Rattle.model.specs.Calls.{held, gave, step, acted, tested};
ghost use Rattle.model.specs.Known.{Known, Stepped};
ghost use Rattle.reset.specs.Tests.{MayReset};

use model::{Answer, Header};

// Number 1, 2, 3 or 5 of the reset at q, or 0 if none applies.
fn reset_number(h: Header, store: &[u64], q: usize, known: bool) -> u64
    requires { Known known (held h store.now) }
    ensures may_reset { result ≡ 0 → MayReset (held h store.now) q }
    ensures store_value { step (Calls.reset q) (held h store.now) ≡ tested (held h store.now) result (acted (Calls.reset q) (held h store.now)) }
{
    let own = checks::test(3, h.size.n <= q);
    checks::front(h, store, own, known)
}

// THE CALL: entries lost at q leave, become live, and are merged in that order. 1, 2, 3, 5.
pub fn reset_loss_channel(h: Header, store: &mut [u64], q: usize) -> Answer
    ensures { gave result store.new ≡ step (Calls.reset q) (held h store.old) }
{
    reset_loss_channel_known(h, store, q, false)
}

// .. told whether all but the weights is known to be sound.
pub fn reset_loss_channel_known(h: Header, store: &mut [u64], q: usize, known: bool) -> Answer
    requires { Known known (held h store.old) }
    ensures { Stepped (Calls.reset q) known (held h store.old) result store.new }
{
    let number = reset_number(h, store, q, known);
    if number != 0 {
        return answers::plain_answer(h, number);
    }
    crate::run(h, store, q)
}
