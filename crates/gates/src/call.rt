// The call that turns every entry of a sum.
ghost use Rattle.std.specs.Prelude.{◌≡◌};
ghost use Rattle.model.specs.Calls as Calls;
ghost use Rattle.model.specs.Calls.{held, gave, step};
ghost use Rattle.model.specs.Known.{Known, Stepped};

use model::{Answer, Gate, Header};

// THE CALL: every listed entry is turned, and the sum is dirty. 1, 2, 3, 5.
pub fn gate(h: Header, store: &mut [u64], gate: Gate) -> Answer
    ensures { gave result store.new ≡ step (Calls.gate gate) (held h store.old) }
{
    gate_known(h, store, gate, false)
}

// .. told whether all but the weights is known to be sound.
pub fn gate_known(h: Header, store: &mut [u64], gate: Gate, known: bool) -> Answer
    requires { Known known (held h store.old) }
    ensures { Stepped (Calls.gate gate) known (held h store.old) result store.new }
{
    let Header { size, count, .. } = h;
    let own = checks::test(3, crate::qubits_refused(size.n, gate));
    let number = checks::front(h, store, own, known);
    if number != 0 {
        return answers::plain_answer(h, number);
    }
    crate::turn_entries(store, size, count, gate);
    answers::plain_answer(answers::header_with(h, count, true), 0)
}
