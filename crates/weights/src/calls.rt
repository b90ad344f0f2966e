// The calls that change the weights of a sum or leave entries out. Keys move with their entries.
ghost use Rattle.std.specs.Prelude.{◌≡◌};
ghost use Rattle.model.specs.Calls as Calls;
ghost use Rattle.model.specs.Calls.{held, gave, step};
ghost use Rattle.model.specs.Known.{Known, Stepped};

use model::{Answer, Header, Lost};

// THE CALL: each weight is divided by the total. 1, 2, 5, 9.
pub fn normalise(h: Header, store: &mut [u64]) -> Answer
    ensures { gave result store.new ≡ step Calls.normalise (held h store.old) }
{
    normalise_known(h, store, false)
}

// .. told whether all but the weights is known to be sound.
pub fn normalise_known(h: Header, store: &mut [u64], known: bool) -> Answer
    requires { Known known (held h store.old) }
    ensures { Stepped Calls.normalise known (held h store.old) result store.new }
{
    let number = checks::front(h, store, 0, known);
    if number != 0 {
        return answers::plain_answer(h, number);
    }
    let Header { size, count, .. } = h;
    if crate::normalise_entries(store, size, count) {
        return answers::plain_answer(h, 0);
    }
    answers::plain_answer(h, 9)
}

// THE CALL: the entries above the cutoff are kept and, if any went, normalised. 1, 2, 5.
pub fn truncate(h: Header, store: &mut [u64]) -> Answer
    ensures { gave result store.new ≡ step Calls.truncate (held h store.old) }
{
    truncate_known(h, store, false)
}

// .. told whether all but the weights is known to be sound.
pub fn truncate_known(h: Header, store: &mut [u64], known: bool) -> Answer
    requires { Known known (held h store.old) }
    ensures { Stepped Calls.truncate known (held h store.old) result store.new }
{
    let number = checks::front(h, store, 0, known);
    if number != 0 {
        return answers::plain_answer(h, number);
    }
    let size = h.size;
    let cut = crate::truncate_entries(store, size, h.count, h.cutoff);
    let lost = Lost {
        dropped: 0.0,
        truncated: cut.taken,
    };
    answers::without_counts(0, answers::header_with(h, cut.left, h.dirty), lost, 0, 0)
}
