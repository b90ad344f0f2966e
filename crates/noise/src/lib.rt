// Channels: document 01, point 5 (noise.rs).
#![tactic(auto)]

mod calls;

ghost use Rattle.std.specs.Prelude.{◌≡◌, true, false, ◌<◌, ◌≤◌, length, take};
ghost use Rattle.model.specs.Floats.{finite_from_zero};
ghost use Rattle.model.specs.Entries.{listed};
ghost use Rattle.model.specs.Channels.{Noise};
ghost use Rattle.model.specs.Calls as Calls;
ghost use Rattle.model.specs.Sound.{Packed};
ghost use Rattle.rebuild.specs.Saved.{with_weights};
ghost use Rattle.arms.specs.Arms.{Stands};
ghost use Rattle.noise.specs.Finish.{number_of, Renormalised, Finished, acted_ready};
ghost use Rattle.noise.specs.Tests.{MayRun};

use arms::Arms;
pub use calls::{
    channel, channel_known, depolarize2, depolarize2_known, rates_refused, two_qubit_pauli_error,
    two_qubit_pauli_error_known,
};
use merging::{Limits, Progress};
use model::{Answer, Header, Size};
use weights::Cut;

// ---- the end of a channel

// Why a channel is refused that its tests let through: a branch found no room, or the entries that are left have a total of 0.
#[derive(Clone, Copy)]
pub enum Refusal {
    NoRoom,
    TotalZero,
}

impl Refusal {
    // The number that the call gives.
    fn number(self) -> u64
        ensures { result ≡ number_of self }
    {
        match self {
            Refusal::NoRoom => 6,
            Refusal::TotalZero => 9,
        }
    }
}

// Normalised if anything was dropped. The answer is false for a list that is not empty and whose total is 0; it is left as it is.
pub fn renormalise(store: &mut [u64], size: Size, p: Progress) -> bool
    requires { Packed size p.count store.old }
    ensures { Renormalised size p store.old result store.new }
{
    if 0 < p.dropped {
        weights::normalise_entries(store, size, p.count)
    } else {
        true
    }
}

// Refused if a branch found no room; normalised if anything was dropped, or refused; then truncated.
pub fn finish(store: &mut [u64], size: Size, cutoff: f64, p: Progress) -> Result<Cut, Refusal>
    requires { Packed size p.count store.old × (finite_from_zero cutoff ≡ true) }
    ensures { Finished size cutoff p store.old result store.new }
{
    if p.full {
        return Err(Refusal::NoRoom);
    }
    if !renormalise(store, size, p) {
        return Err(Refusal::TotalZero);
    }
    Ok(weights::truncate_entries(store, size, p.count, cutoff))
}

// The first `count` of `total` entries with the weights they had before the call, and no others.
pub fn undo(store: &mut [u64], size: Size, count: usize, total: usize, saved: &[u64; 256])
    requires { Packed size total store.old × (count ≤ total) × (length saved.now ≡ 256) }
    ensures { Packed size count store.new × (listed size count store.new ≡ with_weights (take count saved.now) (take count (listed size total store.old))) }
{
    entries::clear_from(store, size, count, total);
    rebuild::restore_weights(store, size, count, saved);
}

// ---- a channel, on a sum that its tests let through: 0, 6 or 9

// With the keys that the entries have, whatever the flag says. An accepted channel clears the flag.
pub fn run_ready(h: Header, store: &mut [u64], arms: Arms) -> Answer
    requires { MayRun (Calls.held h store.old) arms }
    ensures dirty_value { result.number ≡ 0 → result.header.dirty ≡ false }
    ensures store_after { (c : Noise) → Stands arms c → Calls.gave result store.new ≡ acted_ready c (Calls.held h store.old) }
{
    let size = h.size;
    let count = h.count;
    let limits = Limits {
        size,
        threshold: h.threshold,
        cutoff: h.cutoff,
    };
    let mut saved = [0u64; 256];
    let p = spread::spread(store, &mut saved, limits, arms, count);
    match finish(store, size, h.cutoff, p) {
        Ok(cut) => merging::answer(h, cut.left, p, cut.taken),
        Err(refusal) => {
            undo(store, size, count, p.count, &saved);
            answers::plain_answer(h, refusal.number())
        }
    }
}

// A dirty sum's keys are rebuilt first. They are saved, since a refused channel leaves them as they were.
pub fn run_dirty(h: Header, store: &mut [u64], arms: Arms) -> Answer
    requires { MayRun (Calls.held h store.old) arms × (h.dirty ≡ true) }
    ensures { (c : Noise) → Stands arms c → Calls.gave result store.new ≡ Calls.acted (Calls.noise c) (Calls.held h store.old) }
{
    let size = h.size;
    let count = h.count;
    let mut words = [0u64; 256];
    let mut phases = [0u64; 256];
    rebuild::save_keys(&mut words, &mut phases, store, size, count);
    rebuild::rebuild_keys(store, size, count);
    let answer = run_ready(h, store, arms);
    if answer.number == 0 {
        return answer;
    }
    rebuild::restore_keys(store, size, count, &words, &phases);
    answer
}

// The channel itself. Only a dirty sum pays for room to save its keys.
pub fn run(h: Header, store: &mut [u64], arms: Arms) -> Answer
    requires { MayRun (Calls.held h store.old) arms }
    ensures { (c : Noise) → Stands arms c → Calls.gave result store.new ≡ Calls.acted (Calls.noise c) (Calls.held h store.old) }
{
    if h.dirty {
        run_dirty(h, store, arms)
    } else {
        run_ready(h, store, arms)
    }
}
