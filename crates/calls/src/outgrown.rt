// How far a channel that was refused with 6 outgrew its room, worked out by calls on copies of the store, which the refused call left
// as it was.
ghost use Rattle.std.specs.Prelude.{◌≡◌, ◌≤◌, length};
ghost use Rattle.model.specs.Calls.{held};
ghost use Rattle.calls.specs.Instructions.{call_on};
ghost use Rattle.calls.specs.Stores.{laid};
ghost use Rattle.calls.specs.Outgrown as Spec;

use crate::Operation;
use model::{Answer, Header, Size};

// How many entries a call would list before it truncates.
#[derive(Clone, Copy)]
pub enum Asked {
    Exactly(usize),
    AtMost(usize),
}

// .. and a cutoff with which it is accepted, where there are such numbers.
#[derive(Clone, Copy)]
pub struct Outgrown {
    pub entries: Option<Asked>,
    pub cutoff: Option<f64>,
}

// ---- the call on a copy

fn with_capacity(h: Header, capacity: usize) -> Header
    ensures { result ≡ Spec.with_capacity capacity h }
{
    let size = Size { capacity, ..h.size };
    answers::header(size, h.count, h.threshold, h.cutoff, h.dirty)
}

fn with_cutoff(h: Header, cutoff: f64) -> Header
    ensures { result ≡ Spec.with_cutoff cutoff h }
{
    answers::header(h.size, h.count, h.threshold, cutoff, h.dirty)
}

// The answer of the call on a copy of the store, in the first `room` words of the scratch.
fn answer_on_copy(
    h: Header,
    store: &[u64],
    scratch: &mut [u64],
    room: usize,
    o: Operation,
) -> Answer
    requires { (length store.now ≤ room) × (room ≤ length scratch.old) }
    ensures { result ≡ Spec.answer_on (call_on o) h (laid room store.now) }
{
    crate::copy(&mut scratch[..room], store);
    crate::make(h, &mut scratch[..room], o, false)
}

// ---- entries

// The words of a store of 256 entries of this size; 0 beyond the limits of n and k.
#[tactic(auto, unfolding(crate::specs::Outgrown::largest_room))]
fn largest_room(size: Size) -> usize
    ensures { result ≡ Spec.largest_room size }
{
    if size.n <= model::MAX_QUBITS && size.k <= model::MAX_COEFFICIENTS {
        return model::MAX_CAPACITY * entries::entry_len(size);
    }
    0
}

// The entries there, and those that the call stores in room for 256, if the scratch has it.
#[tactic(auto, unfolding(crate::specs::Outgrown::counted, crate::specs::Outgrown::count_of, crate::specs::Outgrown::capped_sum))]
fn counted(h: Header, store: &[u64], scratch: &mut [u64], o: Operation) -> Option<Asked>
    ensures { result ≡ Spec.counted (call_on o) (held h store.now) (length scratch.old) }
{
    let room = largest_room(h.size);
    if scratch.len() < room || room < store.len() {
        return None;
    }
    let wide = with_capacity(h, model::MAX_CAPACITY);
    let a = answer_on_copy(wide, store, scratch, room, o);
    if a.number != 0 {
        return None;
    }
    Some(Asked::Exactly(h.count.saturating_add(a.counts.stored)))
}

// The entries there, and the branches that are like none of them: with the largest cutoff all of these are dropped.
#[tactic(auto, using(crate::proofs::Copies::laid_same), unfolding(crate::specs::Outgrown::bounded, crate::specs::Outgrown::bound_of, crate::specs::Outgrown::capped_sum))]
fn bounded(h: Header, store: &[u64], scratch: &mut [u64], o: Operation) -> Option<Asked>
    requires { length store.now ≤ length scratch.old }
    ensures { result ≡ Spec.bounded (call_on o) (held h store.now) }
{
    let largest = f64::MAX;
    let high = with_cutoff(h, largest);
    let a = answer_on_copy(high, store, scratch, store.len(), o);
    if a.number != 0 {
        return None;
    }
    Some(Asked::AtMost(h.count.saturating_add(a.counts.dropped)))
}

// The first, or else the second.
#[tactic(auto, unfolding(crate::specs::Outgrown::entries_asked))]
fn entries_asked(h: Header, store: &[u64], scratch: &mut [u64], o: Operation) -> Option<Asked>
    requires { length store.now ≤ length scratch.old }
    ensures { result ≡ Spec.entries_asked (call_on o) (held h store.now) (length scratch.old) }
{
    let a = counted(h, store, scratch, o);
    if a.is_some() {
        return a;
    }
    bounded(h, store, scratch, o)
}

// ---- cutoffs

// The larger of the sum's cutoff and 2^-60.
#[tactic(auto, unfolding(crate::specs::Outgrown::first_cutoff))]
fn first_cutoff(cutoff: f64) -> f64
    ensures { result ≡ Spec.first_cutoff cutoff }
{
    let least = f64::from_bits(0x3c30_0000_0000_0000);
    if least < cutoff {
        return cutoff;
    }
    least
}

// That cutoff, or the first up to 1 of those that doubling it gives, with which the call is accepted.
fn fitting_cutoff(h: Header, store: &[u64], scratch: &mut [u64], o: Operation) -> Option<f64>
    requires { length store.now ≤ length scratch.old }
    ensures { result ≡ Spec.fitting_cutoff (call_on o) (held h store.now) }
{
    let mut cutoff = first_cutoff(h.cutoff);
    for _ in 0..65u32 {
        if 1.0 < cutoff {
            return None;
        }
        let high = with_cutoff(h, cutoff);
        let a = answer_on_copy(high, store, scratch, store.len(), o);
        if a.number == 0 {
            return Some(cutoff);
        }
        cutoff = cutoff + cutoff;
    }
    None
}

// ---- both

// Of a call that was refused; unknown to a scratch that is shorter than the store.
#[tactic(auto, unfolding(crate::specs::Outgrown::outgrown_by))]
pub fn outgrown_by(h: Header, store: &[u64], scratch: &mut [u64], o: Operation) -> Outgrown
    ensures { result ≡ Spec.outgrown_by (call_on o) (held h store.now) (length scratch.old) }
{
    if scratch.len() < store.len() {
        return Outgrown {
            entries: None,
            cutoff: None,
        };
    }
    Outgrown {
        entries: entries_asked(h, store, scratch, o),
        cutoff: fitting_cutoff(h, store, scratch, o),
    }
}
