// Cutoffs tried before a campaign: document 02, [2]. Each trial begins with a fresh sum and makes the calls of the steps, one by one.
#![tactic(auto)]

mod steps;

ghost use Rattle.std.specs.Prelude.{◌≡◌, ◌&&◌, [], ◌∷◌, ◌++◌, ◌+◌, ◌*◌, ◌-◌, ◌<◌, ◌≤◌, length, take, set};
ghost use Rattle.model.specs.Floats.{finite_from_zero};
ghost use Rattle.model.specs.Lists.{every};
ghost use Rattle.model.specs.Numbers.{first_of, one_to};
ghost use Rattle.model.specs.Calls.{held, overlaid};
ghost use Rattle.model.specs.Known.{Checked};
ghost use Rattle.model.specs.Demand3.{after_calls};
ghost use Rattle.model.specs.Trials.{max_steps, max_cutoffs, trial_tests, trial_number, step_calls, accepted_of, places_of, repeated, plan_of, trial_left, trial_places, last_cutoff, tried, TrialsPromise};

use model::{Answer, Channel, Header, Size};
pub use steps::{DOES_NOT_FIT, try_steps};

pub const MAX_STEPS: usize = 64;

pub const MAX_CUTOFFS: usize = 8;

// ---- the tests

// 2: every cutoff is neither NaN nor infinite nor below 0.
fn cutoffs_sound(cutoffs: &[f64]) -> bool
    ensures { result ≡ every finite_from_zero cutoffs.now }
{
    cutoffs.iter().all(|c| checks::finite_from_zero(*c))
}

// 11 does not apply.
fn counts_sound(count: usize, cutoffs: usize) -> bool
    ensures { result ≡ (one_to max_steps count && one_to max_cutoffs cutoffs) }
{
    checks::one_to(MAX_STEPS, count) && checks::one_to(MAX_CUTOFFS, cutoffs)
}

// 1, 11, 2 or 8, in this order, or 0: all that is judged before the first trial. A number, as the C interface gives it in an answer.
#[tactic(auto, unfolding(model::specs::Numbers::first_of, model::specs::Trials::trial_tests))]
fn trials_number(
    size: Size,
    threshold: f64,
    cutoffs: &[f64],
    count: usize,
    words: usize,
    room: usize,
) -> u64
    ensures { result ≡ first_of (trial_tests size threshold cutoffs.now count words room) }
{
    if !checks::size_sound(size, words) {
        return 1;
    }
    if !counts_sound(count, cutoffs.len()) {
        return 11;
    }
    if !checks::finite_from_zero(threshold) || !cutoffs_sound(cutoffs) {
        return 2;
    }
    checks::test(8, room < 2 * cutoffs.len() * count)
}

// ---- a trial

// Place i: a number, and how many entries there are.
fn put_place(places: &mut [u64], i: usize, number: u64, entries: u64)
    requires { (i < 64) × (2 * i + 2 ≤ length places.old) }
    ensures { places.new ≡ set (set places.old (2 * i) number) (2 * i + 1) entries }
{
    let at = 2 * i;
    places[at] = number;
    places[at + 1] = entries;
}

// Places i to `count`, which are the last: what a refused step shows.
fn fill_places(places: &mut [u64], i: usize, count: usize, number: u64, entries: u64)
    requires { (i ≤ count) × (count ≤ 64) × (length places.old ≡ 2 * count) }
    ensures { places.new ≡ take (2 * i) places.old ++ repeated (count - i) (number ∷ entries ∷ []) }
{
    for place in i..count {
        put_place(places, place, number, entries);
    }
}

// The steps on a fresh sum, up to the first that is refused; a place for each.
fn run_trial(
    h: Header,
    store: &mut [u64],
    channels: [Channel; 64],
    qubits: [usize; 64],
    count: usize,
    places: &mut [u64],
) -> Header
    requires { Checked (held h store.old) × (count ≤ 64) × (length places.old ≡ 2 * count) }
    ensures left { held result store.new ≡ after_calls (accepted_of (step_calls count channels qubits) (held h store.old)) (held h store.old) }
    ensures shown { places.new ≡ places_of (step_calls count channels qubits) (held h store.old) }
{
    let mut header = h;
    for i in 0..count {
        let channel = channels[i];
        let a = noise::channel_known(header, store, channel, qubits[i], true);
        header = a.header;
        let entries = header.count as u64;
        if a.number != 0 {
            fill_places(places, i, count, a.number, entries);
            return header;
        }
        put_place(places, i, 0, entries);
    }
    header
}

// ---- the trials

// Each cutoff's, in order. What is left is the last one's sum.
fn run_trials(
    size: Size,
    threshold: f64,
    cutoffs: &[f64],
    channels: [Channel; 64],
    qubits: [usize; 64],
    count: usize,
    store: &mut [u64],
    out: &mut [u64],
) -> Header
    requires { trial_number (plan_of size threshold cutoffs.now channels qubits count) (length store.old) (length out.old) ≡ 0 }
    ensures left { held result store.new ≡ trial_left (plan_of size threshold cutoffs.now channels qubits count) store.old (last_cutoff (plan_of size threshold cutoffs.now channels qubits count)) }
    ensures shown { out.new ≡ overlaid (trial_places (plan_of size threshold cutoffs.now channels qubits count) store.old) out.old }
{
    let words = 2 * count;
    let mut header = answers::zero_header();
    for (i, cutoff) in cutoffs.iter().enumerate() {
        let a = fresh::fresh(size, threshold, *cutoff, store);
        let from = i * words;
        let to = from + words;
        header = run_trial(a.header, store, channels, qubits, count, &mut out[from..to]);
    }
    header
}

// THE CALL: for each cutoff, from a fresh sum on, the steps one by one: channels[i] on qubits[i], the first `count`. Two words of `out` for each,
// cutoff after cutoff: its number, and the entries after it. 1, 11, 2, 8.
pub fn try_cutoffs(
    size: Size,
    threshold: f64,
    cutoffs: &[f64],
    channels: [Channel; 64],
    qubits: [usize; 64],
    count: usize,
    store: &mut [u64],
    out: &mut [u64],
) -> Answer
    ensures answer { result ≡ (tried (plan_of size threshold cutoffs.now channels qubits count) (length out.old) store.old).answer }
    ensures words { store.new ≡ (tried (plan_of size threshold cutoffs.now channels qubits count) (length out.old) store.old).words }
    ensures output { out.new ≡ overlaid (tried (plan_of size threshold cutoffs.now channels qubits count) (length out.old) store.old).output out.old }
    ensures promise { result.number ≡ 0 → TrialsPromise (plan_of size threshold cutoffs.now channels qubits count) store.old (held result.header store.new) (take result.length out.new) }
{
    let number = trials_number(size, threshold, cutoffs, count, store.len(), out.len());
    if number != 0 {
        return answers::plain_answer(answers::zero_header(), number);
    }
    let h = run_trials(
        size, threshold, cutoffs, channels, qubits, count, store, out,
    );
    answers::without_counts(0, h, answers::no_loss(), 0, 2 * cutoffs.len() * count)
}
