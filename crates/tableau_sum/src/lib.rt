// The calls of document 01, and the page and the trials of document 02, for programs in C and Rust, one by one or a list of them at once: what
// `rt lib` puts into libtableau_sum.a. Each function makes one call of another crate and promises what that promises. A slice
// is passed as a pointer and a length, the structs as C lays them out; a call takes its header and store first, then qubits, then rates. After
// each call, the numbers it can give besides 0.
#![tactic(auto)]

ghost use Rattle.std.specs.Prelude.{◌≡◌, length, get_or, take};
ghost use Rattle.model.specs.Channels.{one, two};
ghost use Rattle.model.specs.Channels as Channels;
ghost use Rattle.model.specs.Calls as Calls;
ghost use Rattle.model.specs.Calls.{held, gave, step, start, overlaid};
ghost use Rattle.runs.specs.Runs.{came, ran_on};
ghost use Rattle.model.specs.Trials.{plan_of, TrialsPromise};
ghost use Rattle.trials.specs.Steps.{channels_in, tried_from};

use model::{Answer, Channel, Gate, Header, Size};
use runs::{Ran, Room};

// ---- a sum begins

// A sum of the fresh entry, in a store holding any words. 1, 2.
#[unsafe(no_mangle)]
pub extern "C" fn tableau_sum_fresh(
    size: Size,
    threshold: f64,
    cutoff: f64,
    store: &mut [u64],
) -> Answer
    ensures { gave result store.new ≡ start (Calls.fresh size threshold cutoff) store.old }
{
    fresh::fresh(size, threshold, cutoff, store)
}

// A sum from the text of its sheet, in a store holding any words. 7, 1, 2, 5.
#[unsafe(no_mangle)]
pub extern "C" fn tableau_sum_read_sheet(text: &[u8], store: &mut [u64]) -> Answer
    ensures { gave result store.new ≡ start (Calls.read text.now) store.old }
{
    reader::read_sheet(text, store)
}

// ---- channels and reset

// X, Y and Z at qubit q, each with its rate. 1 to 6, 9.
#[unsafe(no_mangle)]
pub extern "C" fn tableau_sum_pauli_error(
    h: Header,
    store: &mut [u64],
    q: usize,
    x: f64,
    y: f64,
    z: f64,
) -> Answer
    ensures { gave result store.new ≡ step (Calls.noise (one (Channel.Pauli x y z) q)) (held h store.old) }
{
    noise::channel(h, store, Channel::Pauli(x, y, z), q)
}

// Qubit q is lost. 1 to 6, 9.
#[unsafe(no_mangle)]
pub extern "C" fn tableau_sum_loss_channel(
    h: Header,
    store: &mut [u64],
    q: usize,
    rate: f64,
) -> Answer
    ensures { gave result store.new ≡ step (Calls.noise (one (Channel.Loss rate) q)) (held h store.old) }
{
    noise::channel(h, store, Channel::Loss(rate), q)
}

// X, Y and Z at qubit q, each with a third of the rate. 1 to 6, 9.
#[unsafe(no_mangle)]
pub extern "C" fn tableau_sum_depolarize1(
    h: Header,
    store: &mut [u64],
    q: usize,
    rate: f64,
) -> Answer
    ensures { gave result store.new ≡ step (Calls.noise (one (Channel.Depolarizing rate) q)) (held h store.old) }
{
    noise::channel(h, store, Channel::Depolarizing(rate), q)
}

// Pairs of Paulis at qubits p and q, which may be the same one, with 15 rates in the order of `PAULI_PAIRS`. 1 to 6, 9.
#[unsafe(no_mangle)]
pub extern "C" fn tableau_sum_two_qubit_pauli_error(
    h: Header,
    store: &mut [u64],
    p: usize,
    q: usize,
    rates: &[f64; 15],
) -> Answer
    ensures { gave result store.new ≡ step (Calls.noise (two rates.now p q)) (held h store.old) }
{
    noise::two_qubit_pauli_error(h, store, *rates, p, q)
}

// Each of these pairs with a fifteenth of the rate. 1 to 6, 9.
#[unsafe(no_mangle)]
pub extern "C" fn tableau_sum_depolarize2(
    h: Header,
    store: &mut [u64],
    p: usize,
    q: usize,
    rate: f64,
) -> Answer
    ensures { gave result store.new ≡ step (Calls.noise (Channels.depolarize2 rate p q)) (held h store.old) }
{
    noise::depolarize2(h, store, rate, p, q)
}

// Entries lost at q become live. 1, 2, 3, 5.
#[unsafe(no_mangle)]
pub extern "C" fn tableau_sum_reset_loss_channel(h: Header, store: &mut [u64], q: usize) -> Answer
    ensures { gave result store.new ≡ step (Calls.reset q) (held h store.old) }
{
    reset::reset_loss_channel(h, store, q)
}

// ---- gates

// 1, 2, 3, 5.
#[unsafe(no_mangle)]
pub extern "C" fn tableau_sum_h(h: Header, store: &mut [u64], q: usize) -> Answer
    ensures { gave result store.new ≡ step (Calls.gate (Gate.H q)) (held h store.old) }
{
    gates::gate(h, store, Gate::H(q))
}

// 1, 2, 3, 5.
#[unsafe(no_mangle)]
pub extern "C" fn tableau_sum_s(h: Header, store: &mut [u64], q: usize) -> Answer
    ensures { gave result store.new ≡ step (Calls.gate (Gate.S q)) (held h store.old) }
{
    gates::gate(h, store, Gate::S(q))
}

// From qubit a to qubit b. 1, 2, 3, 5.
#[unsafe(no_mangle)]
pub extern "C" fn tableau_sum_cnot(h: Header, store: &mut [u64], a: usize, b: usize) -> Answer
    ensures { gave result store.new ≡ step (Calls.gate (Gate.Cnot a b)) (held h store.old) }
{
    gates::gate(h, store, Gate::Cnot(a, b))
}

// ---- weights

// The entries above the cutoff are kept and, if any went, normalised. 1, 2, 5.
#[unsafe(no_mangle)]
pub extern "C" fn tableau_sum_truncate(h: Header, store: &mut [u64]) -> Answer
    ensures { gave result store.new ≡ step Calls.truncate (held h store.old) }
{
    weights::truncate(h, store)
}

// Each weight is divided by the total. 1, 2, 5, 9.
#[unsafe(no_mangle)]
pub extern "C" fn tableau_sum_normalise(h: Header, store: &mut [u64]) -> Answer
    ensures { gave result store.new ≡ step Calls.normalise (held h store.old) }
{
    weights::normalise(h, store)
}

// ---- calls that only look

// The sampling table at the start of `out`, two words an entry: list place, total bits. The length counts words. 1, 2, 5, 8, 9.
#[unsafe(no_mangle)]
pub extern "C" fn tableau_sum_table(h: Header, store: &[u64], out: &mut [u64]) -> Answer
    ensures answer { result ≡ (step (Calls.table (length out.old)) (held h store.now)).answer }
    ensures output { out.new ≡ overlaid (step (Calls.table (length out.old)) (held h store.now)).output out.old }
{
    table::table(h, store, out)
}

// The place of the entry that a draw picks. 1, 2, 5, 9, 10.
#[unsafe(no_mangle)]
pub extern "C" fn tableau_sum_pick(h: Header, store: &[u64], draw: f64) -> Answer
    ensures { result ≡ (step (Calls.pick draw) (held h store.now)).answer }
{
    table::pick(h, store, draw)
}

// The sum's sheet at the start of `out`. The length counts bytes. 1, 2, 5, 8.
#[unsafe(no_mangle)]
pub extern "C" fn tableau_sum_write_sheet(h: Header, store: &[u64], out: &mut [u8]) -> Answer
    ensures answer { result ≡ (step (Calls.sheet (length out.old)) (held h store.now)).answer }
    ensures output { out.new ≡ overlaid (step (Calls.sheet (length out.old)) (held h store.now)).output out.old }
{
    sheet::write_sheet(h, store, out)
}

// The sum's weight page at the start of `out`. The length counts bytes. 1, 2, 5, 8.
#[unsafe(no_mangle)]
pub extern "C" fn tableau_sum_write_page(h: Header, store: &[u64], out: &mut [u8]) -> Answer
    ensures answer { result ≡ (step (Calls.page (length out.old)) (held h store.now)).answer }
    ensures output { out.new ≡ overlaid (step (Calls.page (length out.old)) (held h store.now)).output out.old }
{
    page::write_page(h, store, out)
}

// A view of the entry at a place: the length is that of its stretch, which begins at place × length in the store. 1, 2, 3, 5.
#[unsafe(no_mangle)]
pub extern "C" fn tableau_sum_view(h: Header, store: &[u64], place: usize) -> Answer
    ensures { result ≡ (step (Calls.view place) (held h store.now)).answer }
{
    view::view_answer(h, store, place)
}

// Word i of that view, 0 past its end and where it is refused: an exported function returns no slice.
#[unsafe(no_mangle)]
pub extern "C" fn tableau_sum_view_word(h: Header, store: &[u64], place: usize, i: usize) -> u64
    ensures { result ≡ get_or (step (Calls.view place) (held h store.now)).output i 0 }
{
    view::view_word(h, store, place, i)
}

// ---- a list of calls

// The calls that these words say, in order, each with a record in `log` and a stretch of `text`: all of them or, with `stop`, those up to the
// first that is refused. 19; what each call gave is in its record.
#[unsafe(no_mangle)]
pub extern "C" fn tableau_sum_run(
    h: Header,
    store: &mut [u64],
    calls: &[u64],
    log: &mut [u64],
    text: &mut [u8],
    room: Room,
    stop: bool,
) -> Ran
    ensures { came result store.new log.new text.new ≡ ran_on room stop calls.now (held h store.old) log.old text.old }
{
    runs::run(h, store, calls, log, text, room, stop)
}

// ---- cutoffs before a campaign

// For each cutoff, from a fresh sum on, the steps one by one: kind 0, X, Y and Z with three rates; 1, loss; 2, depolarising, each with the first of
// its three. Two words of `out` for each, cutoff after cutoff: its number, and the entries after it. The length counts words, and the last
// trial's sum is left. 1, 11, 2, 8; 19.
#[unsafe(no_mangle)]
pub extern "C" fn tableau_sum_try_cutoffs(
    size: Size,
    threshold: f64,
    cutoffs: &[f64],
    kinds: &[u64],
    qubits: &[usize],
    rates: &[f64],
    store: &mut [u64],
    out: &mut [u64],
) -> Answer
    ensures answer { result ≡ (tried_from size threshold cutoffs.now kinds.now qubits.now rates.now (length out.old) store.old).answer }
    ensures words { store.new ≡ (tried_from size threshold cutoffs.now kinds.now qubits.now rates.now (length out.old) store.old).words }
    ensures output { out.new ≡ overlaid (tried_from size threshold cutoffs.now kinds.now qubits.now rates.now (length out.old) store.old).output out.old }
    ensures promise { result.number ≡ 0 → TrialsPromise (plan_of size threshold cutoffs.now (channels_in kinds.now rates.now) qubits.now (length kinds.now)) store.old (held result.header store.new) (take result.length out.new) }
{
    trials::try_steps(size, threshold, cutoffs, kinds, qubits, rates, store, out)
}
