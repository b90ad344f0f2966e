// A list of calls, each from its words, run on a lent store. `run` goes on from a header; `run_fresh` and `run_sheet` begin the sum
// themselves, and promise what demand 3 says of compiled code: specs/Promise.antt.
#![tactic(auto)]

ghost use Rattle.std.specs.Prelude.{◌≡◌, true, not, ◌&&◌, ◌*◌, ◌≤◌, eqb, leb, length};
ghost use Rattle.model.specs.Lists.{groups, every};
ghost use Rattle.model.specs.Calls as Calls;
ghost use Rattle.model.specs.Calls.{held, gave};
ghost use Rattle.model.specs.Known.{Checked, Known};
ghost use Rattle.perform.specs.Encoding.{call_words, most_shown, fitting};
ghost use Rattle.runs.specs.Runs as Runs;
ghost use Rattle.runs.specs.Runs.{record_len, unfit, came, ran_all, ran_on, ran_after, ran_from, calls_in};
ghost use Rattle.runs.specs.Promise.{Promise};

use model::{Answer, Header, Size};

// What each call has room for: so many words behind the numbers of its record, for a table or a view (perform::SHOWN_WORDS, or 0 in a list
// that has neither; perform::MOST_SHOWN at most), and so many bytes of text, for a sheet or a page.
#[repr(C)]
#[derive(Clone, Copy)]
pub struct Room {
    pub shown: usize,
    pub bytes: usize,
}

// What a run gives: 0, how many calls were made, and the header as the last one left it; DOES_NOT_FIT; or the number of a refused start.
#[repr(C)]
#[derive(Clone, Copy)]
pub struct Ran {
    pub number: u64,
    pub made: usize,
    pub header: Header,
}

// The number of a run that does not fit: its words are no whole calls of known kinds, or records, log or text are too short for them. No
// call gives it. A number, for the C interface.
pub const DOES_NOT_FIT: u64 = 19;

// ---- what is there for a run

// Room for `count` parts of `each`.
fn enough(room: usize, each: usize, count: usize) -> bool
    ensures { result ≡ leb (count * each) room }
{
    each == 0 || count <= room / each
}

// Every call has a known kind, and a record that can show what it may show.
fn all_fitting(calls: &[u64], count: usize, shown: usize) -> bool
    requires { count * call_words ≤ length calls.now }
    ensures { result ≡ every (fitting shown) (groups call_words count calls.now) }
{
    for i in 0..count {
        let call = words::stretch(calls, perform::CALL_WORDS, i);
        if !perform::fitting(call, shown) {
            return false;
        }
    }
    true
}

// The words of a record.
fn record_len(room: Room) -> usize
    requires { room.shown ≤ most_shown }
    ensures { result ≡ record_len room }
{
    perform::NUMBER_WORDS + room.shown
}

// Whole calls of known kinds that can show what they may show, with a record and a stretch of text for each.
#[tactic(auto, unfolding(crate::specs::Runs::fits))]
fn fits(calls: &[u64], log: usize, text: usize, room: Room) -> bool
    ensures { result ≡ Runs.fits room calls.now log text }
{
    let words = calls.len();
    let count = words / perform::CALL_WORDS;
    words % perform::CALL_WORDS == 0
        && room.shown <= perform::MOST_SHOWN
        && enough(log, record_len(room), count)
        && enough(text, room.bytes, count)
        && all_fitting(calls, count, room.shown)
}

// ---- runs

// A refusal ends the run.
fn ends(stop: bool, number: u64) -> bool
    ensures { result ≡ (stop && not (eqb number 0)) }
{
    stop && number != 0
}

// All calls, in order, each given header and store as the last one left them; with `stop`, up to the first that is refused. The bodies are
// looked through until a call is accepted, and not again.
fn run_calls(
    h: Header,
    store: &mut [u64],
    calls: &[u64],
    log: &mut [u64],
    text: &mut [u8],
    room: Room,
    stop: bool,
    known: bool,
) -> Ran
    requires { (Runs.fits room calls.now (length log.old) (length text.old) ≡ true) × Known known (held h store.old) }
    ensures { came result store.new log.new text.new ≡ ran_all room stop (calls_in room.bytes calls.now) (held h store.old) log.old text.old }
{
    let count = calls.len() / perform::CALL_WORDS;
    let words = record_len(room);
    let bytes = room.bytes;
    let mut header = h;
    let mut sure = known;
    for made in 0..count {
        let call = words::stretch(calls, perform::CALL_WORDS, made);
        let from = made * words;
        let to = from + words;
        let at = made * bytes;
        let end = at + bytes;
        let a = perform::perform(
            header,
            store,
            call,
            &mut log[from..to],
            &mut text[at..end],
            sure,
        );
        header = a.header;
        sure = checks::known_after(sure, a.number);
        if ends(stop, a.number) {
            return Ran {
                number: 0,
                made: made + 1,
                header,
            };
        }
    }
    Ran {
        number: 0,
        made: count,
        header,
    }
}

// The calls on the sum that a header and a store hold, sound or not: all of them or, with `stop`, those up to the first that is refused. A
// refused call changes nothing but its record. Call i has record i of `log`, 11 words and those it has room to show, and stretch i of
// `text`. DOES_NOT_FIT comes with the header as given, and nothing changed.
pub fn run(
    h: Header,
    store: &mut [u64],
    calls: &[u64],
    log: &mut [u64],
    text: &mut [u8],
    room: Room,
    stop: bool,
) -> Ran
    ensures { came result store.new log.new text.new ≡ ran_on room stop calls.now (held h store.old) log.old text.old }
{
    if fits(calls, log.len(), text.len(), room) {
        return run_calls(h, store, calls, log, text, room, stop, false);
    }
    Ran {
        number: DOES_NOT_FIT,
        made: 0,
        header: h,
    }
}

// ---- runs from a start on

// What a run gives that does not fit, and so does not start.
fn unfit_run() -> Ran
    ensures { result ≡ unfit }
{
    Ran {
        number: DOES_NOT_FIT,
        made: 0,
        header: answers::zero_header(),
    }
}

// The calls, if the start that gave this answer was accepted.
fn run_after(
    a: Answer,
    store: &mut [u64],
    calls: &[u64],
    log: &mut [u64],
    text: &mut [u8],
    room: Room,
) -> Ran
    requires { (Runs.fits room calls.now (length log.old) (length text.old) ≡ true) × (a.number ≡ 0 → Checked (held a.header store.old)) }
    ensures { came result store.new log.new text.new ≡ ran_after room (calls_in room.bytes calls.now) (gave a store.old) log.old text.old }
{
    let number = a.number;
    let header = a.header;
    if number != 0 {
        return Ran {
            number,
            made: 0,
            header,
        };
    }
    run_calls(header, store, calls, log, text, room, false, true)
}

// A fresh sum, and then the calls on it. DOES_NOT_FIT first; then 1 and 2, as `fresh` gives them; with any of them a header of zeros, and
// nothing changed.
pub fn run_fresh(
    size: Size,
    threshold: f64,
    cutoff: f64,
    store: &mut [u64],
    calls: &[u64],
    log: &mut [u64],
    text: &mut [u8],
    room: Room,
) -> Ran
    ensures exact { came result store.new log.new text.new ≡ ran_from room calls.now (Calls.fresh size threshold cutoff) store.old log.old text.old }
    ensures promise { Promise room calls.now (Calls.fresh size threshold cutoff) store.old log.old text.old (came result store.new log.new text.new) }
{
    if !fits(calls, log.len(), text.len(), room) {
        return unfit_run();
    }
    let a = fresh::fresh(size, threshold, cutoff, store);
    run_after(a, store, calls, log, text, room)
}

// The sum of a sheet, and then the calls on it. DOES_NOT_FIT first; then 7, 1, 2 and 5, as `read_sheet` gives them; with any of them a
// header of zeros, and nothing changed.
pub fn run_sheet(
    sheet: &[u8],
    store: &mut [u64],
    calls: &[u64],
    log: &mut [u64],
    text: &mut [u8],
    room: Room,
) -> Ran
    ensures exact { came result store.new log.new text.new ≡ ran_from room calls.now (Calls.read sheet.now) store.old log.old text.old }
    ensures promise { Promise room calls.now (Calls.read sheet.now) store.old log.old text.old (came result store.new log.new text.new) }
{
    if !fits(calls, log.len(), text.len(), room) {
        return unfit_run();
    }
    let a = reader::read_sheet(sheet, store);
    run_after(a, store, calls, log, text, room)
}
