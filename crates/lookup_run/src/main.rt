// Values looked up among coefficients, in cases from standard input (likeness::value_at). Of each case a line: its place, the bits of the
// value's two parts, and how many coefficients were read. differential/lookup_run.py has the cases, and makes both the input and what is
// to come out.
#![tactic(auto)]

use streams::STDIN_FILENO;
use test_support::Given;

// A case is given as an item: how many coefficients are counted, the index that is looked up, K, and K coefficients of three words.
const ITEM_WORDS: usize = 4 + 3 * model::MAX_COEFFICIENTS;

fn look_up(place: u64, coefs: &[u64], count: usize, index: u64) {
    if coefs.len() / 3 < count {
        test_support::text(b"more are counted than there are\n");
        return;
    }
    let found = likeness::value_at(coefs, count, index);
    test_support::number(place);
    test_support::text(b": value");
    test_support::number(words::bits_of(found.re));
    test_support::number(words::bits_of(found.im));
    test_support::text(b", read");
    test_support::number(found.read as u64);
    test_support::text(b"\n");
}

fn run_case(place: u64, item: &[u64; ITEM_WORDS]) {
    let k = item[3] as usize;
    if k > model::MAX_COEFFICIENTS {
        test_support::text(b"a case has no room\n");
        return;
    }
    look_up(place, &item[4..4 + 3 * k], item[1] as usize, item[2]);
}

// The cases up to the end of what is given, at most 2000.
fn run_given(given: &[u8]) {
    let mut given = Given::new(given);
    for place in 1..2001 {
        let Some(item) = given.item() else {
            return;
        };
        run_case(place, &item);
    }
}

fn main() {
    let mut given = test_support::room();
    let n = io::read_full(STDIN_FILENO, &mut given);
    run_given(&given[0..n]);
}
