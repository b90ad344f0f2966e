// A sum of four entries, each looked at through a view, and so is the place behind them, whose view is refused and shows 0 everywhere. For
// each place a line with the view's number, and what the accessors give: weight, loss, word key, phase-loss key and number of coefficients;
// a line for each coefficient and for one that is not there; the same for the rows; and a line with the words. Floats are printed by their
// bits. differential/view_run.py works out what is to come out.
#![tactic(auto)]

ghost use Rattle.std.specs.Prelude.{◌≡◌};
ghost use Rattle.model.specs.Floats.{float};
ghost use Rattle.view.specs.View.{coef_at, row_words_at};
ghost use Rattle.view_run.specs.Shown.{shown_entry};

use model::{Channel, Gate, Header, Size};
use view::{Coef, RowWords};

// ---- what a view shows, with plain parameters

fn weight(h: Header, store: &[u64], place: usize) -> f64
    ensures { result ≡ float (shown_entry h store.now place).entry.weight }
{
    view::weight(view::view(h, store, place))
}

fn loss(h: Header, store: &[u64], place: usize) -> u64
    ensures { result ≡ (shown_entry h store.now place).entry.body.loss }
{
    view::loss(view::view(h, store, place))
}

fn word_key(h: Header, store: &[u64], place: usize) -> u64
    ensures { result ≡ (shown_entry h store.now place).word_key }
{
    view::word_key(view::view(h, store, place))
}

fn phase_loss_key(h: Header, store: &[u64], place: usize) -> u64
    ensures { result ≡ (shown_entry h store.now place).phase_loss_key }
{
    view::phase_loss_key(view::view(h, store, place))
}

fn coefficient_count(h: Header, store: &[u64], place: usize) -> u64
    ensures { result ≡ (shown_entry h store.now place).entry.body.count }
{
    view::coefficient_count(view::view(h, store, place))
}

fn coefficient(h: Header, store: &[u64], place: usize, j: usize) -> Coef
    ensures { result ≡ coef_at (shown_entry h store.now place).entry.body.coefs j }
{
    view::coefficient(view::view(h, store, place), j)
}

fn row(h: Header, store: &[u64], place: usize, r: usize) -> RowWords
    ensures { result ≡ row_words_at (shown_entry h store.now place).entry.body.rows r }
{
    view::row(view::view(h, store, place), r)
}

// ---- what is told

fn tell_head(h: Header, store: &[u64], place: usize) {
    let answer = view::view_answer(h, store, place);
    test_support::text(b"view");
    test_support::number(place as u64);
    test_support::text(b" gives");
    test_support::number(answer.number);
    test_support::text(b":");
    test_support::number(words::bits_of(weight(h, store, place)));
    test_support::number(loss(h, store, place));
    test_support::number(word_key(h, store, place));
    test_support::number(phase_loss_key(h, store, place));
    test_support::number(coefficient_count(h, store, place));
    test_support::text(b"\n");
}

fn tell_coefficient(h: Header, store: &[u64], place: usize, j: usize) {
    let c = coefficient(h, store, place, j);
    test_support::text(b"coefficient");
    test_support::number(j as u64);
    test_support::text(b":");
    test_support::number(c.index);
    test_support::number(words::bits_of(c.re));
    test_support::number(words::bits_of(c.im));
    test_support::text(b"\n");
}

fn tell_row(h: Header, store: &[u64], place: usize, r: usize) {
    let s = row(h, store, place, r);
    test_support::text(b"row");
    test_support::number(r as u64);
    test_support::text(b":");
    test_support::number(s.x);
    test_support::number(s.z);
    test_support::number(s.phase);
    test_support::text(b"\n");
}

// The words of an entry, and one that is not there.
fn tell_words(h: Header, store: &[u64], place: usize) {
    test_support::text(b"words:");
    for i in 0..24 {
        test_support::number(view::view_word(h, store, place, i));
    }
    test_support::text(b"\n");
}

fn tell(h: Header, store: &[u64], place: usize) {
    tell_head(h, store, place);
    for j in 0..3 {
        tell_coefficient(h, store, place, j);
    }
    for r in 0..5 {
        tell_row(h, store, place, r);
    }
    tell_words(h, store, place);
}

// ---- the sum

// A second coefficient for the first entry, (1 - i)/4 at index 3.
fn put_coefficient(store: &mut [u64]) {
    test_support::put_word(store, 4, 2);
    test_support::put_word(store, 8, 3);
    test_support::put_word(store, 9, words::bits_of(0.25));
    test_support::put_word(store, 10, words::bits_of(-0.25));
}

// n 2, K 2, capacity 5: 23 words an entry.
fn begun(store: &mut [u64]) -> Header {
    let size = Size {
        n: 2,
        k: 2,
        capacity: 5,
    };
    let a = fresh::fresh(size, 0.5, 0.0, store);
    put_coefficient(store);
    a.header
}

fn turned(h: Header, store: &mut [u64]) -> Header {
    let a = gates::gate(h, store, Gate::H(0));
    let b = gates::gate(a.header, store, Gate::S(0));
    let c = gates::gate(b.header, store, Gate::Cnot(0, 1));
    c.header
}

// Z and a loss: a second entry, and then two more.
fn branched(h: Header, store: &mut [u64]) -> Header {
    let a = noise::channel(h, store, Channel::Pauli(0.0, 0.0, 0.1), 0);
    let b = noise::channel(a.header, store, Channel::Loss(0.3), 1);
    b.header
}

fn made(store: &mut [u64]) -> Header {
    let h = begun(store);
    let t = turned(h, store);
    branched(t, store)
}

fn main() {
    let mut store = [0u64; 115];
    let h = made(&mut store);
    for place in 0..5 {
        tell(h, &store, place);
    }
}
