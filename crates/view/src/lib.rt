// The view of one entry: document 01, "A reader may look at one entry through a view of exactly that stretch". The work is in functions on the
// slice and numbers.
#![tactic(auto)]

ghost use Rattle.std.specs.Prelude.{◌≡◌, ◌+◌, ◌*◌, ◌≤◌, get_or};
ghost use Rattle.model.specs.Floats.{float};
ghost use Rattle.model.specs.Entries.{head_len, entry_of};
ghost use Rattle.model.specs.Calls as Calls;
ghost use Rattle.model.specs.Known.{Known};
ghost use Rattle.view.specs.View.{saw, seen, coef_at, row_words_at};

use model::{Answer, Header, Size};

// A view of one entry, with what the call gave: the words are exactly the entry's stretch of the lent store; of a refused call, none.
#[derive(Clone, Copy)]
pub struct EntryView<'a> {
    pub words: &'a [u64],
    pub answer: Answer,
}

// A coefficient: its index, and its value re + im·i.
#[derive(Clone, Copy)]
pub struct Coef {
    pub index: u64,
    pub re: f64,
    pub im: f64,
}

// A row: bit q of x and z is qubit q; the phase is 0 to 3.
#[derive(Clone, Copy)]
pub struct RowWords {
    pub x: u64,
    pub z: u64,
    pub phase: u64,
}

// ---- the call, on slices and numbers

// What a view of the entry at a place gives. Its length is that of the stretch, and 0 if it is refused. 1, 2, 3, 5.
pub fn view_answer(h: Header, store: &[u64], place: usize) -> Answer
    ensures { result ≡ (Calls.step (Calls.view place) (Calls.held h store.now)).answer }
{
    view_answer_known(h, store, place, false)
}

// .. told whether all but the weights is known to be sound.
pub fn view_answer_known(h: Header, store: &[u64], place: usize, known: bool) -> Answer
    requires { Known known (Calls.held h store.now) }
    ensures { result ≡ (Calls.step (Calls.view place) (Calls.held h store.now)).answer }
{
    let size = h.size;
    let own = checks::test(3, h.count <= place);
    let number = checks::front(h, store, own, known);
    if number != 0 {
        return answers::plain_answer(h, number);
    }
    answers::looked_answer(h, 0, entries::entry_len(size))
}

// The words that it shows: exactly the entry's stretch. A refused view has length 0, and so shows none.
pub fn view_words(h: Header, store: &[u64], place: usize) -> &[u64]
    ensures { result.now ≡ (Calls.step (Calls.view place) (Calls.held h store.now)).output }
{
    view_words_known(h, store, place, false)
}

// .. told whether all but the weights is known to be sound.
pub fn view_words_known(h: Header, store: &[u64], place: usize, known: bool) -> &[u64]
    requires { Known known (Calls.held h store.now) }
    ensures { result.now ≡ (Calls.step (Calls.view place) (Calls.held h store.now)).output }
{
    let answer = view_answer_known(h, store, place, known);
    let len = answer.length;
    words::stretch(store, len, place)
}

// ---- an entry's words, on slices and numbers: 0 past the end

// Word i.
pub fn word_at(words: &[u64], i: usize) -> u64
    ensures { result ≡ get_or words.now i 0 }
{
    words.get(i).copied().unwrap_or(0)
}

// Word i as a float.
pub fn float_at(words: &[u64], i: usize) -> f64
    ensures { result ≡ float (get_or words.now i 0) }
{
    words::float_of(word_at(words, i))
}

// Word p of triple j: behind the head stand three words for each coefficient, then three for each row. Past a third of the
// words a triple begins past their end.
fn triple_word(words: &[u64], j: usize, p: usize) -> u64
    requires { p ≤ 2 }
    ensures { result ≡ get_or words.now (head_len + (3 * j + p)) 0 }
{
    if words.len() / 3 < j {
        return 0;
    }
    word_at(words, 5 + (3 * j + p))
}

// Coefficient j: triple j, of the first k.
pub fn coefficient_at(words: &[u64], size: Size, j: usize) -> Coef
    ensures { result ≡ coef_at (entry_of size words.now).entry.body.coefs j }
{
    if size.k <= j {
        return Coef {
            index: 0,
            re: 0.0,
            im: 0.0,
        };
    }
    Coef {
        index: triple_word(words, j, 0),
        re: words::float_of(triple_word(words, j, 1)),
        im: words::float_of(triple_word(words, j, 2)),
    }
}

// Row r: triple k + r. Where that is more than there are words, it stands past their end.
pub fn row_at(words: &[u64], size: Size, r: usize) -> RowWords
    ensures { result ≡ row_words_at (entry_of size words.now).entry.body.rows r }
{
    let k = size.k;
    if words.len() < k || words.len() - k < r {
        return RowWords {
            x: 0,
            z: 0,
            phase: 0,
        };
    }
    let j = k + r;
    RowWords {
        x: triple_word(words, j, 0),
        z: triple_word(words, j, 1),
        phase: triple_word(words, j, 2),
    }
}

// ---- the call

// THE CALL: a view of the entry at a place. 1, 2, 3, 5.
pub fn view<'a>(h: Header, store: &'a [u64], place: usize) -> EntryView<'a>
    ensures { saw result store.now ≡ Calls.step (Calls.view place) (Calls.held h store.now) }
{
    let answer = view_answer(h, store, place);
    EntryView {
        words: words::stretch(store, answer.length, place),
        answer,
    }
}

// ---- what a view shows: all 0 in a refused one

// Word i.
pub fn word<'a>(v: EntryView<'a>, i: usize) -> u64
    ensures { result ≡ get_or v.entry.words.now i 0 }
{
    word_at(v.words, i)
}

pub fn weight<'a>(v: EntryView<'a>) -> f64
    ensures { result ≡ float (seen v.entry).entry.weight }
{
    float_at(v.words, 0)
}

// Bit q: qubit q is lost.
pub fn loss<'a>(v: EntryView<'a>) -> u64
    ensures { result ≡ (seen v.entry).entry.body.loss }
{
    word_at(v.words, 1)
}

pub fn word_key<'a>(v: EntryView<'a>) -> u64
    ensures { result ≡ (seen v.entry).word_key }
{
    word_at(v.words, 2)
}

pub fn phase_loss_key<'a>(v: EntryView<'a>) -> u64
    ensures { result ≡ (seen v.entry).phase_loss_key }
{
    word_at(v.words, 3)
}

pub fn coefficient_count<'a>(v: EntryView<'a>) -> u64
    ensures { result ≡ (seen v.entry).entry.body.count }
{
    word_at(v.words, 4)
}

// Coefficient j of k; those past the count are 0.
pub fn coefficient<'a>(v: EntryView<'a>, j: usize) -> Coef
    ensures { result ≡ coef_at (seen v.entry).entry.body.coefs j }
{
    coefficient_at(v.words, v.answer.header.size, j)
}

// Row r of 2n.
pub fn row<'a>(v: EntryView<'a>, r: usize) -> RowWords
    ensures { result ≡ row_words_at (seen v.entry).entry.body.rows r }
{
    row_at(v.words, v.answer.header.size, r)
}

// ---- a word of an entry, with plain parameters

// Word i of the view of the entry at a place, 0 past the end and in a refused view.
pub fn view_word(h: Header, store: &[u64], place: usize, i: usize) -> u64
    ensures { result ≡ get_or (Calls.step (Calls.view place) (Calls.held h store.now)).output i 0 }
{
    word(view(h, store, place), i)
}
