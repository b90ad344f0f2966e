// Headers and answers, each built in one place.
#![tactic(auto)]

ghost use Rattle.std.specs.Prelude.{◌≡◌};
ghost use Rattle.model.specs.Store.{no_loss};
ghost use Rattle.model.specs.Calls.{header_of, header_with, answer_of, no_counts, plain_answer, zero_header};

use model::{Answer, Counts, Header, Lost, Size};

// ---- headers

pub fn header(size: Size, count: usize, threshold: f64, cutoff: f64, dirty: bool) -> Header
    ensures { result ≡ header_of size count threshold cutoff dirty }
{
    Header {
        size,
        count,
        threshold,
        cutoff,
        dirty,
    }
}

// The same sum with another count and another flag.
pub fn header_with(h: Header, count: usize, dirty: bool) -> Header
    ensures { result ≡ header_with h count dirty }
{
    header(h.size, count, h.threshold, h.cutoff, dirty)
}

// The header of a refused fresh call or reading.
pub fn zero_header() -> Header
    ensures { result ≡ zero_header }
{
    header(
        Size {
            n: 0,
            k: 0,
            capacity: 0,
        },
        0,
        0.0,
        0.0,
        false,
    )
}

// ---- answers

pub fn answer(
    number: u64,
    header: Header,
    counts: Counts,
    lost: Lost,
    place: usize,
    length: usize,
) -> Answer
    ensures { result ≡ answer_of number header counts lost place length }
{
    Answer {
        number,
        header,
        counts,
        lost,
        place,
        length,
    }
}

pub fn no_loss() -> Lost
    ensures { result ≡ no_loss }
{
    Lost {
        dropped: 0.0,
        truncated: 0.0,
    }
}

// What a call gives that merges nothing.
pub fn without_counts(
    number: u64,
    header: Header,
    lost: Lost,
    place: usize,
    length: usize,
) -> Answer
    ensures { result ≡ answer_of number header no_counts lost place length }
{
    let counts = Counts {
        merged: 0,
        stored: 0,
        dropped: 0,
        compared: 0,
    };
    answer(number, header, counts, lost, place, length)
}

// A header and a number, and 0 for every other number: what a refusal comes with.
#[tactic(auto, unfolding(model::specs::Calls::plain_answer))]
pub fn plain_answer(header: Header, number: u64) -> Answer
    ensures { result ≡ plain_answer header number }
{
    without_counts(number, header, no_loss(), 0, 0)
}

// What an accepted call that changes nothing gives.
pub fn looked_answer(header: Header, place: usize, length: usize) -> Answer
    ensures { result ≡ answer_of 0 header no_counts no_loss place length }
{
    without_counts(0, header, no_loss(), place, length)
}
