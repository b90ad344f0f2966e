// Items of decimal numbers: a kind, how many values follow, and these.

// Room for what is given.
pub fn room() -> [u8; 524_288] {
    [0u8; 524_288]
}

// What is left to read. Its numbers come one by one, modulo 2^64: each byte from '0' on counts as a digit, each below parts two numbers.
#[derive(Drop)]
pub struct Given<'a>(&'a [u8]);

impl<'a> Given<'a> {
    pub fn new(text: &'a [u8]) -> Self {
        Given(text)
    }

    // The next item: its kind and its values, as many as there is room for, then zeros.
    pub fn item<const N: usize>(&mut self) -> Option<[u64; N]> {
        let kind = self.next()?;
        let mut item = [0; N];
        self.fill(kind, &mut item);
        Some(item)
    }

    // So many calls, as far as there is room for their words: zeros where nothing is left.
    pub fn calls(&mut self, count: usize, calls: &mut [u64]) {
        for call in calls.chunks_exact_mut(crate::CALL_WORDS).take(count) {
            let kind = self.number();
            self.fill(kind, call);
        }
    }

    // An item of this kind, whose values are still to be read.
    fn fill(&mut self, kind: u64, item: &mut [u64]) {
        let count = self.number();
        item.fill(0);
        if let Some((first, values)) = item.split_first_mut() {
            *first = kind;
            for (value, _) in values.iter_mut().zip(0..count) {
                *value = self.number();
            }
        }
    }

    // The next number, 0 where none is left.
    fn number(&mut self) -> u64 {
        self.next().unwrap_or(0)
    }
}

impl<'a> Iterator for Given<'a> {
    type Item = u64;

    fn next(&mut self) -> Option<u64> {
        let text = self.0;
        let start = text.iter().position(|b| *b >= b'0').unwrap_or(text.len());
        let (_, text) = text.split_at(start);
        // Where no digit is left, nothing is: it is not looked for again.
        self.0 = text;
        if text.is_empty() {
            return None;
        }
        let end = text.iter().position(|b| *b < b'0').unwrap_or(text.len());
        let (digits, rest) = text.split_at(end);
        self.0 = rest;
        Some(
            digits.iter().fold(0u64, |value, b| {
                value
                    .wrapping_mul(10)
                    .wrapping_add(u64::from(b.wrapping_sub(b'0')))
            }),
        )
    }
}
