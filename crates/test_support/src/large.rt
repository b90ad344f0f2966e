// A sum of 256 entries of the largest size, made from outputs of SplitMix64: 16 groups of 16 variants. The entries of a
// group have equal x and z. Bit 0 of the variant: X applied at qubit 0; bit 1: Z applied there; bit 2: lost at qubit 3; bit 3:
// other indices of the coefficients. So a Pauli at qubit 0, or a loss at 3, leads from an entry to one that is listed.

use model::{MAX_COEFFICIENTS, MAX_ENTRY_WORDS};

// Where the rows of an entry stand.
const ROWS_AT: usize = 5 + 3 * MAX_COEFFICIENTS;

// Output k of the generator with this seed.
fn output(seed: usize, k: usize) -> u64 {
    keys::row_mask(k, seed as u64)
}

// A float from 1/1024 to 1/512.
fn weight_word(e: usize) -> u64 {
    0x3f50_0000_0000_0000 + output(100, e) / 0x1000
}

// A phase after a Pauli that flips it if the lowest bit is set, where that Pauli was applied.
fn flipped(phase: u64, applied: usize, bit: u64) -> u64 {
    if applied % 2 == 1 && bit % 2 == 1 {
        return (phase % 4 + 2) % 4;
    }
    phase % 4
}

#[derive(Clone, Copy)]
struct Entry {
    group: usize,
    variant: usize,
}

impl Entry {
    // From 0, for the first group, to as many as there can be.
    fn coefficient_count(self) -> usize {
        self.group % 16 * MAX_COEFFICIENTS / 15
    }

    // A float of size 0.5 to 1, of either sign; a little larger with the variant.
    fn part_word(self, r: u64) -> u64 {
        let size = 0x3fe0_0000_0000_0000 + r / 0x1000;
        let larger = size.wrapping_add(self.variant as u64 % 16 * 0x1_0000_0000);
        larger.wrapping_add(r % 2 * 0x8000_0000_0000_0000)
    }

    // Word j of the coefficients: index, re, im by turns.
    fn coefficient_word(self, j: usize) -> u64 {
        let c = j / 3;
        if self.coefficient_count() <= c {
            return 0;
        }
        if j % 3 == 0 {
            return (c % MAX_COEFFICIENTS) as u64 + self.variant as u64 / 8 % 2 * 1000;
        }
        self.part_word(output(self.group, j))
    }

    fn row_output(self, j: usize) -> u64 {
        output(self.group, 1000 + j % 1000)
    }

    // The phase at word j of the rows; x and z stand before it. X flips it if z is set at qubit 0, Z if x is.
    fn phase_word(self, j: usize) -> u64 {
        if j < 2 {
            return 0;
        }
        let x = self.row_output(j - 2);
        let z = self.row_output(j - 1);
        flipped(
            flipped(self.row_output(j), self.variant, z),
            self.variant / 2,
            x,
        )
    }

    // Word j of the rows: x, z, phase by turns.
    fn row_word(self, j: usize) -> u64 {
        if j % 3 == 2 {
            return self.phase_word(j);
        }
        self.row_output(j)
    }
}

// Word j of entry e. The keys are 0: the sum is dirty.
fn large_word(e: usize, j: usize) -> u64 {
    let entry = Entry {
        group: e / 16,
        variant: e % 16,
    };
    match j {
        0 => weight_word(e),
        1 => entry.variant as u64 / 4 % 2 * 8,
        2 | 3 => 0,
        4 => entry.coefficient_count() as u64,
        _ if j < ROWS_AT => entry.coefficient_word(j - 5),
        _ => entry.row_word(j - ROWS_AT),
    }
}

// The words of that sum.
pub fn lay_large(words: &mut [u64]) {
    for (e, entry) in words.chunks_mut(MAX_ENTRY_WORDS).enumerate() {
        for (j, word) in entry.iter_mut().enumerate() {
            *word = large_word(e, j);
        }
    }
}
