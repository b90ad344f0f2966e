// Masks and keys (document 01, point 1). Rows are words (x, z, phase), 2n of them.
#![tactic(auto)]

ghost use Rattle.std.specs.Prelude.{◌≡◌, ◌+◌, ◌*◌, ◌≤◌, All, map, length, bit_xor};
ghost use Rattle.model.specs.Entries.{x_at, z_at, phase_at};
ghost use Rattle.model.specs.Keys.{usual_salts, mix, row_mask, bit, if_set, mask_xor, phase_mask, phase_part, phase_loss_key, absorb, word_key};
ghost use Rattle.keys.specs.Tables.{PhaseMasks, key_of_rows};
ghost use Rattle.model.specs.declared.Salts.{Salts};

use model::Salts;

const GOLDEN: u64 = 0x9E37_79B9_7F4A_7C15;

// ---- masks

// The salts of document 01: one byte repeated eight times.
pub fn usual_salts() -> Salts
    ensures { result ≡ usual_salts }
{
    Salts {
        sign: 0xA1A1_A1A1_A1A1_A1A1,
        imag: 0xB2B2_B2B2_B2B2_B2B2,
        loss: 0xC3C3_C3C3_C3C3_C3C3,
    }
}

// SplitMix64's finalizer.
#[tactic(auto, unfolding(model::specs::Keys::shift_xor, model::specs::Keys::mix))]
pub fn finalize(z: u64) -> u64
    ensures { result ≡ mix z }
{
    let a = (z ^ (z >> 30)).wrapping_mul(0xBF58_476D_1CE4_E5B9);
    let b = (a ^ (a >> 27)).wrapping_mul(0x94D0_49BB_1331_11EB);
    b ^ (b >> 31)
}

// The mask of a row, or of a qubit, under a salt: sign(row), imag(row) and loss(q) under the salts of these names.
#[tactic(auto, unfolding(model::specs::Keys::row_mask))]
pub fn row_mask(index: usize, salt: u64) -> u64
    ensures { result ≡ row_mask index salt }
{
    finalize((index as u64).wrapping_mul(GOLDEN).wrapping_add(salt))
}

// ---- the word key

// h with one more word.
#[tactic(auto, unfolding(model::specs::Keys::absorb))]
pub fn absorb_word(h: u64, w: u64) -> u64
    ensures { result ≡ absorb h w }
{
    finalize(h.wrapping_add(GOLDEN) ^ w)
}

// h with row i: x then z.
pub fn absorb_row(h: u64, rows: &[u64], i: usize) -> u64
    requires { 3 * i + 3 ≤ length rows.now }
    ensures { result ≡ absorb (absorb h (x_at rows.now i)) (z_at rows.now i) }
{
    let x = rows[3 * i];
    let z = rows[3 * i + 1];
    absorb_word(absorb_word(h, x), z)
}

// The word key of 2n rows.
#[tactic(auto, unfolding(model::specs::Keys::word_key))]
pub fn word_key(rows: &[u64], n: usize) -> u64
    requires { (n ≤ 64) × (3 * (2 * n) ≤ length rows.now) }
    ensures { result ≡ word_key (2 * n) (x_at rows.now) (z_at rows.now) }
{
    let mut h = 0;
    for i in 0..2 * n {
        h = absorb_row(h, rows, i);
    }
    h
}

// Four word keys at once. A step of a key waits for the step before it; four keys do not wait for each other.
#[tactic(auto, unfolding(model::specs::Keys::word_key))]
pub fn four_word_keys(rows: [&[u64]; 4], n: usize) -> [u64; 4]
    requires { (n ≤ 64) × All (λ r. 3 * (2 * n) ≤ length r.now) rows }
    ensures { result ≡ map (λ r. key_of_rows (2 * n) r.now) rows.entry }
{
    let [a, b, c, d] = rows;
    let mut ha = 0;
    let mut hb = 0;
    let mut hc = 0;
    let mut hd = 0;
    for i in 0..2 * n {
        ha = absorb_row(ha, a, i);
        hb = absorb_row(hb, b, i);
        hc = absorb_row(hc, c, i);
        hd = absorb_row(hd, d, i);
    }
    [ha, hb, hc, hd]
}

// ---- the phase-loss key

// The mask of an index under a salt if the bit is 1, else 0.
#[tactic(auto, unfolding(model::specs::Keys::if_set))]
pub fn masked(b: u64, index: usize, salt: u64) -> u64
    ensures { result ≡ if_set b (row_mask index salt) }
{
    if b == 0 { 0 } else { row_mask(index, salt) }
}

// imag(row) where phase bit 0 is set, sign(row) where bit 1 is set.
#[tactic(auto, unfolding(model::specs::Keys::phase_mask))]
pub fn phase_mask(salts: Salts, row: usize, phase: u64) -> u64
    ensures { result ≡ phase_mask salts row phase }
{
    masked(phase % 2, row, salts.imag) ^ masked((phase >> 1) % 2, row, salts.sign)
}

// The XOR of the phase masks of m rows.
#[tactic(auto, unfolding(model::specs::Keys::phase_part, model::specs::Keys::xor_below))]
pub fn phase_part(salts: Salts, m: usize, rows: &[u64]) -> u64
    requires { 3 * m ≤ length rows.now }
    ensures { result ≡ phase_part salts m (phase_at rows.now) }
{
    let mut h = 0;
    for i in 0..m {
        h ^= phase_mask(salts, i, rows[3 * i + 2]);
    }
    h
}

// The phase masks of m rows, as a table: words 4i to 4i + 3 are those of row i with phases 0 to 3.
pub fn phase_masks(salts: Salts, m: usize) -> [u64; 512]
    requires { m ≤ 128 }
    ensures { PhaseMasks salts m result }
{
    let mut table = [0u64; 512];
    for i in 0..m {
        let imag = row_mask(i, salts.imag);
        let sign = row_mask(i, salts.sign);
        table[4 * i + 1] = imag;
        table[4 * i + 2] = sign;
        table[4 * i + 3] = imag ^ sign;
    }
    table
}

// The XOR of the phase masks of m rows, from the table.
#[tactic(auto, unfolding(model::specs::Keys::phase_part, model::specs::Keys::xor_below))]
pub fn phase_part_from(table: &[u64; 512], m: usize, rows: &[u64]) -> u64
    requires { (length table.now ≡ 512) × (m ≤ 128) × (3 * m ≤ length rows.now) }
    ensures { (s : Salts) → PhaseMasks s m table.now → result ≡ phase_part s m (phase_at rows.now) }
{
    let mut h = 0;
    for i in 0..m {
        let phase = (rows[3 * i + 2] % 4) as usize;
        h ^= table[4 * i + phase];
    }
    h
}

// The XOR of the loss masks of the lost qubits of n.
#[tactic(auto, unfolding(model::specs::Keys::mask_xor, model::specs::Keys::xor_below))]
pub fn loss_key(salts: Salts, n: usize, loss: u64) -> u64
    requires { n ≤ 64 }
    ensures { result ≡ mask_xor salts.loss n (λ q. bit q loss) }
{
    if loss == 0 {
        return 0;
    }
    let mut h = 0;
    for q in 0..n {
        h ^= masked((loss >> q) % 2, q, salts.loss);
    }
    h
}

// The phase-loss key of an entry on n qubits: of its 2n rows and its loss word.
#[tactic(auto, unfolding(model::specs::Keys::phase_loss_key))]
pub fn phase_loss_key(salts: Salts, n: usize, rows: &[u64], loss: u64) -> u64
    requires { (n ≤ 64) × (3 * (2 * n) ≤ length rows.now) }
    ensures { result ≡ phase_loss_key salts n (phase_at rows.now) (λ q. bit q loss) }
{
    phase_part(salts, 2 * n, rows) ^ loss_key(salts, n, loss)
}

// The same, from the table.
#[tactic(auto, unfolding(model::specs::Keys::phase_loss_key))]
pub fn phase_loss_key_from(
    salts: Salts,
    table: &[u64; 512],
    n: usize,
    rows: &[u64],
    loss: u64,
) -> u64
    requires { PhaseMasks salts (2 * n) table.now × (n ≤ 64) × (3 * (2 * n) ≤ length rows.now) }
    ensures { result ≡ phase_loss_key salts n (phase_at rows.now) (λ q. bit q loss) }
{
    phase_part_from(table, 2 * n, rows) ^ loss_key(salts, n, loss)
}

// The full key: word key XOR phase-loss key.
pub fn full_key(salts: Salts, n: usize, rows: &[u64], loss: u64) -> u64
    requires { (n ≤ 64) × (3 * (2 * n) ≤ length rows.now) }
    ensures { result ≡ bit_xor (word_key (2 * n) (x_at rows.now) (z_at rows.now)) (phase_loss_key salts n (phase_at rows.now) (λ q. bit q loss)) }
{
    word_key(rows, n) ^ phase_loss_key(salts, n, rows, loss)
}
