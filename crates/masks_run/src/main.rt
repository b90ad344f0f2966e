// Masks and keys, printed: row_mask(k, 0) for k 1 to 5, which are the published outputs of SplitMix64 for seed 0; then the sign, imag
// and loss masks of rows and qubits 0, 1 and 127; then word key, phase-loss key and full key of some rows.
#![tactic(auto)]

use streams::STDOUT_FILENO;

fn line(v: u64) {
    io::print_hex(STDOUT_FILENO, v, 16);
    io::write_all(STDOUT_FILENO, b"\n");
}

fn masks(index: usize) {
    let salts = keys::usual_salts();
    line(keys::row_mask(index, salts.sign));
    line(keys::row_mask(index, salts.imag));
    line(keys::row_mask(index, salts.loss));
}

// Rows on two qubits: x, z, phase.
fn keys_of(rows: &[u64; 12], loss: u64) {
    let salts = keys::usual_salts();
    line(keys::word_key(rows, 2));
    line(keys::phase_loss_key(salts, 2, rows, loss));
    line(keys::full_key(salts, 2, rows, loss));
}

fn main() {
    for k in 1..6 {
        line(keys::row_mask(k, 0));
    }
    for index in [0, 1, 127] {
        masks(index);
    }
    keys_of(&[1, 0, 0, 2, 0, 0, 0, 1, 0, 0, 2, 0], 0);
    keys_of(&[1, 2, 3, 2, 3, 1, 3, 1, 2, 0, 2, 0], 2);
    keys_of(&[3, 0, 2, 0, 0, 2, 1, 1, 2, 2, 2, 2], 3);
}
