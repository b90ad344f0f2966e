// The fresh sum for n 1, K 1, capacity 2, threshold 0.5, cutoff 0, printed as a sheet.
#![tactic(auto)]

use model::Size;
use streams::STDOUT_FILENO;

// The first `length` bytes.
fn print_first(text: &[u8], length: usize) {
    if length <= text.len() {
        io::write_all(STDOUT_FILENO, &text[0..length]);
    }
}

fn main() {
    let mut store = [0u64; 28];
    let size = Size {
        n: 1,
        k: 1,
        capacity: 2,
    };
    let begun = fresh::fresh(size, 0.5, 0.0, &mut store);
    let mut out = [0u8; 383];
    let written = sheet::write_sheet(begun.header, &store, &mut out);
    print_first(&out, written.length);
}
