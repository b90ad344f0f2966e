// The trace: a line for each call.
use calls::Operation;
use circuit::{Act, Line};
use model::{Answer, Channel};
use streams::STDOUT_FILENO;

pub fn write_head() -> bool {
    io::write_all(
        STDOUT_FILENO,
        b"# line instruction      qubits number merged stored dropped compared entries dropped_weight truncated_weight\n",
    )
}

// The tag that is part of what an instruction is.
fn put_tag(row: &mut [u8; 256], at: usize, act: Act) -> usize {
    match act {
        Act::ResetLoss => printing::put(row, at, b"[reset_loss]"),
        Act::Channel(Channel::Loss(_)) => printing::put(row, at, b"[loss]"),
        _ => at,
    }
}

// The instruction as the line has it, with its tag.
pub fn put_name(row: &mut [u8; 256], at: usize, line: &[u8], l: Line, act: Act) -> usize {
    let Some(name) = line.get(l.from..l.to) else {
        return at;
    };
    let end = printing::put(row, at, name);
    put_tag(row, end, act)
}

// One qubit, or two with a comma between them.
fn put_qubits(row: &mut [u8; 256], at: usize, p: usize, q: usize) -> usize {
    let end = printing::put_digits(row, at, p as u64);
    if p == q {
        return end;
    }
    let comma = printing::put_byte(row, end, b',');
    printing::put_digits(row, comma, q as u64)
}

// What came of the branches.
fn put_counts(row: &mut [u8; 256], from: usize, a: Answer) -> usize {
    let counts = a.counts;
    let mut at = printing::put_number(row, from, a.number, 6);
    at = printing::put_number(row, at, counts.merged as u64, 6);
    at = printing::put_number(row, at, counts.stored as u64, 6);
    at = printing::put_number(row, at, counts.dropped as u64, 7);
    printing::put_number(row, at, counts.compared as u64, 8)
}

// The line of a call. Whether it was written.
fn write(number: u64, line: &[u8], l: Line, o: Operation, a: Answer) -> bool {
    let mut row = printing::row();
    let name = printing::put_number(&mut row, 0, number, 6);
    let qubits = printing::after(name, put_name(&mut row, name, line, l, o.act), 16);
    let counts = printing::after(qubits, put_qubits(&mut row, qubits, o.p, o.q), 6);
    let entries = put_counts(&mut row, counts, a);
    let weights = printing::put_number(&mut row, entries, a.header.count as u64, 7);
    let end = printing::put_float(&mut row, weights, a.lost.dropped);
    let last = printing::put_float(&mut row, end, a.lost.truncated);
    printing::write(STDOUT_FILENO, &mut row, last)
}

// .. if it is wanted.
pub fn write_if(wanted: bool, number: u64, line: &[u8], l: Line, o: Operation, a: Answer) -> bool {
    !wanted || write(number, line, l, o, a)
}
