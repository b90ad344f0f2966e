// Instructions of Stim that the engine does not have: what is said of each, and what stands in for it.
pub fn say_instructions() {
    printing::say(
        b"an instruction was expected (H S CX CNOT X_ERROR Y_ERROR Z_ERROR PAULI_CHANNEL_1 PAULI_CHANNEL_2 \
DEPOLARIZE1 DEPOLARIZE2 I_ERROR[loss] I[reset_loss] TICK REPEAT)",
    );
}

// Whether a word is one of these names, with blanks between them.
fn is_among(word: &[u8], names: &[u8]) -> bool {
    names
        .split(|b| *b == b' ')
        .any(|name| circuit::is_named(word, name))
}

// A line of a table has names, `:` and what is said of them. Whether it was said of this word.
fn say_by_line(line: &[u8], word: &[u8]) -> bool {
    let colon = scan::find(line, 0, line.len(), b':');
    if colon < line.len() && is_among(word, &line[..colon]) {
        printing::say(&line[colon + 1..]);
        return true;
    }
    false
}

// .. by the lines of a table.
fn say_by_table(table: &[u8], word: &[u8]) -> bool {
    for line in table.split(|b| *b == b'\n') {
        if say_by_line(line, word) {
            return true;
        }
    }
    false
}

// Whether something was said of a word.
fn say_of(word: &[u8]) -> bool {
    say_by_table(
        b"\
M MX MY MZ MPP MPAD MXX MYY MZZ:the engine does not measure yet; leave it out, and draw shots from --output table\n\
MR MRX MRY MRZ:the engine neither measures nor resets yet; at the end leave it out, and draw shots from --output table\n\
R RX RY RZ:the engine does not reset yet; every qubit begins as 0, so leave it out at the start (I[reset_loss] brings back a lost atom)\n\
DETECTOR OBSERVABLE_INCLUDE QUBIT_COORDS SHIFT_COORDS:this annotation changes no sum; leave the line out\n\
E CORRELATED_ERROR ELSE_CORRELATED_ERROR:the engine has no correlated errors yet; for two qubits PAULI_CHANNEL_2 stands in\n\
HERALDED_ERASE HERALDED_PAULI_CHANNEL_1:the engine has no heralded errors yet; I_ERROR[loss](p) loses an atom instead\n\
II II_ERROR:this does nothing; leave the line out\n\
X:the engine does not have this gate yet; instead write H q, S q, S q, H q\n\
Y:the engine does not have this gate yet; instead write S q, S q, H q, S q, S q, H q\n\
Z:the engine does not have this gate yet; instead write S q, S q\n\
SQRT_Z:the engine has this gate under the name S\n\
H_XZ:the engine has this gate under the name H\n\
ZCX:the engine has this gate under the name CX\n\
S_DAG SQRT_Z_DAG:the engine does not have this gate yet; instead write S q, S q, S q\n\
SQRT_X:the engine does not have this gate yet; instead write H q, S q, H q\n\
SQRT_X_DAG:the engine does not have this gate yet; instead write H q, S q, S q, S q, H q\n\
SQRT_Y:the engine does not have this gate yet; instead write S q, S q, H q\n\
SQRT_Y_DAG:the engine does not have this gate yet; instead write H q, S q, S q\n\
CZ ZCZ:the engine does not have this gate yet; instead write H q, CX p q, H q\n\
CY ZCY:the engine does not have this gate yet; instead write S q, S q, S q, CX p q, S q\n\
SWAP:the engine does not have this gate yet; instead write CX p q, CX q p, CX p q\n\
H_XY H_YZ H_NXY H_NXZ H_NYZ C_XYZ C_ZYX C_NXYZ C_XNYZ C_XYNZ C_NZYX C_ZNYX C_ZYNX XCX XCY XCZ YCX YCY YCZ \
ISWAP ISWAP_DAG CXSWAP SWAPCX CZSWAP SWAPCZ SQRT_XX SQRT_XX_DAG SQRT_YY SQRT_YY_DAG SQRT_ZZ SQRT_ZZ_DAG SPP SPP_DAG:\
the engine does not have this gate yet; write it by H, S and CX",
        word,
    )
}

fn say_of_part(line: &[u8], from: usize, to: usize) -> bool {
    match line.get(from..to) {
        Some(word) => say_of(word),
        None => false,
    }
}

// The word that begins at a place is no instruction.
pub fn say_instead(line: &[u8], from: usize) {
    if !say_of_part(line, from, circuit::name_end(line, from)) {
        say_instructions();
    }
}
