// What --help and --version print. Whether it was written.
use streams::STDOUT_FILENO;

pub fn write() -> bool {
    io::write_all(
        STDOUT_FILENO,
        b"usage: run_circuit [options] [--] [FILE]\n\
\n\
Runs a circuit, in a subset of Stim's circuit language, on a weighted sum of stabilizer tableaux.\n\
FILE missing or `-`: standard input.\n\
\n  \
--qubits N      how many qubits there are, 1 to 64; without it, the circuit's highest + 1\n  \
--threshold T   coefficients nearer than this are alike; without it, 1e-8\n  \
--cutoff C      branches and entries of no more weight than this are dropped; without it, 0\n  \
--capacity N    how many entries there may be, 1 to 256; without it, 256\n  \
--max-lost X    it is an error if more than this fraction of the initial weight is lost\n  \
--try-cutoffs C1,C2,..\n                  \
1 to 8 cutoffs are tried instead of a run: a table has the entries after each step\n                  \
with each cutoff, or `!` and the number from where a trial was refused (status 0).\n                  \
A trial begins with a fresh sum, and its 1 to 64 steps are the targets of X_ERROR,\n                  \
Y_ERROR, Z_ERROR, PAULI_CHANNEL_1, DEPOLARIZE1 and I_ERROR[loss]: the circuit may\n                  \
have no other calls. Not with --cutoff, --max-lost or --output\n  \
--output WHAT   sheet (the weight sheet; also without this option), page (the weight page: a line\n                  \
for each entry), table (the sampling table) or trace (a line for each call)\n  \
--tmpdir DIR    where the circuit is copied to before it is run; without it, /tmp\n                  \
(./run_circuit takes TMPDIR)\n  \
--report FD     how it ended is written to this descriptor: 0, 1 or 2, as the status below\n  \
--quiet         no summary on standard error\n  \
-h, --help      this text\n  \
--version       the version\n\
\n\
An option's value may also follow `=`, as in --cutoff=1e-6.\n\
\n\
Instructions: H S CX CNOT X_ERROR(p) Y_ERROR(p) Z_ERROR(p) PAULI_CHANNEL_1(px,py,pz)\n\
PAULI_CHANNEL_2(15 rates) DEPOLARIZE1(p) DEPOLARIZE2(p) I_ERROR[loss](p) I[reset_loss] TICK\n\
REPEAT n { .. }\n\
\n\
The status of ./run_circuit: 0 if all that was asked for was written; 1 for a bad circuit, a\n\
refused call, or something that could not be read or written; 2 for wrong usage. What went wrong\n\
is said on standard error, and then no sheet, page or table is printed; a trace ends with the call\n\
that was refused. (The program itself has no status: --report tells it.)\n",
    )
}

pub fn write_version() -> bool {
    io::write_all(STDOUT_FILENO, b"run_circuit 0.1.0\n")
}
