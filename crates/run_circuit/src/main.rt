// Runs a circuit, in a subset of Stim's circuit language, and prints the weight sheet, the weight page, the sampling table or a trace; or tries
// cutoffs on it, and prints how many entries each leads to.
#![tactic(auto)]

mod both_passes;
mod descriptors;
mod help;
mod outputs;
mod trying;

ghost use Rattle.std.specs.Prelude.{◌≤◌};

use both_passes::Setup;
use input::Given;
use std::fs::File;
use std::io::{Error, ErrorKind, Result};
use std::rt::HostRuntime;

// Why not everything that was asked for is written. It was said what.
#[derive(Clone, Copy)]
enum Failure {
    // The circuit is bad, a call was refused, or something could not be read or written.
    Run,
    // The arguments are wrong.
    Usage,
}

// How a run ends.
type Ended = std::result::Result<(), Failure>;

fn ended(done: bool) -> Ended {
    if done { Ok(()) } else { Err(Failure::Run) }
}

// ---- the circuit

// What is given is copied to a folder and run.
fn run_in(rt: &HostRuntime, given: Given, name: &[u8], folder: &[u8], s: Setup) -> bool {
    let mut bytes = io::large_buffer();
    match input::take(rt, given, name, folder, &mut bytes) {
        Some(source) => both_passes::run(rt, &source, name, &mut bytes, s),
        None => false,
    }
}

// .. to the folder that an option names, or to /tmp.
fn run_from(rt: &HostRuntime, given: Given, name: &[u8], s: Setup) -> Ended {
    let place = options::place_of(rt, b"--tmpdir");
    if place.argument == 0 {
        return ended(run_in(rt, given, name, b"/tmp", s));
    }
    let mut folder = io::buffer();
    let n = options::value_of(rt, place, &mut folder);
    if n == 0 {
        printing::say(b"run_circuit: --tmpdir: the name of a folder was expected\n");
        return Err(Failure::Usage);
    }
    ended(run_in(rt, given, name, &folder[..n], s))
}

fn run_input(rt: &HostRuntime, s: Setup) -> Ended {
    run_from(rt, Given::Input, b"standard input", s)
}

fn opened(rt: &HostRuntime, name: &[u8]) -> Result<File> {
    match str::from_utf8(name) {
        Ok(path) => File::open(rt, path),
        Err(_) => Err(Error::new(ErrorKind::InvalidInput, "the name of a file is UTF-8 text")),
    }
}

fn run_file(rt: &HostRuntime, name: &[u8], s: Setup) -> Ended {
    match opened(rt, name) {
        Ok(file) => run_from(rt, Given::Named(file), name, s),
        Err(e) => {
            printing::say_why(name, e);
            Err(Failure::Run)
        }
    }
}

// The argument that names the file, if one does; `-` is standard input too.
fn run_named(rt: &HostRuntime, file: Option<usize>, s: Setup) -> Ended {
    let Some(place) = file else {
        return run_input(rt, s);
    };
    let mut name = io::buffer();
    let n = options::put_argument(rt, place, &mut name);
    if check::same(&name[..n], b"-") {
        return run_input(rt, s);
    }
    run_file(rt, &name[..n], s)
}

// ---- the arguments

// What the options say, if all are sound. All are read first: of each one that is not, it is said what is wrong.
fn setup(rt: &HostRuntime) -> Option<Setup> {
    let qubits = options::count_option(rt, b"--qubits", 1, 64, 0, b"a whole number from 1 to 64");
    let capacity = options::count_option(
        rt,
        b"--capacity",
        1,
        256,
        256,
        b"a whole number from 1 to 256",
    );
    let threshold = options::bound_option(rt, b"--threshold", 0.00000001);
    let cutoff = options::bound_option(rt, b"--cutoff", 0.0);
    let cutoffs = options::cutoffs_option(rt);
    let most_lost = options::bound_option(rt, b"--max-lost", 2.0);
    let output = options::output_option(rt);
    let n = qubits?;
    Some(Setup {
        qubits: (n != 0).then_some(n),
        capacity: capacity?,
        threshold: threshold?,
        cutoff: cutoff?,
        cutoffs: cutoffs?,
        most_lost: most_lost?,
        output: output?,
        quiet: options::is_given(rt, b"--quiet"),
    })
}

fn run_options(rt: &HostRuntime, file: Option<usize>) -> Ended {
    match setup(rt) {
        Some(s) => run_named(rt, file, s),
        None => Err(Failure::Usage),
    }
}

fn run_arguments(rt: &HostRuntime) -> Ended {
    let Ok(file) = options::files(rt) else {
        return Err(Failure::Usage);
    };
    if options::is_given(rt, b"--help") || options::is_given(rt, b"-h") {
        return ended(outputs::is_written(help::write()));
    }
    if options::is_given(rt, b"--version") {
        return ended(outputs::is_written(help::write_version()));
    }
    run_options(rt, file)
}

// ---- the report

// The status, written to a descriptor: the program itself always ends with 0. 0: to none.
fn report(to: usize, how: Ended)
    requires { to ≤ 255 }
{
    if to == 0 {
        return;
    }
    let fd = to as i32;
    let status = match how {
        Ok(()) => b"0\n",
        Err(Failure::Run) => b"1\n",
        Err(Failure::Usage) => b"2\n",
    };
    if !io::write_all(fd, status) {
        printing::say_failed(b"run_circuit: --report");
    }
}

// All of it. What was written to standard output is kept here, since some file systems tell only then that they could not write.
fn run_all(rt: &HostRuntime) -> Ended {
    run_arguments(rt)?;
    ended(outputs::is_kept(descriptors::keep_output(rt)))
}

fn main(rt: HostRuntime) {
    if !descriptors::are_open(&rt) {
        return;
    }
    if let Some(to) = options::count_option(
        &rt,
        b"--report",
        3,
        255,
        0,
        b"a descriptor from 3 to 255",
    ) {
        report(to, run_all(&rt));
    }
}
