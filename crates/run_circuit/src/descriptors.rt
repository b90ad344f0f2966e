// The first three descriptors. Where one of them is closed, a file that is opened would get its number, and what is meant for the one would go to
// the other: so then nothing is run.
use std::fs;
use std::fs::OpenOptions;
use std::io::{Error, Result};
use std::os::fd::AsFd;
use std::rt::HostRuntime;
use streams::STDOUT_FILENO;

// What the system answers where a descriptor is not open.
const NOT_OPEN: i32 = 9;

fn is_not_open(e: Error) -> bool {
    e.raw_os_error() == Some(NOT_OPEN)
}

// No other descriptor can be made of one that is closed.
fn is_closed<F: AsFd>(stream: &F) -> bool {
    stream.as_fd().try_clone_to_owned().is_err_and(is_not_open)
}

// Standard error is not there to say it.
fn say_no_error(rt: &HostRuntime) {
    if !is_closed(&rt.stdout()) {
        io::write_all(
            STDOUT_FILENO,
            b"run_circuit: standard error is closed; nothing was run (2>/dev/null throws it away)\n",
        );
    }
}

// Whether all three are open; else it is said which is not.
pub fn are_open(rt: &HostRuntime) -> bool {
    if is_closed(&rt.stderr()) {
        say_no_error(rt);
        return false;
    }
    let no_input = is_closed(&rt.stdin());
    let no_output = is_closed(&rt.stdout());
    if no_input {
        printing::say(
            b"run_circuit: standard input is closed; nothing was run (</dev/null gives none)\n",
        );
    }
    if no_output {
        printing::say(
            b"run_circuit: standard output is closed; nothing was run (>/dev/null throws it away)\n",
        );
    }
    !no_input && !no_output
}

const OUTPUT: &str = "/proc/self/fd/1";

// Whether standard output is a file that keeps what is written to it.
fn is_kept(rt: &HostRuntime) -> bool {
    fs::metadata(rt, OUTPUT).is_ok_and(|m| m.is_file())
}

// What was written to standard output is brought to where it is kept.
pub fn keep_output(rt: &HostRuntime) -> Result<()> {
    if !is_kept(rt) {
        return Ok(());
    }
    match OpenOptions::new().write(true).open(rt, OUTPUT) {
        Ok(file) => file.sync_all(),
        Err(_) => Ok(()),
    }
}
