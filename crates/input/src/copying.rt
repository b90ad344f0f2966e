// A circuit is copied before it is looked at, to a file without a name: what is run is then what was looked at, whatever becomes of the file,
// and a pipe can be read twice. It is run only if all of it was copied.
ghost use Rattle.std.specs.Prelude.{◌≤◌, length, IfOk};

use std::fs;
use std::fs::{File, OpenOptions};
use std::io::{Error, ErrorKind, Read, Seek, SeekFrom, Write};
use std::os::unix::fs::OpenOptionsExt;
use std::random::RandomSource;
use std::rt::HostRuntime;

// What a circuit is taken from.
#[derive(Drop)]
pub enum Given {
    Input,
    Named(File),
}

// The copy, and how many bytes it has.
#[derive(Drop)]
pub struct Source {
    pub file: File,
    pub size: u64,
}

// ---- bytes copied

// Why not all bytes were copied.
#[derive(Clone, Copy)]
enum Failure {
    Unread(Error),
    Unwritten(Error),
}

// Bytes once read; how many there were.
fn read_some(rt: &HostRuntime, from: &mut Given, bytes: &mut [u8]) -> std::io::Result<usize>
    ensures { IfOk result (λ n. n ≤ length bytes.old) }
{
    match from {
        Given::Input => {
            let mut input = rt.stdin();
            input.read(bytes)
        }
        Given::Named(file) => file.read(bytes),
    }
}

// Bytes once read and written; how many there were, 0 if there are no more.
fn copy_some(
    rt: &HostRuntime,
    from: &mut Given,
    to: &mut File,
    bytes: &mut [u8],
) -> Result<usize, Failure> {
    let n = read_some(rt, from, bytes).map_err(Failure::Unread)?;
    to.write_all(&bytes[..n]).map_err(Failure::Unwritten)?;
    Ok(n)
}

// All that there are; how many.
fn copy_all(
    rt: &HostRuntime,
    from: &mut Given,
    to: &mut File,
    bytes: &mut [u8],
) -> Result<u64, Failure> {
    let mut size: u64 = 0;
    for _ in 0..u64::MAX {
        let n = copy_some(rt, from, to, bytes)?;
        if n == 0 {
            return Ok(size);
        }
        size = size.saturating_add(n as u64);
    }
    Err(Failure::Unread(Error::from(ErrorKind::TimedOut)))
}

// ---- what a file should give

// Of a file with offsets, the one that is read next and the one where it ends.
#[derive(Clone, Copy)]
struct Extent {
    at: u64,
    end: u64,
}

// .. of an open file. It is read on from where it was.
fn sought(file: &mut File) -> std::io::Result<Extent> {
    let at = file.seek(SeekFrom::Current(0))?;
    let end = file.seek(SeekFrom::End(0))?;
    file.seek(SeekFrom::Start(at))?;
    Ok(Extent { at, end })
}

// The number that follows `pos:` and a tab in the first of these lines, which say how a descriptor stands.
fn place_in(text: &[u8]) -> u64 {
    let mut place: u64 = 0;
    for i in 5..text.len() {
        let b @ b'0'..=b'9' = text[i] else {
            return place;
        };
        place = place.wrapping_mul(10).wrapping_add((b - b'0') as u64);
    }
    place
}

// Standard input cannot be sought in: the system says where it stands, and where the file ends that it is. A pipe has no offsets.
fn extent_of_input(rt: &HostRuntime) -> std::io::Result<Option<Extent>> {
    let m = fs::metadata(rt, "/proc/self/fd/0")?;
    if !m.is_file() {
        return Ok(None);
    }
    let mut text = [0u8; 64];
    let mut file = File::open(rt, "/proc/self/fdinfo/0")?;
    let n = file.read(&mut text)?;
    Ok(Some(Extent {
        at: place_in(&text[..n]),
        end: m.len(),
    }))
}

// None: it has no offsets, or they are not told.
fn extent_of(rt: &HostRuntime, from: &mut Given) -> Option<Extent> {
    match from {
        Given::Input => extent_of_input(rt).ok().flatten(),
        Given::Named(file) => sought(file).ok(),
    }
}

// Whether a file was read to the end that it had, and it has no other end now. (What stands past its end has no bytes.)
fn is_all(before: Option<Extent>, now: Option<Extent>) -> bool {
    let Some(before) = before else {
        return true;
    };
    // What is told no more stands at 0.
    let now = now.unwrap_or(Extent { at: 0, end: 0 });
    if before.end < before.at {
        return now.at == before.at;
    }
    now.at == before.end && now.end == before.end
}

// ---- what is said

fn say_nothing_run(why: &[u8]) {
    printing::say(b"run_circuit: ");
    printing::say(why);
    printing::say(b"; nothing was run\n");
}

// The copy could not be made at a path.
fn say_no_copy(path: &[u8], e: Error) {
    printing::say_why(path, e);
    say_nothing_run(
        b"the circuit could not be copied there before it is run (--tmpdir, or TMPDIR, names another folder)",
    );
}

fn say_unread(name: &[u8], e: Error) {
    printing::say_why(name, e);
    say_nothing_run(b"the circuit could not be read whole");
}

fn say_changed(name: &[u8]) {
    printing::say(name);
    printing::say(b": the file changed while it was read\n");
    say_nothing_run(b"the circuit could not be read whole");
}

// ---- the copy

// What is given under this name is copied to a file in this folder; if it could not be copied whole, it is said why not.
fn copied(
    rt: &HostRuntime,
    given: Given,
    mut to: File,
    name: &[u8],
    folder: &[u8],
    bytes: &mut [u8],
) -> Option<Source> {
    let mut from = given;
    let before = extent_of(rt, &mut from);
    match copy_all(rt, &mut from, &mut to, bytes) {
        Ok(size) => {
            if is_all(before, extent_of(rt, &mut from)) {
                return Some(Source { file: to, size });
            }
            say_changed(name);
        }
        Err(Failure::Unread(e)) => say_unread(name, e),
        Err(Failure::Unwritten(e)) => say_no_copy(folder, e),
    }
    None
}

// A text at a place of a path; the place after it, or the path's length if there is no room: the system then says that the path is too long,
// and a `Cursor` would say something else.
fn put(path: &mut [u8; 4096], at: usize, text: &[u8]) -> usize
    ensures { result ≤ 4096 }
{
    let mut end = at;
    for b in text {
        if 4096 <= end {
            return 4096;
        }
        path[end] = *b;
        end += 1;
    }
    end.min(4096)
}

// A new file, whose name is taken away again.
fn nameless(rt: &HostRuntime, path: &[u8]) -> std::io::Result<File> {
    let Ok(name) = str::from_utf8(path) else {
        return Err(Error::new(
            ErrorKind::InvalidInput,
            "the name of a folder is UTF-8 text",
        ));
    };
    let mut how = OpenOptions::new();
    how.read(true).write(true).create_new(true).mode(0o600);
    let file = how.open(rt, name)?;
    fs::remove_file(rt, name)?;
    Ok(file)
}

// A number for a name that is hardly taken.
fn drawn(rt: &HostRuntime) -> std::io::Result<u64> {
    let mut bytes = [0u8; 8];
    rt.fill_bytes(&mut bytes)?;
    Ok(u64::from_le_bytes(bytes))
}

// .. in this folder.
fn nameless_in(rt: &HostRuntime, folder: &[u8]) -> std::io::Result<File> {
    let number = drawn(rt)?;
    let mut digits = [0u8; 16];
    let n = io::hex(number, 16, &mut digits);
    let mut path = io::buffer();
    let slash = put(&mut path, 0, folder);
    let dot = put(&mut path, slash, b"/run_circuit.");
    let end = put(&mut path, dot, &digits[..n]);
    nameless(rt, &path[..end])
}

// .. with a name that was not taken.
fn new_file(rt: &HostRuntime, folder: &[u8]) -> std::io::Result<File> {
    for _ in 0..100 {
        match nameless_in(rt, folder) {
            Err(e) if e.kind() == ErrorKind::AlreadyExists => {}
            made => return made,
        }
    }
    Err(Error::from(ErrorKind::AlreadyExists))
}

// THE CIRCUIT, TAKEN: a copy of what is given under a name, made in a folder. None if it could not be made whole: it was said why not.
pub fn take(
    rt: &HostRuntime,
    given: Given,
    name: &[u8],
    folder: &[u8],
    bytes: &mut [u8],
) -> Option<Source> {
    match new_file(rt, folder) {
        Ok(to) => copied(rt, given, to, name, folder, bytes),
        Err(e) => {
            say_no_copy(folder, e);
            None
        }
    }
}
