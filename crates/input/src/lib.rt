// The circuit: a copy of its own, read at offsets. A window of its bytes, and the line that begins at an offset.
#![tactic(auto)]

mod copying;

ghost use Rattle.std.specs.Prelude.{◌≡◌, ◌≤◌, length, IfOk, IfSome};
ghost use Rattle.input.specs.Marks.{mark_length};

pub use copying::{Given, Source, take};
use std::fs::File;
use std::io::Result;
use std::os::unix::fs::FileExt;

// ---- lines

// What stands at an offset.
#[derive(Clone, Copy)]
pub enum Found {
    Line,
    End,
    // No line end within the window.
    TooLong,
    // It could not be read: the system's last error says why.
    Failed,
    // Fewer bytes were there than had been copied.
    Cut,
}

// The window holds `fill` bytes from the offset `base` on. The line that was found stands from `from` to `to` in it, and the next one
// begins at the offset `next`.
#[derive(Clone, Copy)]
pub struct Window {
    pub base: u64,
    pub fill: usize,
    pub from: usize,
    pub to: usize,
    pub next: u64,
    pub found: Found,
}

// Nothing is held yet.
pub fn start() -> Window {
    Window {
        base: 0,
        fill: 0,
        from: 0,
        to: 0,
        next: 0,
        found: Found::End,
    }
}

// The next line begins at another offset.
pub fn jumped(w: Window, next: u64) -> Window {
    Window {
        from: 0,
        to: 0,
        next,
        found: Found::End,
        ..w
    }
}

// The byte order mark that a text begins with: how long it is, 0 if there is none.
#[tactic(auto, unfolding(crate::specs::Marks::mark_length))]
fn mark_length(text: &[u8]) -> usize
    ensures value { result ≡ mark_length text.now }
    ensures within { result ≤ length text.now }
{
    match text {
        [0xEF, 0xBB, 0xBF, ..] => 3,
        _ => 0,
    }
}

// The stretch of the window up to `to`, and one more byte for the line end.
fn stretch(base: u64, fill: usize, from: usize, to: usize, found: Found) -> Window
    ensures { (result.from ≡ from) × (result.to ≡ to) }
{
    Window {
        base,
        fill,
        from,
        to,
        next: base.saturating_add(to as u64).saturating_add(1),
        found,
    }
}

// The line that begins at an offset, if the window holds all of it.
fn held(bytes: &[u8], w: Window) -> Option<Window>
    ensures { IfSome result (λ h. (h.from ≤ h.to) × (h.to ≤ length bytes.now)) }
{
    let fill = w.fill;
    if fill <= bytes.len() && w.base <= w.next {
        let ahead = (w.next - w.base) as usize;
        if ahead < fill {
            let to = scan::find(bytes, ahead, fill, b'\n');
            if to < fill {
                return Some(stretch(w.base, fill, ahead, to, Found::Line));
            }
        }
    }
    None
}

// ---- the window filled

// The system counts offsets up to this one.
const MAX_OFFSET: u64 = i64::MAX as u64;

// The bytes from an offset on, as many as there are and the window holds; how many.
fn fill_all(file: &File, bytes: &mut [u8], offset: u64) -> Result<usize>
    ensures { IfOk result (λ n. n ≤ length bytes.old) }
{
    let mut fill = 0;
    while fill < bytes.len() {
        let at = offset.saturating_add(fill as u64).min(MAX_OFFSET);
        let n = file.read_at(&mut bytes[fill..], at)?;
        if n == 0 {
            return Ok(fill);
        }
        fill += n;
    }
    Ok(fill)
}

// Past the mark at the start of the circuit, in a window of `fill` bytes from the offset `base` on.
fn mark_end(bytes: &[u8], base: u64, fill: usize) -> usize
    requires { fill ≤ length bytes.now }
    ensures { result ≤ fill }
{
    if base == 0 {
        mark_length(&bytes[..fill])
    } else {
        0
    }
}

// The line at the start of a window that was filled anew. A byte order mark at the start of the circuit is passed over.
fn first(bytes: &[u8], base: u64, fill: usize) -> Window
    requires { fill ≤ length bytes.now }
    ensures { (result.from ≤ result.to) × (result.to ≤ length bytes.now) }
{
    let from = mark_end(bytes, base, fill);
    let to = scan::find(bytes, from, fill, b'\n');
    if to == bytes.len() {
        return stretch(base, fill, from, to, Found::TooLong);
    }
    stretch(base, fill, from, to, Found::Line)
}

// Whether the window has all bytes that it should have: those up to the end of the circuit, or as many as it holds.
fn is_whole(s: &Source, next: u64, fill: usize, room: usize) -> bool {
    fill == room || next.saturating_add(fill as u64) == s.size
}

// The line at an offset, after the window is filled from there on.
fn refilled(s: &Source, bytes: &mut [u8], next: u64) -> Window
    ensures { (result.from ≤ result.to) × (result.to ≤ length bytes.new) }
{
    match fill_all(&s.file, bytes, next) {
        Err(_) => stretch(next, 0, 0, 0, Found::Failed),
        Ok(fill) if is_whole(s, next, fill, bytes.len()) => first(bytes, next, fill),
        Ok(_) => stretch(next, 0, 0, 0, Found::Cut),
    }
}

// THE NEXT LINE.
pub fn next_line(s: &Source, bytes: &mut [u8], w: Window) -> Window
    ensures { (result.from ≤ result.to) × (result.to ≤ length bytes.new) }
{
    if s.size <= w.next {
        return stretch(s.size, 0, 0, 0, Found::End);
    }
    match held(bytes, w) {
        Some(line) => line,
        None => refilled(s, bytes, w.next),
    }
}
