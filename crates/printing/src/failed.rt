// Why something could not be read or written, told on standard error.
ghost use Rattle.std.specs.Prelude.{◌≤◌, length};

use std::io::{Cursor, Error, Write};

// How much of a text is its reason: what stands before its first round bracket, where the error's number follows.
fn reason_end(text: &[u8]) -> usize
    ensures { result ≤ length text.now }
{
    let bracket = scan::find(text, 0, text.len(), b'(');
    if 0 < bracket && bracket < text.len() {
        return bracket - 1;
    }
    bracket
}

fn say_reason(text: &[u8]) {
    let end = reason_end(text);
    crate::say(&text[..end]);
}

// The text of an error, put at the start of a buffer; how many bytes it has there.
fn put_text(text: &mut [u8], e: Error) -> u64 {
    let mut at = Cursor::new(text);
    let _ = write!(at, "{e}");
    at.position()
}

// What failed, and why.
pub fn say_why(what: &[u8], e: Error) {
    let mut text = [0u8; 128];
    let end = put_text(&mut text, e).min(128) as usize;
    crate::say(what);
    crate::say(b": ");
    say_reason(&text[..end]);
    crate::say(b"\n");
}

// What failed, and why the system's last call did.
pub fn say_failed(what: &[u8]) {
    say_why(what, std_io::io::last_error());
}
