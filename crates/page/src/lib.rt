// The weight page, written: document 02, request 1.
#![tactic(auto)]

mod share;

ghost use Rattle.std.specs.Prelude.{◌≡◌, true, map, ◌*◌, ◌<◌, ◌≤◌, length, get_or};
ghost use Rattle.model.specs.Entries.{strip, entry_of, listed};
ghost use Rattle.model.specs.Numbers.{weight_sound};
ghost use Rattle.model.specs.Page.{hex_digit, hexadecimal, page_line_len, page_line, page_text};
ghost use Rattle.model.specs.Calls as Calls;
ghost use Rattle.model.specs.Known.{Known};
ghost use Rattle.model.specs.Sound.{Sound};

use model::{Answer, Header, Size};

// ---- the loss word

// 0 to 9, A to F.
fn hex_digit(d: u64) -> u8
    requires { d < 16 }
    ensures { result ≡ hex_digit d }
{
    if d < 10 {
        (48 + d) as u8
    } else {
        (55 + d) as u8
    }
}

// As many hexadecimal digits of v as there are bytes, written from the last to the first.
fn put_hexadecimal(out: &mut [u8], v: u64)
    ensures { out.new ≡ hexadecimal (length out.old) v }
{
    let mut rest = v;
    for i in (0..out.len()).rev() {
        out[i] = hex_digit(rest % 16);
        rest /= 16;
    }
}

// ---- the page

// 34 columns and the line's end.
const LINE_BYTES: usize = 35;

// An entry's line.
fn put_line(out: &mut [u8], place: usize, e: &[u64], size: Size)
    requires { (length out.old ≡ page_line_len) × (2 ≤ length e.now) × (weight_sound (get_or e.now 0 0) ≡ true) }
    ensures { out.new ≡ page_line place (strip (entry_of size e.now)) }
{
    sheet::put_number(&mut out[0..5], place as u64);
    sheet::put_number(&mut out[5..16], share::share(e[0]));
    out[16] = b' ';
    out[17] = b' ';
    put_hexadecimal(&mut out[18..34], e[1]);
    out[34] = b'\n';
}

// The lines of a sound sum, place from 1.
fn put_page(out: &mut [u8], store: &[u64], size: Size, count: usize)
    requires { Sound size count store.now × (length out.old ≡ count * page_line_len) }
    ensures { out.new ≡ page_text (map strip (listed size count store.now)) }
{
    let len = entries::entry_len(size);
    for i in 0..count {
        let e = words::stretch(store, len, i);
        let at = i * LINE_BYTES;
        put_line(&mut out[at..at + LINE_BYTES], i + 1, e, size);
    }
}

// THE CALL: the sum's page at the start of `out`, what stands past it unchanged. 1, 2, 5, 8.
pub fn write_page(h: Header, store: &[u64], out: &mut [u8]) -> Answer
    ensures answer { result ≡ (Calls.step (Calls.page (length out.old)) (Calls.held h store.now)).answer }
    ensures output { out.new ≡ Calls.overlaid (Calls.step (Calls.page (length out.old)) (Calls.held h store.now)).output out.old }
{
    write_page_known(h, store, out, false)
}

// .. told whether all but the weights is known to be sound.
pub fn write_page_known(h: Header, store: &[u64], out: &mut [u8], known: bool) -> Answer
    requires { Known known (Calls.held h store.now) }
    ensures answer { result ≡ (Calls.step (Calls.page (length out.old)) (Calls.held h store.now)).answer }
    ensures output { out.new ≡ Calls.overlaid (Calls.step (Calls.page (length out.old)) (Calls.held h store.now)).output out.old }
{
    let number = checks::front(h, store, 0, known);
    if number != 0 {
        return answers::plain_answer(h, number);
    }
    let length = h.count * LINE_BYTES;
    if out.len() < length {
        return answers::plain_answer(h, 8);
    }
    put_page(&mut out[0..length], store, h.size, h.count);
    answers::looked_answer(h, 0, length)
}
