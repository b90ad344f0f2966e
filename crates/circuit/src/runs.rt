// Runs of bytes: blanks, names, words.
ghost use Rattle.std.specs.Prelude.{◌≡◌, ◌≤◌, length};
ghost use Rattle.circuit.specs.Runs.{is_blank, ends_word, is_of_name, is_of_argument, is_of, run_end, is_end, is_word_end, is_at};

// What a run is of.
#[derive(Clone, Copy)]
pub enum Run {
    // Spaces, tabs, carriage returns.
    Blanks,
    // Letters, digits, `_`.
    Name,
    // All up to a blank or a comment.
    Word,
    // The same, up to `,` or `)` as well.
    Argument,
    // All up to `]`.
    Tag,
}

#[tactic(auto, unfolding(crate::specs::Runs::is_blank))]
pub fn is_blank(b: u8) -> bool
    ensures { result ≡ is_blank b }
{
    matches!(b, b' ' | b'\t' | b'\r')
}

// A byte up to which a word goes.
#[tactic(auto, unfolding(crate::specs::Runs::ends_word))]
fn ends_word(b: u8) -> bool
    ensures { result ≡ ends_word b }
{
    b == b'#' || is_blank(b)
}

#[tactic(auto, unfolding(crate::specs::Runs::is_of_name, crate::specs::Runs::is_between))]
fn is_of_name(b: u8) -> bool
    ensures { result ≡ is_of_name b }
{
    matches!(b, b'A'..=b'Z' | b'a'..=b'z' | b'0'..=b'9' | b'_')
}

#[tactic(auto, unfolding(crate::specs::Runs::is_of_argument))]
fn is_of_argument(b: u8) -> bool
    ensures { result ≡ is_of_argument b }
{
    b != b',' && b != b')' && !ends_word(b)
}

#[tactic(auto, unfolding(crate::specs::Runs::is_of))]
fn is_of(run: Run, b: u8) -> bool
    ensures { result ≡ is_of run b }
{
    match run {
        Run::Blanks => is_blank(b),
        Run::Name => is_of_name(b),
        Run::Word => !ends_word(b),
        Run::Argument => is_of_argument(b),
        Run::Tag => b != b']',
    }
}

// Where the run from `at` on ends.
pub fn end(line: &[u8], run: Run, at: usize) -> usize
    requires { at ≤ length line.now }
    ensures lower_bound { (at ≤ result) × (result ≤ length line.now) }
    ensures is { result ≡ run_end (is_of run) line.now at }
{
    for i in at..line.len() {
        if !is_of(run, line[i]) {
            return i;
        }
    }
    line.len()
}

// Whether the byte at a place is this one.
#[tactic(auto, unfolding(crate::specs::Runs::is_at))]
pub fn is_at(line: &[u8], at: usize, b: u8) -> bool
    ensures { result ≡ is_at line.now at b }
{
    at < line.len() && line[at] == b
}

// Nothing, or a comment, stands at a place.
#[tactic(auto, unfolding(crate::specs::Runs::is_end))]
pub fn is_end(line: &[u8], at: usize) -> bool
    ensures { result ≡ is_end line.now at }
{
    line.len() <= at || line[at] == b'#'
}

// .. or a blank.
#[tactic(auto, unfolding(crate::specs::Runs::is_word_end))]
pub fn is_word_end(line: &[u8], at: usize) -> bool
    ensures { result ≡ is_word_end line.now at }
{
    line.len() <= at || ends_word(line[at])
}
