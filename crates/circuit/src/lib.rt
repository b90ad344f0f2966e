// One line of a circuit, in a subset of Stim's circuit language, without its line end:
//     NAME[tag](arguments) targets      REPEAT n {      }      or nothing
// and then, if at all, a comment from `#` on. Any bytes may be given. No call has a precondition.
// A place in a line is a number beside it: no struct has both, since each step would open one and build the next.
#![tactic(auto)]

mod arguments;
mod lines;
mod names;
mod numbers;
mod runs;
mod targets;

ghost use Rattle.std.specs.Prelude.{◌≡◌, ◌+◌, ◌-◌, ◌≤◌, ◌<◌, length, take, drop, MatchResult};
ghost use Rattle.circuit.specs.Lines as Lines;
ghost use Rattle.circuit.specs.Names as Names;
ghost use Rattle.circuit.specs.Places.{Read, WordBetween};

use lines::Misread;
pub use lines::{Act, Fault, Item, Line, Name, Reach, Seen, Target};
pub use names::{is_named, takes_pairs};
use runs::Run;
pub use targets::{reach, target};

// ---- lines that call nothing

fn plain(item: Item, from: usize, to: usize) -> Line
    ensures item_value { (result.item ≡ item) × (result.from ≡ from) × (result.to ≡ to) × (result.targets ≡ to) }
    ensures is { result ≡ Lines.plain item from to }
{
    Line {
        item,
        from,
        to,
        targets: to,
        rates: [0.0f64; 15],
    }
}

// The word from a place on is at fault.
fn bad_word(line: &[u8], fault: Fault, from: usize) -> Line
    requires { from ≤ length line.now }
    ensures read { Read line.now result }
    ensures is { result ≡ Lines.bad_word line.now fault from }
{
    plain(Item::Bad(fault), from, runs::end(line, Run::Word, from))
}

// What stands in the line up to `at`, if nothing follows it.
#[tactic(auto, unfolding(crate::specs::Lines::alone, crate::specs::Lines::alone_to))]
fn alone(line: &[u8], item: Item, from: usize, at: usize) -> Line
    requires { (from ≤ at) × (at ≤ length line.now) × ((a : Act) → item ≡ Item.Call a → ⊥) }
    ensures read { Read line.now result }
    ensures is { result ≡ Lines.alone line.now item from at }
{
    let rest = runs::end(line, Run::Blanks, at);
    if runs::is_end(line, rest) {
        return plain(item, from, at);
    }
    bad_word(line, Fault::After, rest)
}

// ---- tags

// Where a tag ends, if one stands there.
#[tactic(auto, unfolding(crate::specs::Lines::tag_at, crate::specs::Lines::tag_to, crate::specs::Runs::is_at))]
fn tag_at(line: &[u8], at: usize) -> Result<usize, Misread>
    requires { at ≤ length line.now }
    ensures within { MatchResult result (λ end. (at ≤ end) × (end ≤ length line.now)) (λ m. WordBetween at m (length line.now)) }
    ensures is { result ≡ Lines.tag_at line.now at }
{
    if !runs::is_at(line, at, b'[') {
        return Ok(at);
    }
    let close = runs::end(line, Run::Tag, at);
    if close < line.len() {
        return Ok(close + 1);
    }
    Err(Misread {
        fault: Fault::Tag,
        from: at,
        to: close,
    })
}

// A tag decides what I and I_ERROR are, and they are refused without it.
#[tactic(auto, unfolding(crate::specs::Lines::tag_verdict))]
fn tag_verdict(name: Name, tag: &[u8]) -> Result<(), Fault>
    ensures { result ≡ Lines.tag_verdict name tag.now }
{
    match name {
        Name::IError if check::same(tag, b"[loss]") => Ok(()),
        Name::IError => Err(Fault::LossTag),
        Name::I if check::same(tag, b"[reset_loss]") => Ok(()),
        Name::I => Err(Fault::ResetTag),
        _ => Ok(()),
    }
}

// ---- REPEAT

// `{` at a place or after blanks.
#[tactic(auto, unfolding(crate::specs::Lines::opened, crate::specs::Lines::opened_at, crate::specs::Runs::is_at))]
fn opened(line: &[u8], times: u64, from: usize, at: usize) -> Line
    requires { (from ≤ at) × (at ≤ length line.now) }
    ensures read { Read line.now result }
    ensures is { result ≡ Lines.opened line.now times from at }
{
    let open = runs::end(line, Run::Blanks, at);
    if runs::is_at(line, open, b'{') {
        return alone(line, Item::Repeat(times), from, open + 1);
    }
    bad_word(line, Fault::Open, open)
}

// How often: from 1 on.
#[tactic(auto, unfolding(crate::specs::Lines::repeated, crate::specs::Lines::times_at, crate::specs::Lines::times))]
fn repeated(line: &[u8], from: usize, at: usize) -> Line
    requires { (from ≤ at) × (at ≤ length line.now) }
    ensures read { Read line.now result }
    ensures is { result ≡ Lines.repeated line.now from at }
{
    let digits = runs::end(line, Run::Blanks, at);
    let c = numbers::whole_at(line, digits);
    match c.value {
        Ok(0) | Err(_) => bad_word(line, Fault::Repeats, digits),
        Ok(times) => opened(line, times, from, c.end),
    }
}

// ---- instructions

// TICK has no targets.
#[tactic(auto, unfolding(crate::specs::Lines::targets_missing))]
fn targets_missing(line: &[u8], name: Name, at: usize) -> bool
    requires { at ≤ length line.now }
    ensures { result ≡ Lines.targets_missing line.now name at }
{
    !matches!(name, Name::Tick) || runs::is_end(line, runs::end(line, Run::Blanks, at))
}

// A line whose name is read: what it names, and from where to where it stands.
#[derive(Clone, Copy)]
struct Front<'a> {
    line: &'a [u8],
    name: Name,
    from: usize,
    to: usize,
    ghost within: { (from ≤ to) × (to ≤ length line.now) },
    ghost spelled: { name ≡ Names.named (take (to - from) (drop from line.now)) },
}

impl Front<'_> {
    // An instruction whose arguments are read, up to `at`.
    #[tactic(auto, unfolding(crate::specs::Lines::called))]
    fn called(self, rates: [f64; 15], at: usize) -> Line
        requires { at ≤ length self.line.now }
        ensures read { Read self.entry.line.now result }
        ensures is { result ≡ Lines.called self.entry.line.now self.entry.name self.entry.from self.entry.to rates at }
    {
        if !runs::is_word_end(self.line, at) {
            return bad_word(self.line, Fault::Blank, at);
        }
        if !targets_missing(self.line, self.name, at) {
            return bad_word(
                self.line,
                Fault::Targets,
                runs::end(self.line, Run::Blanks, at),
            );
        }
        Line {
            item: names::item_of(self.name, rates),
            from: self.from,
            to: self.to,
            targets: at,
            rates,
        }
    }

    // An instruction whose tag is read, up to `at`.
    #[tactic(auto, unfolding(crate::specs::Lines::with_arguments, crate::specs::Lines::argued))]
    fn with_arguments(self, at: usize) -> Line
        requires { (self.to ≤ at) × (at ≤ length self.line.now) }
        ensures read { Read self.entry.line.now result }
        ensures is { result ≡ Lines.with_arguments self.entry.line.now self.entry.name self.entry.from self.entry.to at }
    {
        let a = match arguments::arguments_at(self.line, at) {
            Ok(a) => a,
            Err(m) => return plain(Item::Bad(m.fault), m.from, m.to),
        };
        let wanted = names::arguments_of(self.name);
        if a.count != wanted {
            return plain(Item::Bad(Fault::Arguments(wanted)), self.from, a.to);
        }
        self.called(a.rates, a.to)
    }

    // An instruction or REPEAT, whose tag is still to be read.
    #[tactic(auto, unfolding(crate::specs::Lines::with_tag, crate::specs::Lines::tagged, crate::specs::Lines::judged, crate::specs::Lines::instruction))]
    fn with_tag(self) -> Line
        ensures read { Read self.entry.line.now result }
        ensures is { result ≡ Lines.with_tag self.entry.line.now self.entry.name self.entry.from self.entry.to }
    {
        let at = match tag_at(self.line, self.to) {
            Ok(at) => at,
            Err(m) => return plain(Item::Bad(m.fault), m.from, m.to),
        };
        if let Err(fault) = tag_verdict(self.name, &self.line[self.to..at]) {
            return plain(Item::Bad(fault), self.from, at);
        }
        if !matches!(self.name, Name::Repeat) {
            return self.with_arguments(at);
        }
        if !runs::is_word_end(self.line, at) {
            return bad_word(self.line, Fault::Blank, at);
        }
        repeated(self.line, self.from, at)
    }
}

// Where the name that begins at a place ends.
pub fn name_end(line: &[u8], from: usize) -> usize {
    if from <= line.len() {
        return runs::end(line, Run::Name, from);
    }
    from
}

// Whether a line begins with `}`.
pub fn is_closing(line: &[u8]) -> bool {
    runs::is_at(line, runs::end(line, Run::Blanks, 0), b'}')
}

// What a line asks for, or what is wrong in it.
#[tactic(auto, unfolding(crate::specs::Lines::line_of, crate::specs::Lines::line_from, crate::specs::Lines::with_name, crate::specs::Runs::is_at))]
pub fn parse(line: &[u8]) -> Line
    ensures read { Read line.now result }
    ensures is { result ≡ Lines.line_of line.now }
{
    let from = runs::end(line, Run::Blanks, 0);
    if runs::is_end(line, from) {
        return plain(Item::Nothing, from, from);
    }
    if runs::is_at(line, from, b'}') {
        return alone(line, Item::Close, from, from + 1);
    }
    let to = runs::end(line, Run::Name, from);
    let name = names::named(&line[from..to]);
    if matches!(name, Name::Other) {
        return bad_word(line, Fault::Name, from);
    }
    let front = Front {
        line,
        name,
        from,
        to,
    };
    front.with_tag()
}
