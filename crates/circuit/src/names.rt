// The names of the instructions, as Stim has them, and what each asks for.
ghost use Rattle.std.specs.Prelude.{◌≡◌};
ghost use Rattle.circuit.specs.Names as Names;

use crate::{Act, Item, Name};
use model::Channel;

// A letter's capital; any other byte as it is.
#[tactic(auto, unfolding(crate::specs::Names::capital))]
fn capital(b: u8) -> u8
    ensures { result ≡ Names.capital b }
{
    match b {
        b'a'..=b'z' => b - 32,
        _ => b,
    }
}

// Whether a word is a name, in letters of any case.
pub fn is_named(word: &[u8], name: &[u8]) -> bool
    ensures { result ≡ Names.spells word.now name.now }
{
    if word.len() != name.len() {
        return false;
    }
    for i in 0..word.len() {
        if capital(word[i]) != name[i] {
            return false;
        }
    }
    true
}

// What a word names.
#[tactic(auto, unfolding(crate::specs::Names::named))]
pub fn named(word: &[u8]) -> Name
    ensures { result ≡ Names.named word.now }
{
    if is_named(word, b"H") {
        return Name::H;
    }
    if is_named(word, b"S") {
        return Name::S;
    }
    if is_named(word, b"CX") || is_named(word, b"CNOT") {
        return Name::Cx;
    }
    named_error(word)
}

#[tactic(auto, unfolding(crate::specs::Names::named_error))]
fn named_error(word: &[u8]) -> Name
    ensures { result ≡ Names.named_error word.now }
{
    if is_named(word, b"X_ERROR") {
        return Name::XError;
    }
    if is_named(word, b"Y_ERROR") {
        return Name::YError;
    }
    if is_named(word, b"Z_ERROR") {
        return Name::ZError;
    }
    if is_named(word, b"I_ERROR") {
        return Name::IError;
    }
    named_channel(word)
}

#[tactic(auto, unfolding(crate::specs::Names::named_channel))]
fn named_channel(word: &[u8]) -> Name
    ensures { result ≡ Names.named_channel word.now }
{
    if is_named(word, b"DEPOLARIZE1") {
        return Name::Depolarize1;
    }
    if is_named(word, b"DEPOLARIZE2") {
        return Name::Depolarize2;
    }
    if is_named(word, b"PAULI_CHANNEL_1") {
        return Name::PauliChannel1;
    }
    if is_named(word, b"PAULI_CHANNEL_2") {
        return Name::PauliChannel2;
    }
    named_rest(word)
}

#[tactic(auto, unfolding(crate::specs::Names::named_rest))]
fn named_rest(word: &[u8]) -> Name
    ensures { result ≡ Names.named_rest word.now }
{
    if is_named(word, b"I") {
        return Name::I;
    }
    if is_named(word, b"TICK") {
        return Name::Tick;
    }
    if is_named(word, b"REPEAT") {
        return Name::Repeat;
    }
    Name::Other
}

// How many arguments an instruction takes.
pub fn arguments_of(name: Name) -> usize
    ensures { result ≡ Names.arguments_of name }
{
    match name {
        Name::XError | Name::YError | Name::ZError | Name::IError => 1,
        Name::Depolarize1 | Name::Depolarize2 => 1,
        Name::PauliChannel1 => 3,
        Name::PauliChannel2 => 15,
        Name::H | Name::S | Name::Cx | Name::I | Name::Tick => 0,
        Name::Repeat | Name::Other => 0,
    }
}

// What an instruction asks for, with its arguments.
pub fn item_of(name: Name, rates: [f64; 15]) -> Item
    ensures { result ≡ Names.item_of name rates }
{
    match name {
        Name::H => Item::Call(Act::H),
        Name::S => Item::Call(Act::S),
        Name::Cx => Item::Call(Act::Cnot),
        Name::XError => Item::Call(Act::Channel(Channel::Pauli(rates[0], 0.0, 0.0))),
        Name::YError => Item::Call(Act::Channel(Channel::Pauli(0.0, rates[0], 0.0))),
        Name::ZError => Item::Call(Act::Channel(Channel::Pauli(0.0, 0.0, rates[0]))),
        Name::IError => Item::Call(Act::Channel(Channel::Loss(rates[0]))),
        Name::PauliChannel1 => {
            Item::Call(Act::Channel(Channel::Pauli(rates[0], rates[1], rates[2])))
        }
        Name::PauliChannel2 => Item::Call(Act::PauliPairs),
        Name::Depolarize1 => Item::Call(Act::Channel(Channel::Depolarizing(rates[0]))),
        Name::Depolarize2 => Item::Call(Act::Depolarize2(rates[0])),
        Name::I => Item::Call(Act::ResetLoss),
        Name::Tick | Name::Repeat | Name::Other => Item::Nothing,
    }
}

// Whether its targets come in pairs.
pub fn takes_pairs(act: Act) -> bool
    ensures { result ≡ Names.takes_pairs act }
{
    matches!(act, Act::Cnot | Act::PauliPairs | Act::Depolarize2(_))
}
