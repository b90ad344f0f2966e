// What a line of a circuit is read as.
use model::Channel;

// What an instruction calls on each of its targets, or on each pair of them.
#[derive(Clone, Copy)]
pub enum Act {
    H,
    S,
    Channel(Channel),
    ResetLoss,
    Cnot,
    // The line's 15 rates.
    PauliPairs,
    Depolarize2(f64),
}

// What stands at the front of a line.
#[derive(Clone, Copy)]
pub enum Name {
    H,
    S,
    Cx,
    XError,
    YError,
    ZError,
    IError,
    PauliChannel1,
    PauliChannel2,
    Depolarize1,
    Depolarize2,
    I,
    Tick,
    Repeat,
    Other,
}

// What is wrong.
#[derive(Clone, Copy)]
pub enum Fault {
    // No instruction of the language.
    Name,
    // A tag that is not closed.
    Tag,
    // I_ERROR without [loss], and I without [reset_loss].
    LossTag,
    ResetTag,
    // No decimal number; one of more than 19 digits; one that no f64 is large enough for.
    Number,
    Digits,
    Infinite,
    // Neither `,` nor `)` after a number.
    Bracket,
    // Not as many arguments as these.
    Arguments(usize),
    // No blank after the instruction.
    Blank,
    // Targets of TICK.
    Targets,
    // No whole number; one of 64 or more; one that is not below this number of qubits.
    Qubit,
    Range,
    Outside(usize),
    // A first qubit without a second; the same one twice.
    Half,
    Same,
    // REPEAT: no whole number from 1 on; no `{`. After `{` and `}`: something that is no comment.
    Repeats,
    Open,
    After,
}

// What a line asks for.
#[derive(Clone, Copy)]
pub enum Item {
    // A blank line, a comment, TICK.
    Nothing,
    Call(Act),
    Repeat(u64),
    Close,
    Bad(Fault),
}

// A line: what it asks for; from where to where its instruction stands, or the word at fault; where the targets begin; its arguments.
#[derive(Clone, Copy)]
pub struct Line {
    pub item: Item,
    pub from: usize,
    pub to: usize,
    pub targets: usize,
    pub rates: [f64; 15],
}

// What the next call is on.
#[derive(Clone, Copy)]
pub enum Seen {
    // No target is left.
    End,
    // A qubit, as both; or a pair of qubits.
    At(usize, usize),
    Bad(Fault),
}

// .. and from where to where it stands.
#[derive(Clone, Copy)]
pub struct Target {
    pub seen: Seen,
    pub from: usize,
    pub to: usize,
}

// The word at fault, from where to where it stands.
#[derive(Clone, Copy)]
pub struct Misread {
    pub fault: Fault,
    pub from: usize,
    pub to: usize,
}

// All targets of a line: how many qubits they need, one more than the highest, 0 if there are none; or the first word at fault.
#[derive(Clone, Copy)]
pub struct Reach {
    pub verdict: Result<(), Fault>,
    pub qubits: usize,
    pub from: usize,
    pub to: usize,
}
