// The arguments of run_circuit.
#![tactic(auto)]

ghost use Rattle.std.specs.Prelude.{◌+◌, ◌<◌, ◌≤◌, ◌≡◌, ◌⊎◌, length, IfOk, IfSome};
ghost use Rattle.std.specs.Fn.{FnReturnsAt};
ghost use Rattle.io.specs.Counts.{IsPrefixLen};
ghost use Rattle.options.specs.Arguments.{count_of, bound_of};

use std::env::{Env, FillError};

// What is printed.
#[derive(Clone, Copy)]
pub enum Output {
    Sheet,
    Page,
    Table,
    Trace,
}

// What an argument is.
#[derive(Clone, Copy)]
enum Kind {
    // A name that a value follows; one that has its value behind `=`.
    Valued,
    Joined,
    // A name alone.
    Flag,
    // What follows is no option.
    End,
    File,
}

// Why an argument is refused.
#[derive(Clone, Copy)]
enum Refusal {
    // There is no such option.
    Unknown,
    // More bytes than a name of a file can have.
    TooLong,
}

// ---- arguments, one by one

fn is_valued(name: &[u8]) -> bool {
    matches!(
        name,
        b"--qubits"
            | b"--threshold"
            | b"--cutoff"
            | b"--try-cutoffs"
            | b"--capacity"
            | b"--max-lost"
            | b"--tmpdir"
            | b"--report"
            | b"--output"
    )
}

// Where an argument's name ends: at the first `=`, or with it.
fn name_end(argument: &[u8]) -> usize
    ensures { result ≤ length argument.now }
{
    scan::find(argument, 0, argument.len(), b'=')
}

fn kind_of(argument: &[u8]) -> Result<Kind, Refusal> {
    match argument {
        b"--" => Ok(Kind::End),
        b"--quiet" | b"-h" | b"--version" | b"--help" => Ok(Kind::Flag),
        [b'-', _, ..] => option_of(argument),
        _ => Ok(Kind::File),
    }
}

// .. of one that begins with a dash.
fn option_of(argument: &[u8]) -> Result<Kind, Refusal> {
    if is_valued(argument) {
        return Ok(Kind::Valued);
    }
    let end = name_end(argument);
    if end < argument.len() && is_valued(&argument[..end]) {
        return Ok(Kind::Joined);
    }
    Err(Refusal::Unknown)
}

// Argument i.
fn kind_at(rt: &impl Env, i: usize) -> Result<Kind, Refusal> {
    let mut argument = io::buffer();
    match rt.arg(i, &mut argument) {
        Ok(n) => kind_of(&argument[..n]),
        Err(_) => Err(Refusal::TooLong),
    }
}

fn is_end(rt: &impl Env, i: usize) -> bool {
    matches!(kind_at(rt, i), Ok(Kind::End))
}

// After argument i and its value, if it has one.
fn after(rt: &impl Env, i: usize) -> usize
    requires { i < 2147483648 }
    ensures { (i < result) × (result ≤ i + 2) }
{
    match kind_at(rt, i) {
        Ok(Kind::Valued) => i + 2,
        _ => i + 1,
    }
}

// Whether there is an argument i.
fn is_there(rt: &impl Env, i: usize) -> bool {
    let mut argument = io::buffer();
    !matches!(rt.arg(i, &mut argument), Err(FillError::NotPresent))
}

// How many arguments are looked at: all that there are, but no more than these.
fn arguments(rt: &impl Env) -> usize
    ensures { result ≤ 65536 }
{
    for n in 0..65536 {
        if !is_there(rt, n) {
            return n;
        }
    }
    65536
}

// Argument i, put at the start of a buffer; how many bytes it has, 0 if there is none or it has no room.
pub fn put_argument(rt: &impl Env, i: usize, buffer: &mut [u8]) -> usize
    ensures { IsPrefixLen result buffer.new }
{
    rt.arg(i, buffer).unwrap_or(0)
}

// ---- the place of an option

// Where an option's value stands: in which argument, 0 if the option is not given, and from where on in it.
#[derive(Clone, Copy)]
pub struct Place {
    pub argument: usize,
    pub from: usize,
}

// The value of this name in argument i, or after it.
fn value_in(i: usize, argument: &[u8], name: &[u8]) -> Option<Place>
    requires { i < 65536 }
    ensures { IfSome result (λ place. place.argument ≤ 65536) }
{
    if check::same(argument, name) {
        return Some(Place {
            argument: i + 1,
            from: 0,
        });
    }
    let end = name_end(argument);
    if end < argument.len() && check::same(&argument[..end], name) {
        return Some(Place {
            argument: i,
            from: end + 1,
        });
    }
    None
}

fn value_at(rt: &impl Env, i: usize, name: &[u8], before: Place) -> Place
    requires { (i < 65536) × (before.argument ≤ 65536) }
    ensures { result.argument ≤ 65536 }
{
    let mut argument = io::buffer();
    let Ok(n) = rt.arg(i, &mut argument) else {
        return before;
    };
    value_in(i, &argument[..n], name).unwrap_or(before)
}

// The value of the last option of this name.
pub fn place_of(rt: &impl Env, name: &[u8]) -> Place
    ensures { result.argument ≤ 65536 }
{
    let n = arguments(rt);
    let mut place = Place {
        argument: 0,
        from: 0,
    };
    let mut i: usize = 1;
    while i < n {
        if is_end(rt, i) {
            return place;
        }
        place = value_at(rt, i, name, place);
        // An option's value is passed over with it.
        i = after(rt, i);
    }
    place
}

// ---- what is wrong with them

fn say_argument(rt: &impl Env, i: usize) {
    let mut argument = io::buffer();
    let n = put_argument(rt, i, &mut argument);
    printing::say(b"run_circuit: ");
    printing::say_word(&argument, 0, n);
}

fn say_unknown(rt: &impl Env, i: usize) {
    say_argument(rt, i);
    printing::say(b": there is no such option; run_circuit --help lists what there is\n");
}

fn say_too_long(i: usize) {
    printing::say(b"run_circuit: argument ");
    printing::say_number(i as u64);
    printing::say(b" has more than 4096 bytes\n");
}

fn say_missing(rt: &impl Env, i: usize) {
    say_argument(rt, i);
    printing::say(b": a value was expected after it\n");
}

fn say_second_file(rt: &impl Env, i: usize) {
    say_argument(rt, i);
    printing::say(b": one file was expected, and this is the second\n");
}

// The argument that is the file.
#[derive(Clone, Copy)]
struct Named {
    place: usize,
    ghost within: { place ≤ 65536 },
}

// It was said what is wrong.
#[derive(Clone, Copy)]
pub struct Said;

// Argument i is a file; before it, `file` was one.
fn file_at(rt: &impl Env, i: usize, file: Option<Named>) -> Result<Option<Named>, Said>
    requires { i < 65536 }
{
    if file.is_some() {
        say_second_file(rt, i);
        return Err(Said);
    }
    Ok(Some(Named { place: i }))
}

// Argument i of n, after those before it.
fn looked_at(rt: &impl Env, i: usize, n: usize, file: Option<Named>) -> Result<Option<Named>, Said>
    requires { i < 65536 }
{
    match kind_at(rt, i) {
        Ok(Kind::File) => return file_at(rt, i, file),
        Ok(Kind::Valued) if n <= i + 1 => say_missing(rt, i),
        Ok(_) => return Ok(file),
        Err(Refusal::Unknown) => say_unknown(rt, i),
        Err(Refusal::TooLong) => say_too_long(i),
    }
    Err(Said)
}

// The arguments from one on, which are no options.
fn plain_files(
    rt: &impl Env,
    from: usize,
    n: usize,
    before: Option<Named>,
) -> Result<Option<Named>, Said>
    requires { n ≤ 65536 }
{
    let mut file = before;
    for i in from..n {
        file = file_at(rt, i, file)?;
    }
    Ok(file)
}

// Which argument is the file, if one is.
fn only_file(rt: &impl Env) -> Result<Option<Named>, Said> {
    let n = arguments(rt);
    let mut file = None;
    let mut i: usize = 1;
    while i < n {
        file = looked_at(rt, i, n, file)?;
        if is_end(rt, i) {
            return plain_files(rt, i + 1, n, file);
        }
        // An option's value is passed over with it.
        i = after(rt, i);
    }
    Ok(file)
}

// Which argument is the file, if one is; all arguments are known and complete.
pub fn files(rt: &impl Env) -> Result<Option<usize>, Said>
    ensures { IfOk result (λ file. IfSome file (λ place. place ≤ 65536)) }
{
    Ok(only_file(rt)?.map(|file| file.place))
}

// ---- their values

pub fn is_given(rt: &impl Env, name: &[u8]) -> bool {
    let place = place_of(rt, name);
    place.argument != 0
}

// The bytes from one place of a buffer to another, moved to its start; how many they are.
fn moved_down(buffer: &mut [u8], from: usize, to: usize) -> usize
    ensures { IsPrefixLen result buffer.new }
{
    let end = to.min(buffer.len());
    if end <= from {
        return 0;
    }
    buffer.copy_within(from..end, 0);
    end - from
}

// An option's value, put at the start of a buffer; how many bytes it has.
pub fn value_of(rt: &impl Env, place: Place, buffer: &mut [u8]) -> usize
    ensures { IsPrefixLen result buffer.new }
{
    let n = put_argument(rt, place.argument, buffer);
    moved_down(buffer, place.from, n)
}

fn say_bad(name: &[u8], value: &[u8], expected: &[u8]) {
    printing::say(b"run_circuit: ");
    printing::say(name);
    printing::say(b" ");
    printing::say_word(value, 0, value.len());
    printing::say(b": ");
    printing::say(expected);
    printing::say(b" was expected\n");
}

// What an option's value is read as, or what there is without the option; else it is said what was expected.
fn read_option<T: Copy, F: Fn(&[u8]) -> Option<T>>(
    rt: &impl Env,
    name: &[u8],
    without: T,
    read: F,
    expected: &[u8],
) -> Option<T>
    requires { F.IsAlwaysCallable read }
    ensures { (result ≡ Some without) ⊎ ((text : _) × FnReturnsAt F.Fn read text result) }
{
    let place = place_of(rt, name);
    if place.argument == 0 {
        return Some(without);
    }
    let mut value = io::buffer();
    let n = value_of(rt, place, &mut value);
    let answer = read(&value[..n]);
    if answer.is_none() {
        say_bad(name, &value[..n], expected);
    }
    answer
}

// A whole number from `least` to `most`, and nothing else.
#[tactic(auto, unfolding(crate::specs::Arguments::count_from, crate::specs::Arguments::count_in))]
fn count_of(value: &[u8], least: usize, most: usize) -> Option<usize>
    ensures value { result ≡ count_of least most value.now }
    ensures value_le_most { IfSome result (λ v. v ≤ most) }
{
    let w = decimal::whole(value, 0);
    let v = w.value.ok()? as usize;
    if w.end != value.len() || v < least || most < v {
        return None;
    }
    Some(v)
}

// The number of an option, or what it is without the option, if it is one of those that are allowed; else it is said what was expected.
pub fn count_option(
    rt: &impl Env,
    name: &[u8],
    least: usize,
    most: usize,
    without: usize,
    expected: &[u8],
) -> Option<usize>
    requires { without ≤ most }
    ensures { IfSome result (λ v. v ≤ most) }
{
    read_option(
        rt,
        name,
        without,
        |value| count_of(value, least, most),
        expected,
    )
}

// A decimal number of 0 or more, and nothing else.
#[tactic(auto, unfolding(crate::specs::Arguments::bound_from, crate::specs::Arguments::bound_in))]
fn bound_of(value: &[u8]) -> Option<f64>
    ensures { result ≡ bound_of value.now }
{
    let d = decimal::decimal(value, 0);
    match d.value {
        Ok(x) if d.end == value.len() && 0.0 <= x => Some(x),
        _ => None,
    }
}

const BOUND: &[u8] = b"a decimal number of 0 or more, of at most 19 digits,";

// The same for a decimal number of 0 or more.
pub fn bound_option(rt: &impl Env, name: &[u8], without: f64) -> Option<f64> {
    read_option(rt, name, without, bound_of, BOUND)
}

// ---- cutoffs that are tried

// How many there are, 0 without the option; their values, and from where to where each one stands in the option's value.
#[derive(Clone, Copy)]
pub struct Cutoffs {
    pub count: usize,
    pub values: [f64; 8],
    pub from: [usize; 8],
    pub to: [usize; 8],
}

fn no_cutoffs() -> Cutoffs {
    Cutoffs {
        count: 0,
        values: [0.0f64; 8],
        from: [0; 8],
        to: [0; 8],
    }
}

// The decimal numbers of a list, with commas between them; else it is said what was expected.
fn cutoffs_of(list: &[u8]) -> Option<Cutoffs> {
    let mut c = no_cutoffs();
    let mut at = 0;
    for i in 0..8 {
        let end = scan::find(list, at, list.len(), b',');
        let Some(value) = bound_of(&list[at..end]) else {
            say_bad(b"--try-cutoffs", &list[at..end], BOUND);
            return None;
        };
        c.values[i] = value;
        c.from[i] = at;
        c.to[i] = end;
        c.count = i + 1;
        if end == list.len() {
            return Some(c);
        }
        at = end + 1;
    }
    say_bad(
        b"--try-cutoffs",
        list,
        b"a list of 1 to 8 cutoffs, with commas between them,",
    );
    None
}

// Whether an option that says nothing about trials is left out; else it is said why it has to be.
fn is_left_out(rt: &impl Env, name: &[u8], why: &[u8]) -> bool {
    if is_given(rt, name) {
        printing::say(b"run_circuit: ");
        printing::say(name);
        printing::say(b" cannot be given with --try-cutoffs: ");
        printing::say(why);
        printing::say(b"\n");
        return false;
    }
    true
}

fn are_left_out(rt: &impl Env) -> bool {
    let cutoff = is_left_out(
        rt,
        b"--cutoff",
        b"each trial has a cutoff of its own, from the list",
    );
    let lost = is_left_out(
        rt,
        b"--max-lost",
        b"the trials count entries, and what they lose is not told",
    );
    let output = is_left_out(
        rt,
        b"--output",
        b"what is printed is the table of the entries after each step",
    );
    cutoff && lost && output
}

// The cutoffs, if they can be tried; else it is said why not.
pub fn cutoffs_option(rt: &impl Env) -> Option<Cutoffs> {
    let place = place_of(rt, b"--try-cutoffs");
    if place.argument == 0 {
        return Some(no_cutoffs());
    }
    let mut list = io::buffer();
    let n = value_of(rt, place, &mut list);
    let c = cutoffs_of(&list[..n]);
    if are_left_out(rt) { c } else { None }
}

// ---- what is printed

fn output_of(value: &[u8]) -> Option<Output> {
    match value {
        b"sheet" => Some(Output::Sheet),
        b"page" => Some(Output::Page),
        b"table" => Some(Output::Table),
        b"trace" => Some(Output::Trace),
        _ => None,
    }
}

// What is printed, if it is known; else it is said what was expected.
pub fn output_option(rt: &impl Env) -> Option<Output> {
    read_option(
        rt,
        b"--output",
        Output::Sheet,
        output_of,
        b"sheet, page, table or trace",
    )
}
