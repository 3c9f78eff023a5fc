// Reads a plan file on standard input, and a state file if one is named, and writes what `reasons` makes
// of them and three numbers on standard output: why SOURCE K DEVICE [STATE] < PLAN.
#![tactic(auto)]

ghost use Rattle.std.specs.Prelude.{◌≡◌, OnOk, IfSome, Bool, List, ℕ, ◌<◌, ◌≤◌, length};
ghost use Rattle.std.specs.Io.KnownBytes.{Appends, Consumes, IsAtEnd};
ghost use Rattle.io.specs.Counts.{IsPrefixLen};
ghost use Rattle.reasons.specs.Why.{is_given, bytes_of, longest, Prints, TellsWhy};

use std::env::{Env, FillError};
use std::fs::{File, Files};
use std::io::{Read, Write};
use std::str;

// One byte more than a state file has shows that a file is longer.
const STATE: usize = reasons::STATE + 1;

// As long as the system lets an argument be.
const ARGUMENT: usize = 131072;

// No file's name is longer.
const NAME: usize = 4096;

// What is asked about.
#[derive(Clone, Copy, Debug, PartialEq, Eq)]
struct Question {
    source: u32,
    k: u32,
    device: u32,
}

// What fails: how it was called, or what is read or written.
#[derive(Clone, Copy, Debug, PartialEq, Eq)]
enum Failure {
    Usage,
    Input,
    Output,
}

impl Failure {
    // What is said of it.
    fn text(self) -> &'static [u8] {
        match self {
            Failure::Usage =>
                b"usage: why SOURCE K DEVICE [STATE] < PLAN, which says by which ports interrupt K gets from device SOURCE to DEVICE, or why it does not, in the state in the file STATE, or at the start\n",
            Failure::Input => b"why: standard input could not be read\n",
            Failure::Output => b"why: standard output could not be written\n",
        }
    }
}

fn main(rt: HostRuntime) {
    let mut from = rt.stdin();
    let mut to = rt.stdout();
    let mut faults = rt.stderr();
    if let Err(failure) = run(&rt, &mut from, &mut to) {
        let _ = faults.write_all(failure.text());
    }
}

// Reads what is asked, the state and the plan, and writes the text: of all that there is to read of the plan,
// or of more than a plan file has.
fn run<V: Env + Files, R: Read, W: Write>(rt: &V, from: &mut R, to: &mut W) -> Result<(), Failure>
    ensures { OnOk result ((plan state text : List ℕ) × (given : Bool) × (source k device : ℕ)
        × Consumes (R.remaining from.old) (R.remaining from.new) plan
        × (length plan < 16897 → IsAtEnd (R.remaining from.new)) × Prints plan given state source k device text
        × Appends (W.contents to.old) (W.contents to.new) text) }
{
    let words = count_words(rt);
    let Some(question) = read_question(rt, words) else {
        return Err(Failure::Usage);
    };
    let mut state = [0; STATE];
    let mut given = None;
    if words == 5 {
        let Some(size) = read_state(rt, &mut state) else {
            return Err(Failure::Usage);
        };
        given = Some(&state[..size]);
    }
    let mut plan = [0; files::PLAN];
    let Ok(n) = files::read(from, &mut plan) else {
        return Err(Failure::Input);
    };
    say(&plan[..n], given, question, to)
}

// How many words it is called by, its own name among them; 6 stands for more.
fn count_words<V: Env>(rt: &V) -> usize {
    (0..6).take_while(|i| is_there(rt, *i)).count()
}

// Is there an argument i? One that has no room is there as well.
fn is_there<V: Env>(rt: &V, i: usize) -> bool {
    let mut start = [0; 1];
    !matches!(rt.arg(i, &mut start), Err(FillError::NotPresent))
}

// Reads the three numbers, of so many words: behind the program's own name there are these, and a file's name
// or nothing.
fn read_question<V: Env>(rt: &V, words: usize) -> Option<Question> {
    if words < 4 || 5 < words {
        return None;
    }
    Some(Question {
        source: number_at(rt, 1)?,
        k: number_at(rt, 2)?,
        device: number_at(rt, 3)?,
    })
}

// The number that argument i says. One that is missing is none. Its room on the stack, and that for a text, are
// not had at once.
#[inline(never)]
fn number_at<V: Env>(rt: &V, i: usize) -> Option<u32> {
    let mut word = [0; ARGUMENT];
    let n = rt.arg(i, &mut word).ok()?;
    text::read_number(&word[..n])
}

// Reads the state file that the last argument names. No file is opened by a name that is too long, or is no
// text.
fn read_state<V: Env + Files>(rt: &V, state: &mut [u8]) -> Option<usize>
    ensures { IfSome result (λ n. IsPrefixLen n state.new) }
{
    let mut name = [0; NAME];
    let n = rt.arg(4, &mut name).ok()?;
    let path = str::from_utf8(&name[..n]).ok()?;
    let mut from = File::open(rt, path).ok()?;
    files::read(&mut from, state).ok()
}

// Writes the text.
#[inline(never)]
fn say<W: Write>(
    plan: &[u8],
    given: Option<&[u8]>,
    question: Question,
    to: &mut W,
) -> Result<(), Failure>
    ensures { OnOk result ((text : List ℕ)
        × Prints plan.now (is_given given.entry) (bytes_of given.entry) question.source question.k question.device text
        × Appends (W.contents to.old) (W.contents to.new) text) }
{
    let mut text = [0; reasons::LONGEST];
    let length = make(plan, given, question, &mut text);
    match to.write_all(&text[..length]) {
        Ok(()) => Ok(()),
        Err(_) => Err(Failure::Output),
    }
}

// Makes the text, and answers its length. An area that fits is not refused.
fn make(plan: &[u8], given: Option<&[u8]>, question: Question, text: &mut [u8]) -> usize
    requires { longest ≤ length text.old }
    ensures { TellsWhy plan.now (is_given given.entry) (bytes_of given.entry) question.source question.k question.device text.old 0 result text.new }
{
    let Question { source, k, device } = question;
    reasons::why(plan, given, source, k, device, text).unwrap() as usize
}
