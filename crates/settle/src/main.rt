// Reads a plan file on standard input and writes what `report` makes of it on standard output.
#![tactic(auto)]

ghost use Rattle.std.specs.Prelude.{◌≡◌, OnOk, List, ℕ, ◌<◌, length};
ghost use Rattle.std.specs.Io.KnownBytes.{Appends, Consumes, IsAtEnd};
ghost use Rattle.report.specs.Report.{Fits, Prints, Reports, lent};

use std::io::{Read, Write};

// What fails.
#[derive(Clone, Copy, Debug, PartialEq, Eq)]
enum Failure {
    Input,
    Output,
}

impl Failure {
    // What is said of it.
    fn text(self) -> &'static [u8] {
        match self {
            Failure::Input => b"settle: standard input could not be read\n",
            Failure::Output => b"settle: standard output could not be written\n",
        }
    }
}

fn main(rt: HostRuntime) {
    let mut from = rt.stdin();
    let mut to = rt.stdout();
    let mut faults = rt.stderr();
    if let Err(failure) = run(&mut from, &mut to) {
        let _ = faults.write_all(failure.text());
    }
}

// Reads a file, and writes its text: of all that there is to read, or of more than a plan file has.
fn run<R: Read, W: Write>(from: &mut R, to: &mut W) -> Result<(), Failure>
    ensures { OnOk result ((file text : List ℕ) × Consumes (R.remaining from.old) (R.remaining from.new) file
        × (length file < 16897 → IsAtEnd (R.remaining from.new)) × Prints file text
        × Appends (W.contents to.old) (W.contents to.new) text) }
{
    let mut file = [0u8; files::PLAN];
    let n = files::read(from, &mut file).map_err(|_| Failure::Input)?;
    settle(&file[..n], to)
}

// Writes the text of a file.
fn settle<W: Write>(file: &[u8], to: &mut W) -> Result<(), Failure>
    ensures { OnOk result ((text : List ℕ) × Prints file.now text × Appends (W.contents to.old) (W.contents to.new) text) }
{
    let mut state = [0u32; bench::WORDS];
    let mut second = [0u32; bench::WORDS];
    let mut text = [0u8; report::LONGEST];
    let length = make(file, &mut state, &mut second, &mut text);
    to.write_all(&text[..length]).map_err(|_| Failure::Output)
}

// Makes the text of a file, and answers its length. Areas that fit are not refused.
fn make(file: &[u8], state: &mut [u32], second: &mut [u32], text: &mut [u8]) -> usize
    requires { Fits (length state.old) (length second.old) (length text.old) }
    ensures { Reports file.now (lent state.old second.old text.old) 0 result (lent state.new second.new text.new) }
{
    report::report(file, state, second, text).unwrap() as usize
}
