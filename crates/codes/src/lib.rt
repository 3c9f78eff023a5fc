// Control codes, and the byte after ESC that each of them is (draft 000, clause 1).
#![tactic(auto)]

ghost use Rattle.std.specs.Prelude.{◌≡◌, ◌+◌, ◌≤◌};
ghost use Rattle.answers.specs.Refusals.{answer_of};
ghost use Rattle.codes.specs.Codes.{reads, writes, at_most};

use answers::Refusal;

// The bytes that a kind's identifiers are counted from.
pub const INTERRUPTS: u8 = 128;

pub const ACKNOWLEDGES: u8 = 160;

// What a byte says. A value above 63 or an identifier above 31 has no byte. A reserved byte says its two
// top bits, 1 or 3, and its low six.
#[derive(Clone, Copy, Debug, PartialEq, Eq)]
pub enum Code {
    Time(u8),
    Interrupt(u8),
    Acknowledge(u8),
    Reserved(u8, u8),
}

// The code of a byte. Every byte has one.
#[tactic(auto, using(crate::proofs::BothWays::parts), unfolding(crate::specs::Codes::reads))]
pub fn read(byte: u8) -> Code
    ensures { result ≡ reads byte }
{
    match byte {
        0..=63 => Code::Time(byte),
        64..=127 => Code::Reserved(1, byte - 64),
        128..=159 => Code::Interrupt(byte - INTERRUPTS),
        160..=191 => Code::Acknowledge(byte - ACKNOWLEDGES),
        192..=255 => Code::Reserved(3, byte - 192),
    }
}

// The byte of a code: the one that reads as it. Reserved has no writer.
#[tactic(auto, unfolding(crate::specs::Codes::writes))]
pub fn write(code: Code) -> Result<u8, Refusal>
    ensures { answer_of result ≡ writes code }
{
    match code {
        Code::Time(value) => placed(0, 63, value),
        Code::Interrupt(k) => placed(INTERRUPTS, 31, k),
        Code::Acknowledge(k) => placed(ACKNOWLEDGES, 31, k),
        Code::Reserved(_, _) => Err(Refusal::NoSuchIdentifier),
    }
}

// The byte of a value, counted from the byte `first`.
#[tactic(auto, unfolding(crate::specs::Codes::at_most))]
fn placed(first: u8, most: u8, value: u8) -> Result<u8, Refusal>
    requires { first + most ≤ 255 }
    ensures { answer_of result ≡ at_most most value (first + value) }
{
    if most < value {
        return Err(Refusal::NoSuchIdentifier);
    }
    Ok(first + value)
}
