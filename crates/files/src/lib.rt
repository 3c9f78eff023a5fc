// Input that a program takes in whole: from its standard input, or from a file that it opened.
#![tactic(auto)]

ghost use Rattle.std.specs.Prelude.{IfOk, ◌<◌, length, take};
ghost use Rattle.std.specs.Io.KnownBytes.{Consumes, IsAtEnd};
ghost use Rattle.io.specs.Counts.{IsPrefixLen};

use std::io;
use std::io::Read;

// Room for a plan file. The longest has 16,896 bytes; one byte more shows that a file is longer.
pub const PLAN: usize = 16897;

// Reads until the area is full, the input ends or a read fails, and answers how many bytes it read. The
// start of a file must not pass for a whole one, so a read that fails is told from the end. How far a
// read gets is known once it has answered, so the loop counts by itself.
pub fn read<R: Read>(from: &mut R, area: &mut [u8]) -> io::Result<usize>
    ensures count { IfOk result (λ n. IsPrefixLen n area.new) }
    ensures bytes { IfOk result (λ n. Consumes (R.remaining from.old) (R.remaining from.new) (take n area.new)) }
    ensures whole { IfOk result (λ n. n < length area.new → IsAtEnd (R.remaining from.new)) }
{
    let mut n = 0;
    while n < area.len() {
        let more = from.read(&mut area[n..])?;
        if more == 0 {
            return Ok(n);
        }
        n += more;
    }
    Ok(n)
}
