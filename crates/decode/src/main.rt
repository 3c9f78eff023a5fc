// Lists standard input on standard output, a line for each byte.
#![tactic(auto)]

ghost use Rattle.std.specs.Prelude.{◌≡◌, IsTrue, List, ℕ, ◌*◌, ◌<◌, ◌≤◌, length};
ghost use Rattle.std.specs.Io.KnownBytes.{Appends, Consumes};
ghost use Rattle.areas.specs.Put.{over};
ghost use Rattle.listing.specs.Listing.{lines, longest, Lists};

use std::io::{Read, Write};

// How much is read at a time.
const PIECE: usize = 4096;

// Room for the lines of a whole piece.
const PAGE: usize = listing::LONGEST * PIECE;

fn main(rt: HostRuntime) {
    let mut from = rt.stdin();
    let mut to = rt.stdout();
    let mut faults = rt.stderr();
    list_all(&mut from, &mut to, &mut faults);
}

// A proved loop has to end, and nothing says that standard input does. So the loop counts its turns, up
// to a number that no run uses up.
fn list_all<R: Read, W: Write, E: Write>(from: &mut R, to: &mut W, faults: &mut E) {
    let mut page = [0u8; PAGE];
    for _ in 0..u64::MAX {
        if !list_some(from, to, faults, &mut page) {
            return;
        }
    }
}

// Reads once, writes the lines of what came, and answers whether something came and was written. Where
// nothing came the input has ended; where the read or the write failed it is said, or it would look
// like the end.
fn list_some<R: Read, W: Write, E: Write>(
    from: &mut R,
    to: &mut W,
    faults: &mut E,
    page: &mut [u8; PAGE],
) -> bool
    ensures { (piece : List ℕ) × (length piece ≤ 4096) × (page.new ≡ over (lines piece) page.old)
        × Consumes (R.remaining from.old) (R.remaining from.new) piece
        × (IsTrue result → (0 < length piece) × Appends (W.contents to.old) (W.contents to.new) (lines piece)) }
{
    let mut piece = [0u8; PIECE];
    let Ok(n) = from.read(&mut piece) else {
        let _ = faults.write_all(b"decode: standard input could not be read\n");
        return false;
    };
    let length = list_piece(&piece[..n], page);
    let Ok(()) = to.write_all(&page[..length]) else {
        let _ = faults.write_all(b"decode: standard output could not be written\n");
        return false;
    };
    0 < n
}

// The lines of a whole piece, of which none is left for another call; answers how long they are.
fn list_piece(piece: &[u8], page: &mut [u8]) -> usize
    requires { longest * length piece.now ≤ length page.old }
    ensures { Lists piece.now page.old (length piece.now) result page.new }
{
    listing::list(piece, page).length
}
