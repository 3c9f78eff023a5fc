// The lines of the text, each put behind the one before it. Room is asked for by clauses: how much is left
// depends on all that stands on the page.
ghost use Rattle.std.specs.Prelude.{◌≡◌, ◌++◌, ℕ, ◌+◌, ◌*◌, ◌≤◌, ◌<◌, length, get_or};
ghost use Rattle.text.specs.Inner.Within.{WritesWithin};
ghost use Rattle.ways.specs.Cut.{number_of};
ghost use Rattle.reasons.specs.Why.{port, called as name, outward};
ghost use Rattle.reasons.specs.Inner.Pieces.{joints, Joined, outwards, longest_crossing, longest_outward};

use text::Page;
use ways::{CUT, Cause};

// The lines of ports, each with the port at its other end.
pub(crate) fn put_crossings(peers: &[[u16; 8]; 32], ports: &[u32], page: &mut Page)
    requires { ((i : ℕ) → i < length ports.now → Joined peers.now (get_or ports.now i 0)) × (page.old.at + longest_crossing * length ports.now ≤ length page.old.area.now) }
    ensures { WritesWithin (longest_crossing * length ports.now) (joints peers.now ports.now) page.old page.new }
{
    for q in ports {
        let p = peers[*q as usize / 8][*q as usize % 8];
        page.joint(*q, u32::from(p));
    }
}

// What a cause is called.
#[tactic(auto, unfolding(crate::specs::Why::called, text::specs::Text::ascii))]
fn called(cause: Cause) -> &'static [u8]
    ensures { (result.now ≡ name (number_of cause)) × (length result.now ≤ 16) }
{
    match cause {
        Cause::Stopped => b"stopped",
        Cause::MayNotSend => b"may-not-send",
        Cause::MayNotReceive => b"may-not-receive",
        Cause::Barred => b"barred",
        Cause::DoesNotForward => b"does-not-forward",
    }
}

// A port that leads out, as its device and its number there, and its cause.
fn put_outward(page: &mut Page, q: u32, cause: Cause)
    requires { (q < 256) × (page.old.at + longest_outward ≤ length page.old.area.now) }
    ensures { WritesWithin longest_outward (outward q (number_of cause)) page.old page.new }
{
    page.then(q / 8, b" ");
    page.then(q % 8, b" ");
    page.word(called(cause));
    page.word(b"\n");
}

// The lines of all ports that lead out, by device and port; a port that has no cause has no line.
pub(crate) fn put_outwards(causes: &[u32; CUT], page: &mut Page)
    requires { ((q : ℕ) → get_or causes.now q 0 ≤ 5) × (page.old.at + longest_outward * 256 ≤ length page.old.area.now) }
    ensures { WritesWithin (longest_outward * 256) (outwards 256 causes.now) page.old page.new }
{
    for (q, number) in causes.iter().enumerate() {
        if let Ok(cause) = Cause::try_from(*number) {
            put_outward(page, q as u32, cause);
        }
    }
}
