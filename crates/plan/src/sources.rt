// Sources: whether no identifier but an event has two.
ghost use Rattle.std.specs.Prelude.{◌≡◌, min, get_or};
ghost use Rattle.plan.specs.Fields.{sources_fit};

use std::cmp::min;

// Is each identifier an event that two of n devices, but of no more than 32, are both sources of? One look
// at each device does: what comes again is in what was seen so far.
pub fn sources_fit(events: u32, source: [u32; 32], n: usize) -> bool
    ensures { result ≡ sources_fit events (λ d. get_or source d 0) (min n 32) }
{
    let mut seen: u32 = 0;
    for mask in &source[..min(n, 32)] {
        let again = seen & *mask;
        if again & events != again {
            return false;
        }
        seen |= *mask;
    }
    true
}
