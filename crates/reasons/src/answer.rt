// What is said of a plan and a state: a chain, or the ports that lead out of what is reached.
ghost use Rattle.std.specs.Prelude.{◌++◌, ℕ, ◌+◌, ◌≤◌, ◌<◌, length, get_or};
ghost use Rattle.answers.specs.Ordered.{Ordered};
ghost use Rattle.plan.specs.Reading.{Held};
ghost use Rattle.text.specs.Inner.Within.{WritesWithin};
ghost use Rattle.text.specs.Text.{ascii, headed};
ghost use Rattle.reasons.specs.Why.{is_given, bytes_of, state_for, why_asks, crossings_of, longest};
ghost use Rattle.reasons.specs.Inner.Pieces.{Joined, Answers, CutText, WritesSome};

use crate::{given, lines};
use answers::Refusal;
use plan::Plan;
use state::Words;
use text::Page;

// A chain to the device is looked for first: it finds what is to be refused, and whether there is one. A
// refusal puts nothing.
pub(crate) fn put_answer(
    plan: &Plan,
    given: Option<&[u8]>,
    source: usize,
    k: u32,
    device: usize,
    page: &mut Page,
) -> Result<(), Refusal>
    requires { Held plan.now × (page.old.at + longest ≤ length page.old.area.now) }
    ensures { Answers plan.now (state_for plan.now (is_given given.entry) (bytes_of given.entry)) source k device page.old result page.new }
{
    let mut state = [0; state::WORDS];
    given::take(plan, given, &mut state)?;
    let mut ports = [0; ways::CHAIN];
    let n = ways::chain(*plan, &state, source, k, device, &mut ports)?;
    if n < ways::UNREACHED {
        put_reached(plan, &ports[..n as usize], page);
        return Ok(());
    }
    put_cut(plan, &state, source, k, page);
    Ok(())
}

// The ports of a chain.
fn put_reached(plan: &Plan, ports: &[u32], page: &mut Page)
    requires { (length ports.now < 32) × ((i : ℕ) → i < length ports.now → Joined plan.now.peers (get_or ports.now i 0)) × (page.old.at + longest ≤ length page.old.area.now) }
    ensures { WritesWithin longest (headed (ascii "reached ") (length ports.now) ++ crossings_of plan.now ports.now) page.old page.new }
{
    page.headed(b"reached ", ports.len() as u32);
    lines::put_crossings(&plan.peers, ports, page);
}

// The ports that lead out of what the source reaches. Nothing is refused here any more; plan and state are
// tested again all the same, as cut is a call like any other.
fn put_cut(plan: &Plan, state: &Words, source: usize, k: u32, page: &mut Page)
    requires { Ordered (why_asks plan.now state.now source k source) 0 × (page.old.at + longest ≤ length page.old.area.now) }
    ensures { WritesSome (CutText plan.now state.now source k) page.old page.new }
{
    let mut causes = [0; ways::CUT];
    let count = ways::cut(*plan, state, source, k, &mut causes).unwrap();
    page.headed(b"cut ", count);
    lines::put_outwards(&causes, page);
}
