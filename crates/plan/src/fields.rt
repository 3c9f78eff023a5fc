// What the numbers of a plan may be, whether they come from a file or stand in memory.
#![tactic(auto, using(std::proofs::lemmas::Bool::Decides::nat_tests), unfolding(crate::specs::Fields::devices_fit, crate::specs::Fields::loads_fit, crate::specs::Fields::pair_fits, crate::specs::Fields::ports_fit, crate::specs::Fields::masks_fit, crate::specs::Fields::master_is_node, crate::specs::Inner::Memory::free_masks))]

ghost use Rattle.std.specs.Prelude.{◌≡◌, ◌≤◌, get_or};
ghost use Rattle.plan.specs.Fields.{devices_fit, loads_fit, pair_fits, ports_fit, masks_fit, master_is_node};
ghost use Rattle.plan.specs.Inner.Memory.{free_masks};
ghost use Rattle.lists.specs.Table.{every};
ghost use Rattle.plan.specs.Header.{pair_at};

use crate::Loads;
use std::cmp::min;

pub fn devices_fit(n: usize) -> bool
    ensures { result ≡ devices_fit n }
{
    1 <= n && n <= 32
}

pub fn loads_fit(router: usize, node: usize) -> bool
    ensures { result ≡ loads_fit router node }
{
    1 <= router && 1 <= node && router <= node
}

// May an identifier have these loads? Two zeros say that it has none of its own.
fn pair_fits(router: u16, node: u16) -> bool
    ensures { result ≡ pair_fits router node }
{
    if router == 0 {
        return node == 0;
    }
    router <= node
}

// May each identifier have its loads? All are asked, several at a time, where a search for one that may
// not would look at each.
pub(crate) fn pairs_fit(loads: &Loads) -> bool
    ensures { result ≡ every 32 (λ k. pair_fits (get_or loads.now (pair_at k 1) 0) (get_or loads.now (pair_at k 0) 0)) }
{
    let (pairs, _) = loads[2..].as_chunks::<2>();
    let mut all = true;
    for pair in pairs {
        all = pair_fits(pair[1], pair[0]) && all;
    }
    all
}

// Does the role allow this number of ports?
pub fn ports_fit(role: u8, ports: u8) -> bool
    ensures { result ≡ ports_fit role ports }
{
    let most = if role == 0 { 2 } else { 8 };
    role <= 1 && 1 <= ports && ports <= most
}

// Does the role allow these masks?
pub fn masks_fit(role: u8, source: u32, handler: u32) -> bool
    ensures { result ≡ masks_fit role source handler }
{
    if role == 0 {
        return source & handler == 0;
    }
    source == 0 && handler == 0
}

// Is device d a node, or not the master? The master is a number plus 1, and 0 is nobody's.
pub fn master_is_node(master: u8, d: usize, role: u8) -> bool
    ensures { result ≡ master_is_node master d role }
{
    role == 0 || master == 0 || usize::from(master) - 1 != d
}

// How many of the 16 masks of a device may be any: two for each port of a router, and none of a node's.
pub fn free_masks(role: u8, ports: u8) -> usize
    ensures { (result ≡ free_masks role ports) × (result ≤ 16) }
{
    if role != 1 {
        return 0;
    }
    min(2 * usize::from(ports), 16)
}
