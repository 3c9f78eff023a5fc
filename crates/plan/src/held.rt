// Whether some accepted file holds a plan: the check for refusal 1.
#![tactic(auto, using(std::proofs::lemmas::Bool::Decides::nat_tests), unfolding(crate::specs::Inner::Memory::port_right, crate::specs::Inner::Memory::device_right, crate::specs::Inner::Memory::row_right))]

ghost use Rattle.std.specs.Prelude.{◌≡◌, ◌+◌, ◌*◌, ◌<◌, ◌≤◌};
ghost use Rattle.lists.specs.Table.{every};
ghost use Rattle.answers.specs.Decides.{Decides};
ghost use Rattle.plan.specs.Reading.{Held};
ghost use Rattle.plan.specs.Fields.{bar_fits};
ghost use Rattle.plan.specs.Inner.Memory.{at, peer_at, port_right, device_right, row_right, right};

use crate::{Core, DeviceNo, NOBODY, Plan, fields, joins, sources};

// Is some accepted file's plan this one? It comes by value, as at the door: of a plan that its caller owns
// the check knows that each number fits its type, which `Held` asks, and of a lent one the lengths alone.
pub fn is_held(plan: Plan) -> bool
    ensures { Decides (Held plan) result }
{
    is_right(&plan)
}

impl Plan {
    // The same of a plan that is lent, of a copy.
    pub fn is_held(&self) -> bool
        ensures { Decides (Held self.now) result }
    {
        is_held(*self)
    }
}

// Does the plan look as a held one does?
fn is_right(plan: &Plan) -> bool
    ensures { result ≡ right plan.now }
{
    let core = &plan.core;
    crate::header_fits(crate::header_of(plan.core))
        && rows_right(plan)
        && joins::bad_block(core.devices, core.ports, &plan.peers) == 0
        && sources::sources_fit(core.events, core.source, core.devices)
}

// Are the numbers and the ports of all 32 devices right, those of absent ones too? That there are no more
// is asked of the four that pass it on, and known from the header's test: a type for a plan half tested is
// no plainer.
fn rows_right(plan: &Plan) -> bool
    requires { plan.now.core.devices ≤ 32 }
    ensures { result ≡ every 32 (row_right plan.now.core plan.now.peers plan.now.barred) }
{
    (0..32).all(|d| row_right(plan, DeviceNo::new(d).unwrap()))
}

fn row_right(plan: &Plan, d: DeviceNo) -> bool
    requires { plan.now.core.devices ≤ 32 }
    ensures { result ≡ row_right plan.now.core plan.now.peers plan.now.barred d }
{
    device_right(&plan.core, d) && ports_right(plan, d) && bars_right(plan, d)
}

fn device_right(core: &Core, d: DeviceNo) -> bool
    ensures { result ≡ device_right core.now.devices core.now.master d (at core.now.role d) (at core.now.ports d) (at core.now.source d) (at core.now.handler d) }
{
    let d = d.index();
    let (role, ports) = (core.role[d], core.ports[d]);
    let (source, handler) = (core.source[d], core.handler[d]);
    if d < core.devices {
        return fields::ports_fit(role, ports)
            && fields::masks_fit(role, source, handler)
            && fields::master_is_node(core.master, d, role);
    }
    role == 0 && ports == 0 && source == 0 && handler == 0
}

// Are the ports of device d right?
fn ports_right(plan: &Plan, d: DeviceNo) -> bool
    requires { plan.now.core.devices ≤ 32 }
    ensures { result ≡ every 8 (λ p. port_right plan.now.core.devices (at plan.now.core.ports d) p (peer_at plan.now.peers d p) (at plan.now.core.permissions (8 * d + p))) }
{
    let core = &plan.core;
    let d = d.index();
    let ports = core.ports[d];
    (0..8).all(|p| {
        port_right(
            core.devices,
            ports,
            p,
            plan.peers[d][p],
            core.permissions[8 * d + p],
        )
    })
}

fn port_right(n: usize, ports: u8, p: usize, peer: u16, permissions: u8) -> bool
    requires { n ≤ 32 }
    ensures { result ≡ port_right n ports p peer permissions }
{
    if p < usize::from(ports) && usize::from(peer) < 8 * n {
        return permissions <= 15;
    }
    peer == NOBODY && permissions == 0
}

// Does device d bar nothing but at ports that may?
fn bars_right(plan: &Plan, d: DeviceNo) -> bool
    ensures { result ≡ every 16 (λ j. bar_fits (at plan.now.core.role d) (at plan.now.core.ports d) j (at plan.now.barred (16 * d + j))) }
{
    let d = d.index();
    let from = 16 * d + fields::free_masks(plan.core.role[d], plan.core.ports[d]);
    areas::zeros(&plan.barred[from..16 * d + 16])
}
