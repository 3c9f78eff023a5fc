// The lines of the text: each block that was rebuilt, and behind it its ports that are connected back. Room is
// asked for by clauses: how much is left depends on all that stands on the page.
ghost use Rattle.std.specs.Prelude.{◌+◌, ◌*◌, ◌≤◌, ◌<◌, length};
ghost use Rattle.text.specs.Inner.Within.{WritesWithin};
ghost use Rattle.mend.specs.Rescue.{longest};
ghost use Rattle.mend.specs.Inner.Steps.{peer_in, peers_in, restored_in, restored_lines, marked_lines, lines_in, longest_line, longest_router};

use crate::claims::Claimants;
use crate::scan::Marks;
use plan::DeviceNo;
use text::Page;

// The line of port t, if somebody claims it.
fn put_restored(page: &mut Page, t: usize, claimant: Option<u8>)
    requires { (t < 256) × (page.old.at + longest_line ≤ length page.old.area.now) }
    ensures { WritesWithin longest_line (restored_in t (peer_in claimant)) page.old page.new }
{
    if let Some(q) = claimant {
        page.joint(t as u32, u32::from(q));
    }
}

// The lines of the ports of device d that are claimed.
fn put_ports(claimants: &Claimants, device: DeviceNo, page: &mut Page)
    requires { page.old.at + longest_line * 8 ≤ length page.old.area.now }
    ensures { WritesWithin (longest_line * 8) (restored_lines (peers_in claimants.now) device 8) page.old page.new }
{
    let d = device.index();
    for p in 0..8 {
        let t = 8 * d + p;
        put_restored(page, t, claimants[t]);
    }
}

// The lines of device d, if it is marked.
fn put_router(mark: bool, claimants: &Claimants, device: DeviceNo, page: &mut Page)
    requires { page.old.at + longest_router ≤ length page.old.area.now }
    ensures { WritesWithin longest_router (marked_lines mark (peers_in claimants.now) device) page.old page.new }
{
    if mark {
        page.headed(b"block ", (1 + device.index()) as u32);
        put_ports(claimants, device, page);
    }
}

// The lines of all devices that are marked.
pub(crate) fn put_lines(claimants: &Claimants, damaged: &Marks, page: &mut Page)
    requires { page.old.at + longest ≤ length page.old.area.now }
    ensures { WritesWithin longest (lines_in (peers_in claimants.now) damaged.now 32) page.old page.new }
{
    for d in 0..32 {
        put_router(damaged[d], claimants, DeviceNo::new(d).unwrap(), page);
    }
}
