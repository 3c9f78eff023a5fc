// The walk by visits. A visit takes the set of the devices met so far and gives it with those that it
// finds, and counts the ports that it examines.
ghost use Rattle.std.specs.Prelude.{◌≡◌, true, ◌+◌, eqb};
ghost use Rattle.state.specs.State.{running};
ghost use Rattle.reach.specs.Inner.Depth.{left, Few, Finds};
ghost use Rattle.reach.specs.Visits.{ahead_all, ahead_in, is_new, seen, device_visit, port_visit};

use device::Kind;
use plan::{DeviceNo, Plan, PortNo};
use state::Words;

// A network as it stands, and the identifier that is asked about. The plan and the state are lent, so
// that no visit copies them; nobody compares or prints them.
#[derive(Clone, Copy)]
pub(crate) struct Net<'a> {
    pub plan: &'a Plan,
    pub state: &'a Words,
    pub k: u32,
}

// What visits have seen: the devices met so far, as a set, and how many ports were examined.
#[derive(Clone, Copy, Debug, PartialEq, Eq)]
pub(crate) struct Seen {
    pub set: u32,
    pub examined: u32,
}

impl<'a> Net<'a> {
    // Does port q run?
    #[tactic(auto, unfolding(state::specs::State::word))]
    fn runs(&self, q: PortNo) -> bool
        ensures { result ≡ eqb (running self.now.state.now q) 1 }
    {
        self.state[state::PORTS + state::PORT * q.index() + state::RUNNING] == 1
    }

    // The device that a port leads to for k, or 32, which is no device: the table of `ahead_all` has
    // numbers. The tests stand in the order in which a code meets them, and the last alone asks for k.
    #[tactic(auto, unfolding(crate::specs::Visits::ahead))]
    fn ahead(&self, port: PortNo) -> usize
        ensures { result ≡ ahead_in self.now.plan.now self.now.state.now self.now.k port }
    {
        let permissions = &self.plan.core.permissions;
        let q = port.index();
        if !self.runs(port) {
            return 32;
        }
        if !Kind::Interrupt.may_send(u32::from(permissions[q])) {
            return 32;
        }
        let Some(far) = PortNo::new(usize::from(self.plan.peers[q / 8][q % 8])) else {
            return 32;
        };
        if !Kind::Interrupt.may_receive(u32::from(permissions[far.index()])) {
            return 32;
        }
        if bits::get(self.plan.barred[2 * far.index()], self.k) != 0 {
            return 32;
        }
        far.device().index()
    }

    // A device that is new joins the set, and a router passes on. The ports examined are those of this
    // visit alone.
    #[cycle(device_each_port)]
    fn device(&self, device: DeviceNo, set: u32) -> Seen
        requires { Few self.now.plan.now.core.ports × (is_new set device ≡ true) }
        ensures { Finds (λ depth. device_visit self.now.plan.now.core.role self.now.plan.now.core.ports (ahead_in self.now.plan.now self.now.state.now self.now.k) depth device set) (left set) result }
    {
        let d = device.index();
        let joined = bits::join(set, d as u32);
        // A node passes nothing on: none of its ports is examined.
        if self.plan.core.role[d] != 1 {
            return Seen {
                set: joined,
                examined: 0,
            };
        }
        self.each_port(device, joined)
    }

    // Each port of a device is examined, and what it leads to is visited, but for a device that was met
    // before: so no port counts twice.
    #[cycle(device_each_port)]
    pub(crate) fn each_port(&self, device: DeviceNo, start: u32) -> Seen
        requires { Few self.now.plan.now.core.ports }
        ensures { Finds (λ depth. port_visit self.now.plan.now.core.role self.now.plan.now.core.ports (ahead_in self.now.plan.now self.now.state.now self.now.k) depth device 0 (seen start 0)) (left start + 9) result }
    {
        let d = device.index();
        let mut set = start;
        let mut examined = 0u32;
        for p in 0..usize::from(self.plan.core.ports[d]) {
            let next = self.ahead(PortNo::new(8 * d + p).unwrap());
            examined += 1;
            if is_new(set, next) {
                let behind = self.device(DeviceNo::new(next).unwrap(), set);
                examined += behind.examined;
                set = behind.set;
            }
        }
        Seen { set, examined }
    }
}

// What is ahead of each port for k. In an area that is no state nothing leads anywhere.
pub fn ahead_all(plan: &Plan, state: &[u32], k: u32) -> [usize; 256]
    ensures { result ≡ ahead_all plan.now.core.permissions plan.now.peers plan.now.barred state.now k }
{
    let Some(state) = state.as_array() else {
        return [32; 256];
    };
    let net = Net { plan, state, k };
    std::array::from_fn(|q| net.ahead(PortNo::new(q).unwrap()))
}

// Does device d exist, and was it not met before?
fn is_new(set: u32, d: usize) -> bool
    ensures { result ≡ is_new set d }
{
    d < 32 && bits::get(set, d as u32) == 0
}
