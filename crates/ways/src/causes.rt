// The ports that lead out of what is reached, each with the first cause that keeps codes from going over
// it.
ghost use Rattle.std.specs.Prelude.{◌≡◌, not, ◌&&◌, ltb, get_or};
ghost use Rattle.lists.specs.Table.{table};
ghost use Rattle.ways.specs.Cut.{marks, number_of};
ghost use Rattle.ways.specs.Inner.Causes.{first_failing, caused, cause_in};

use crate::{CROSSINGS, CUT, Cause, UNREACHED};
use device::Kind;
use plan::{DeviceNo, Plan, PortNo};
use state::Words;

// A network as it stands, how many crossings away each device is, 32 where it is not reached, and the
// identifier. The plan and the state are lent; nobody compares or prints them.
#[derive(Clone, Copy)]
pub(crate) struct Border<'a> {
    pub plan: &'a Plan,
    pub state: &'a Words,
    pub far: &'a [u32; CROSSINGS],
    pub k: u32,
}

impl<'a> Border<'a> {
    // Does a connection from a device to a device lead out?
    fn leads_out(&self, near: DeviceNo, other: DeviceNo) -> bool
        ensures { result ≡ (ltb (get_or self.now.far.now near 0) 32 && not (ltb (get_or self.now.far.now other 0) 32)) }
    {
        self.far[near.index()] < UNREACHED && UNREACHED <= self.far[other.index()]
    }

    // The cause at a port for k, if it leads out.
    #[tactic(auto, unfolding(crate::specs::Inner::Causes::cause_at, state::specs::State::word))]
    fn cause(&self, port: PortNo) -> Option<Cause>
        ensures { cause_in result ≡ caused self.now.plan.now self.now.state.now self.now.far.now self.now.k port }
    {
        let permissions = &self.plan.core.permissions;
        let q = port.index();
        let other = PortNo::new(usize::from(self.plan.peers[q / 8][q % 8]))?;
        if !self.leads_out(port.device(), other.device()) {
            return None;
        }
        let far = other.index();
        let runs = self.state[state::PORTS + state::PORT * q + state::RUNNING] == 1;
        let sends = Kind::Interrupt.may_send(u32::from(permissions[q]));
        let takes = Kind::Interrupt.may_receive(u32::from(permissions[far]));
        let admits = bits::get(self.plan.barred[2 * far], self.k) == 0;
        Some(first_failing(runs, sends, takes, admits))
    }

    // Its number, or 0.
    fn number(&self, port: PortNo) -> u32
        ensures { result ≡ caused self.now.plan.now self.now.state.now self.now.far.now self.now.k port }
    {
        self.cause(port).map_or(0, u32::from)
    }

    // The causes at all ports; answers how many there are.
    pub(crate) fn put_causes(&self, causes: &mut [u32; CUT]) -> u32
        ensures { (causes.new ≡ table 256 (caused self.now.plan.now self.now.state.now self.now.far.now self.now.k)) × (result ≡ marks 256 (caused self.now.plan.now self.now.state.now self.now.far.now self.now.k)) }
    {
        *causes = std::array::from_fn(|q| self.number(PortNo::new(q).unwrap()));
        causes.iter().filter(|c| **c != 0).count() as u32
    }
}

// The first cause of a port that leads out, by whether it runs, may send, and its other end may receive and
// does not bar. Where all is so, it can only be that its device does not forward.
#[tactic(auto, unfolding(crate::specs::Inner::Causes::first_failing))]
fn first_failing(runs: bool, sends: bool, takes: bool, admits: bool) -> Cause
    ensures { number_of result ≡ first_failing runs sends takes admits }
{
    if !runs {
        return Cause::Stopped;
    }
    if !sends {
        return Cause::MayNotSend;
    }
    if !takes {
        return Cause::MayNotReceive;
    }
    if !admits {
        return Cause::Barred;
    }
    Cause::DoesNotForward
}
