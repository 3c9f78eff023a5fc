// Claims: which port each port of a good block says that it leads to.
ghost use Rattle.std.specs.Prelude.{◌≡◌, Some, cond, ltb, set};
ghost use Rattle.mend.specs.Claims.{pointed as claims_pointed};
ghost use Rattle.mend.specs.Inner.Steps.{marks, peers_in, pointed_all, claimants_in, contest_at, contested as steps_contested};

use crate::scan::{Blocks, Marks};
use plan::PortNo;
use std::cmp::min;

// The port that claims each port, by 8 x device + port.
pub(crate) type Claimants = [Option<u8>; 256];

// Where port q is said to lead. Of a damaged block nothing is taken.
fn pointed_at(blocks: &Blocks<'_>, damaged: &Marks, port: PortNo) -> u16
    requires { damaged.now ≡ marks blocks.now.file.now }
    ensures { result ≡ claims_pointed blocks.now.file.now port }
{
    let q = port.index();
    if damaged[q / 8] {
        return plan::NOBODY;
    }
    planfile::peer_at(blocks.file, q / 8, q % 8)
}

// Where each port is said to lead, by 8 x device + port.
pub(crate) fn pointed(blocks: &Blocks<'_>, damaged: &Marks) -> [u16; 256]
    requires { damaged.now ≡ marks blocks.now.file.now }
    ensures { result ≡ pointed_all blocks.now.file.now }
{
    std::array::from_fn(|q| pointed_at(blocks, damaged, PortNo::new(q).unwrap()))
}

// Port q claims port t, if that is one.
fn claim(t: usize, q: u8, claimants: &mut Claimants)
    ensures { claimants.new ≡ cond (ltb t 256) (set claimants.old t (Some q)) claimants.old }
{
    if t < 256 {
        claimants[t] = Some(q);
    }
}

// The port that claims each port; of several the last, as a later one takes its place. A port is counted, since
// it is the claim as well as the place of it.
pub(crate) fn claimants(pointed: &[u16; 256]) -> Claimants
    ensures { peers_in result ≡ claimants_in pointed.now }
{
    let mut out = [None; 256];
    for q in 0..256 {
        claim(usize::from(pointed[q]), q as u8, &mut out);
    }
    out
}

// The block of a damaged device at which port q, that is said to lead to t, contests what another one
// claims; or 33, behind the last block, so that `min` finds the lowest with no case for none.
#[tactic(auto, using(std::proofs::lemmas::Bool::Decides::nat_tests), unfolding(crate::specs::Inner::Steps::contest_at))]
fn contest(t: usize, port: PortNo, claimants: &Claimants, damaged: &Marks) -> usize
    ensures { result ≡ contest_at t port (peers_in claimants.now) damaged.now }
{
    if t < 256 && damaged[t / 8] && claimants[t] != Some(port.index() as u8) {
        return 1 + t / 8;
    }
    33
}

// The lowest block of a damaged device of which two ports claim one. A port is counted here too, as it is
// compared with who claims.
pub(crate) fn contested(pointed: &[u16; 256], claimants: &Claimants, damaged: &Marks) -> Option<u32>
    ensures { result ≡ steps_contested pointed.now (peers_in claimants.now) damaged.now }
{
    let mut low = 33;
    for q in 0..256 {
        let port = PortNo::new(q).unwrap();
        low = min(
            low,
            contest(usize::from(pointed[q]), port, claimants, damaged),
        );
    }
    if low == 33 {
        return None;
    }
    Some(low as u32)
}
