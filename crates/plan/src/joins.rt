// Connections: whether each points back, searched by device and then port.
ghost use Rattle.std.specs.Prelude.{◌≡◌, [], ◌<◌, min, get_or};
ghost use Rattle.lists.specs.Table.{joined};
ghost use Rattle.plan.specs.Fields.{joins as fields_joins};
ghost use Rattle.plan.specs.Refusals.{first, join_tests};

// Does port p of device d lead to a port that exists, that points back, and that is another one? A
// port without a peer leads nowhere, which is well. Numbers and parts are plain, as the definition `joins` and
// the two loops below have them.
#[tactic(auto, using(std::proofs::lemmas::Bool::Decides::nat_tests), unfolding(crate::specs::Fields::joins))]
fn joins(ports: &[u8; 32], peers: &[[u16; 8]; 32], d: usize, p: usize) -> bool
    requires { (d < 32) × (p < 8) }
    ensures { result ≡ fields_joins (λ e. get_or ports.now e 0) (λ e q. get_or (get_or peers.now e []) q 0) d p }
{
    let q = usize::from(peers[d][p]);
    if q == usize::from(crate::NOBODY) {
        return true;
    }
    if usize::from(crate::NOBODY) < q {
        return false;
    }
    let own = 8 * d + p;
    let (e, far) = (q / 8, q % 8);
    far < usize::from(ports[e]) && usize::from(peers[e][far]) == own && q != own
}

// The block of the first device that has a bad connection, of n devices but no more than 32; 0
// where there is none, as `first` of `Refusals` has it, of which the contract speaks. The parts come
// apart, since a reader asks this before it makes a plan of them.
pub fn bad_block(n: usize, ports: [u8; 32], peers: &[[u16; 8]; 32]) -> u32
    ensures { result ≡ (first (joined (min n 32) (join_tests (λ e. get_or ports e 0) (λ e q. get_or (get_or peers.now e []) q 0)))).at }
{
    // Nested loops left by a label are a form that the project asks for here (DECISIONS 136).
    'search: loop {
        for d in 0..32 {
            if n <= d {
                break 'search 0;
            }
            for p in 0..8 {
                if !joins(&ports, peers, d, p) {
                    break 'search (d + 1) as u32;
                }
            }
        }
        break 'search 0;
    }
}
