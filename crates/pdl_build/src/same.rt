// Whether two nets are one.
ghost use Rattle.std.specs.Prelude.{◌≡◌, IsTrue};

use pdl_net::Net;

/// Whether two nets are one.
#[tactic(auto, using(pdl_net::proofs::Equal::net_equal))]
pub fn is_same_net(a: Net, b: Net) -> bool
    ensures { IsTrue result → a ≡ b }
{
    a == b
}
