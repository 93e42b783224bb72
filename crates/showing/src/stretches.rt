// Whether a part of a lent table may be shown.
ghost use Rattle.std.specs.Prelude.{◌≡◌};
ghost use Rattle.showing.specs.Showing.{whole_with, may_show};

use costs::networks::Network;
use judging::judge;

pub fn may_show(net: &Network, held: &[u64], worked: &[u64], f: usize) -> bool
    ensures { result ≡ may_show net.now held.now worked.now f }
{
    whole_with(net, held) && whole_with(net, worked) && f < net.functions
}

// The numbers are a network with this table, and it is not shorter than E.
fn whole_with(net: &Network, table: &[u64]) -> bool
    ensures { result ≡ whole_with net.now table.now }
{
    judge(net, table, table.len()).is_ok()
}
