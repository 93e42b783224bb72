// What the judge lets pass.
ghost use Rattle.std.specs.Prelude.{◌≡◌};
ghost use Rattle.std.proofs.Props.{props};
ghost use Rattle.costs.specs.Ties.Facts.{all_below_prop};
ghost use Rattle.costs.specs.Networks.{outline_of, entries_of, Ready};

use costs::networks::Network;

// A network that nothing stands against: what the rooms above count on stands in its type. Nobody compares two.
#[derive(Clone, Copy)]
pub struct Judged<'a> {
    pub network: &'a Network,
    // E
    pub entries: usize,
    pub ghost ready: { Ready (outline_of network.now) network.now.sizes network.now.scopes network.now.starts } by { Prim.hlevel (props, all_below_prop) },
    pub ghost whole: { entries ≡ entries_of network.now.vars network.now.functions network.now.sizes network.now.scopes },
}
