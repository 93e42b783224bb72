// The sizes of one scope, and how many tuples they have.
ghost use Rattle.std.specs.Prelude.{◌≡◌};
ghost use Rattle.stretches.specs.Sizes.{product};
ghost use Rattle.stretches.specs.Ties.Small.{Small};

// The sizes of a scope's variables. It holds a lent part, and nobody compares two.
#[derive(Clone, Copy)]
pub struct Dims<'a> {
    pub sizes: &'a [u64],
    pub ghost small: { Small sizes.now },
}

impl Dims<'_> {
    // How many tuples variables of these sizes have.
    pub fn tuples(self) -> usize
        ensures { result ≡ product self.entry.sizes.now }
    {
        let mut many = 1;
        for d in self.sizes {
            // `usize` has no `From<u64>`, and `try_from` would need an arm that no size reaches.
            many *= *d as usize;
        }
        many
    }
}
