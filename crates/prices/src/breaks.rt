// Where a plan broke: "the first part at which the running ⊕-sum reaches k, reckoned over the constant, the unary costs by variable, then the functions by
// number; or "nowhere" if the price is below k". One enum and no `Option` of a part: `refused_nowhere` and `named_price` speak of its case `Nowhere`.
#[derive(Clone, Copy, Debug, PartialEq, Eq)]
pub enum Break {
    Nowhere,
    Constant,
    Unary(usize),
    Function(usize),
}
