// The shifts of cost, as they are asked for.

// One of the paper's three shifts, by an amount.
#[derive(Clone, Copy, Debug, PartialEq, Eq)]
pub enum Move {
    // from a function to a value of a variable in its scope
    Project {
        function: usize,
        variable: usize,
        value: usize,
        amount: u64,
    },
    // the reverse
    Extend {
        function: usize,
        variable: usize,
        value: usize,
        amount: u64,
    },
    // from a variable's unary costs to the constant
    Raise {
        variable: usize,
        amount: u64,
    },
}
