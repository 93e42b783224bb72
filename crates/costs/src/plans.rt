// Plans.
use crate::limits::VARS;

// "A plan is one value: up to sixty-four choices with their count."
#[derive(Clone, Copy, Debug, PartialEq, Eq)]
pub struct Plan {
    pub choice: [u8; VARS],
    pub len: usize,
}
