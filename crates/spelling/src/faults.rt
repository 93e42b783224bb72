// Where a record breaks a rule.

// Err is the number of the word at which it does.
pub type Kept = Result<(), usize>;
