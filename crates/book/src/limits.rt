// What a grouping is bounded by.

#[derive(Clone, Copy, PartialEq, Eq, Debug)]
pub struct Limits {
    // How many subsets there may be.
    pub subsets: u16,
    // By how many keys a rule may make its subset grow.
    pub growth: u16,
}
