// Numbers that are not to be mistaken for one another.

// How many bits at the front of a pattern are fixed.
#[derive(Clone, Copy, PartialEq, Eq, PartialOrd, Ord, Default, Debug)]
pub struct PrefixLength {
    pub bits: u8,
}

// How many other marked patterns lie around a pattern.
#[derive(Clone, Copy, PartialEq, Eq, PartialOrd, Ord, Debug)]
pub struct Level {
    pub around: usize,
}

// What a finder calls a pattern by: its place in the finder's list, from 0.
#[derive(Clone, Copy, PartialEq, Eq, PartialOrd, Ord, Debug)]
pub struct Label {
    pub place: u16,
}
