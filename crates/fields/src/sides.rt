// One for each side of a packet's way.
#[derive(Clone, Copy, PartialEq, Eq, Default, Debug)]
pub struct Sides<T> {
    pub source: T,
    pub destination: T,
}
