// How the number of a pattern is written. It is what a field has, and no step to run: a closure or a type in its place would say no more.
#[derive(Clone, Copy, PartialEq, Eq, Debug)]
pub enum Notation {
    // Four numbers, as in 10.0.0.0.
    Dotted,
    Plain,
}
