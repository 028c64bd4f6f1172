// A tuple, and how many rules have it.
use crate::tuple::Tuple;

#[derive(Clone, Copy, PartialEq, Eq, Debug)]
pub struct Counted {
    pub tuple: Tuple,
    pub rules: u16,
}
