// A set of rule numbers, each a bit.
ghost use Rattle.std.specs.Prelude.{◌≡◌, length};

#[derive(Clone, Copy, PartialEq, Eq, Debug)]
pub struct RuleSet {
    pub(crate) words: [u64; 4],
    ghost sized: { length words ≡ 4 },
}
