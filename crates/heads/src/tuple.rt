// The nested levels of a rule's five patterns.
ghost use Rattle.heads.specs.Levels.{Low};

use fields::numbers::Level;
use fields::perfield::PerField;

#[derive(Clone, Copy, PartialEq, Eq, Debug)]
pub struct Tuple {
    pub levels: PerField<Level>,
    ghost low: { Low levels },
}
