// A slot for each rule number.
ghost use Rattle.std.specs.Prelude.{◌≡◌, length};

use fields::perfield::PerField;
use sheets::row::PatternRow;

#[derive(Drop)]
pub struct RuleTable {
    pub(crate) slots: [Option<PerField<PatternRow>>; 256],
    ghost sized: { length slots ≡ 256 },
}
