// What the finders of the five places answer.
use fields::numbers::Label;
pub use fields::perfield::Labels;
use fields::perfield::PerField;

// For each field the label that was found, or none.
pub type Located = PerField<Option<Label>>;
