// The format of a rule sheet: rules as plain numbers, the words that write them, and the faults of a sheet.
#![tactic(auto)]

ghost use Rattle.sheets.specs.Example.{Worked};

pub mod fault;
pub mod part;
pub mod row;
pub mod word;

// The worked sheet, and damaged ones, by computing.
pub fn worked_sheet()
    ensures { Worked }
{}
