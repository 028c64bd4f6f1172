// The laws of the sheet format.
#![tactic(auto)]

ghost use Rattle.sheetlaws.specs.Laws.{WrittenIsRead, ReadIsWritten, StopsFirst};

// A written sheet reads back as the same rules.
pub fn written_is_read()
    ensures { WrittenIsRead }
{}

// An accepted sheet, written again, has the same bytes.
pub fn read_is_written()
    ensures { ReadIsWritten }
{}

// A fault is the first of its sheet.
pub fn stops_first()
    ensures { StopsFirst }
{}
