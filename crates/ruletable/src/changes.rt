// What is asked of a table, and what changes it.
ghost use Rattle.std.specs.Prelude.{◌≡◌, ◌<◌, false, [], map, Some, None, slice_index_or, slice_set};
ghost use Rattle.book.specs.Book.{stands, insert, without};
ghost use Rattle.rulesets.specs.Sets.{members};
ghost use Rattle.sheets.specs.Fields.{parts_of};
ghost use Rattle.ruletable.specs.Slots.{rows, row_in};

use crate::table::RuleTable;
use fields::perfield::PerField;
use rulesets::ruleset::RuleSet;
use sheets::row::RuleRow;

impl RuleTable {
    // A table in which no rule stands.
    pub fn new() -> RuleTable
        ensures { rows result.slots ≡ [] }
    {
        RuleTable { slots: [None; 256] }
    }

    // The rule of a number.
    pub fn get(&self, n: u8) -> Option<RuleRow>
        ensures { result ≡ row_in n (slice_index_or self.now.slots n None) }
    {
        let parts = self.slots[n as usize]?;
        Some(RuleRow::new(u32::from(n), parts))
    }

    // Whether a rule of this number stands.
    pub fn stands(&self, number: u32) -> bool
        ensures { result ≡ stands number (rows self.now.slots) }
    {
        number < 256 && self.slots[number as usize].is_some()
    }

    // The numbers of the standing rules.
    pub fn standing(&self) -> RuleSet
        ensures { members result ≡ map (λ q. q.number) (rows self.now.slots) }
    {
        let mut numbers = RuleSet::new();
        for (n, slot) in self.slots.iter().enumerate() {
            if slot.is_some() {
                numbers = numbers.with(n as u8);
            }
        }
        numbers
    }

    // Writes a rule into the slot of its number, and changes no other.
    pub fn put(&mut self, row: RuleRow)
        requires { row.number < 256 }
        ensures slots { self.new.slots ≡ slice_set self.old.slots row.number (Some (parts_of row)) }
        ensures rows { stands row.number (rows self.old.slots) ≡ false → rows self.new.slots ≡ insert row (rows self.old.slots) }
    {
        self.slots[row.number as usize] = Some(PerField::from(row));
    }

    // Strikes out the rule of a number, and changes no other.
    pub fn strike(&mut self, n: u8)
        ensures slots { self.new.slots ≡ slice_set self.old.slots n None }
        ensures rows { rows self.new.slots ≡ without n (rows self.old.slots) }
    {
        self.slots[n as usize] = None;
    }

    // Strikes out all rules.
    pub fn clear(&mut self)
        ensures { rows self.new.slots ≡ [] }
    {
        self.slots = [None; 256];
    }
}
