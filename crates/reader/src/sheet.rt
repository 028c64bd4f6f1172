// The sheet reader.
ghost use Rattle.std.specs.Prelude.{◌≡◌, ◌+◌, ◌*◌, ◌^◌, ◌<◌, ◌≤◌, [], length, IfSome, IfOk, IfErr, MatchResult};
ghost use Rattle.fields.specs.Refusals.{code};
ghost use Rattle.fields.specs.declared.refusal.Refusal.TheVariants.{SheetEnd};
ghost use Rattle.sheets.specs.Faults.{fault_at};
ghost use Rattle.sheets.specs.Reading.{Answers, accepted, refused, least, listed, sheet_read};
ghost use Rattle.reader.specs.Readers.{words_of, ReadsWord, opening_due, opened, Fills, FillsFrom, Tells};

use crate::words::WordsFrom;
use arrayvec::ArrayVec;
use fields::refusal::Refusal;
use sheets::fault::Fault;
use sheets::row::RuleRow;
use sheets::word::WordKind;

// Numbers ascend and are at most 255.
pub const MOST_RULES: usize = 256;

// The rules of a sheet, in their order.
pub type Rules = ArrayVec<RuleRow, MOST_RULES>;

impl WordsFrom<'_> {
    // Where a rule or the end is due: the number of the rule, which has to be `lowest` or above, or none where the sheet ends.
    #[tactic(auto, unfolding(crate::specs::Readers::Refused, crate::specs::Readers::opening_due, crate::specs::Readers::opened))]
    fn opening(self, lowest: u32) -> Result<Option<u32>, Fault>
        requires { lowest ≡ least (words_of self.words.now) self.place }
        ensures read { let ws = words_of self.entry.words.now in let i = self.entry.place in ReadsWord (opening_due ws i) i (opened ws i) result }
        ensures few { IfOk result (λ o. IfSome o (λ k. (lowest ≤ k) × (k ≤ 255))) }
    {
        let word = self.word()?;
        let rest = word.rest();
        let Ok(kind) = WordKind::try_from(word.bits) else {
            return Err(self.fault(Refusal::WordKind));
        };
        match kind {
            WordKind::Rule if rest > 255 => Err(self.fault(Refusal::RuleNumber)),
            WordKind::Rule if rest < lowest => Err(self.fault(Refusal::RuleOrder)),
            WordKind::Rule => Ok(Some(rest)),
            WordKind::End if rest as usize != self.place / 8 => Err(self.fault(Refusal::RuleCount)),
            WordKind::End => Ok(None),
            _ => Err(self.fault(Refusal::WordKind)),
        }
    }

    // Refuses words after the first, which ends the sheet.
    fn end(self) -> Result<(), Fault>
        requires { self.place + 8 < 2 ^ 64 }
        ensures { MatchResult result (λ _. length self.entry.words.now ≤ self.entry.place + 1) (λ f. (self.entry.place + 1 < length self.entry.words.now) × (f ≡ fault_at SheetEnd (self.entry.place + 1))) }
    {
        let next = self.on(1);
        if next.place < self.words.len() {
            return Err(next.fault(Refusal::SheetEnd));
        }
        Ok(())
    }
}

// The rules of the words of a sheet, put into an empty list.
#[tactic(auto, using(crate::proofs::Turns::turns))]
fn read_rules(words: &[[u8; 4]], rules: &mut Rules) -> Result<(), Fault>
    requires { rules.old.items ≡ [] }
    ensures { Fills (words_of words.now) rules.new.items result }
{
    let mut lowest = 0;
    loop {
        let place = 8 * rules.len();
        let at = WordsFrom { words, place };
        let Some(number) = at.opening(lowest)? else {
            return at.end();
        };
        let rule = at.rule(number)?;
        rules.push(rule);
        lowest = number + 1;
    }
}

// The rules of the bytes of a sheet, put into an empty list.
fn read_bytes(bytes: &[u8], rules: &mut Rules) -> Result<(), Fault>
    requires { rules.old.items ≡ [] }
    ensures here { MatchResult result (λ _. sheet_read bytes.now 256 ≡ accepted rules.new.items) (λ f. sheet_read bytes.now 256 ≡ refused (code f.refusal) f.place f.layer) }
    ensures anywhere { FillsFrom bytes.now rules.new.items result }
{
    let (words, rest) = bytes.as_chunks::<4>();
    if bytes.is_empty() || !rest.is_empty() {
        return Err(Fault::at(Refusal::ByteCount, 0));
    }
    read_rules(words, rules)
}

// Fills a list with the rules of a sheet, whatever it held. A refused read leaves it empty.
// What is told holds for a rule list of any number of places, and there is always room here.
// The list is lent, since it is large: each function that handed it on by value would have one more of it on the stack.
pub fn fill_rules(bytes: &[u8], rules: &mut Rules) -> Result<(), Fault>
    ensures here { MatchResult result (λ _. sheet_read bytes.now 256 ≡ accepted rules.new.items) (λ f. sheet_read bytes.now 256 ≡ refused (code f.refusal) f.place f.layer) }
    ensures anywhere { FillsFrom bytes.now rules.new.items result }
    ensures refused { IfErr result (λ _. rules.new.items ≡ []) }
{
    rules.clear();
    match read_bytes(bytes, rules) {
        Ok(()) => Ok(()),
        Err(fault) => {
            rules.clear();
            Err(fault)
        }
    }
}

// The rules of a sheet.
pub fn rules_of_sheet(bytes: &[u8]) -> Result<Rules, Fault>
    ensures here { MatchResult result (λ v. sheet_read bytes.now 256 ≡ accepted v.items) (λ f. sheet_read bytes.now 256 ≡ refused (code f.refusal) f.place f.layer) }
    ensures anywhere { Tells bytes.now result }
{
    let mut rules = Rules::new();
    fill_rules(bytes, &mut rules)?;
    Ok(rules)
}

// Reads a sheet into a rule list, and tells how many rules it has. A refused read leaves the list as it was.
pub fn read_sheet(bytes: &[u8], rules: &mut [RuleRow]) -> Result<usize, Fault>
    ensures answer { Answers (sheet_read bytes.now (length rules.old)) result }
    ensures list { rules.new ≡ listed (sheet_read bytes.now (length rules.old)) rules.old }
{
    let mut read = Rules::new();
    fill_rules(bytes, &mut read)?;
    let count = read.len();
    if count > rules.len() {
        return Err(Fault::at(Refusal::NoRoom, 0));
    }
    rules[0..count].copy_from_slice(read.as_slice());
    Ok(count)
}
