// Whole lines of text.
ghost use Rattle.std.specs.Prelude.{◌≡◌, IfOk, IfSome, string_bytes};
ghost use Rattle.fields.specs.Refusals.{code};
ghost use Rattle.texts.specs.Text.{fault_text, line, rules_lines};

use crate::{FaultText, RuleText};
use sheets::fault::Fault;
use sheets::row::RuleRow;
use std::alloc::{AllocError, Global};
use std::fmt::{Display, Write};

// A text with the end of its line.
pub fn line_of<T: Display + Drop>(heap: Global, item: T) -> Result<String, AllocError>
    ensures text { IfOk result (λ t. IfSome (T.output item) (λ bytes. string_bytes t ≡ line bytes)) }
{
    let mut text = String::new(heap);
    writeln!(text, "{item}")?;
    Ok(text)
}

// A line for each rule.
pub fn rules_lines(heap: Global, rules: &[RuleRow]) -> Result<String, AllocError>
    ensures text { IfOk result (λ t. string_bytes t ≡ rules_lines rules.now) }
{
    let mut text = String::new(heap);
    for rule in rules {
        let rule = RuleText(*rule);
        writeln!(text, "{rule}")?;
    }
    Ok(text)
}

// The line of a sheet that is refused.
pub fn fault_line(heap: Global, fault: Fault) -> Result<String, AllocError>
    ensures text { IfOk result (λ t. string_bytes t ≡ line (fault_text (code fault.refusal) fault.place fault.layer)) }
{
    line_of(heap, FaultText(fault))
}
