// Rule lists written: the sheet, and every refusal.
ghost use Rattle.std.specs.Prelude.{◌≤◌};

use super::reading::{pattern, sheet_bytes, two_rules};
use sheets::row::RuleRow;
use std::process::Abort;
use std::test::Fail;
use writer::write_sheet;

// The number that a write is refused with. A refused write leaves the output as it was.
fn refused(rt: &impl Abort, rules: &[RuleRow], room: usize) -> Option<u8>
    requires { room ≤ 72 }
{
    let mut out = [0xEE; 72];
    let refusal = write_sheet(rules, &mut out[..room]).err()?;
    assert_eq!(rt; out, [0xEE; 72]);
    Some(refusal.number())
}

#[test]
fn written(rt: HostRuntime) -> Result<(), Fail> {
    let mut out = [0; 72];
    let count = write_sheet(&two_rules(), &mut out)?;
    assert_eq!(rt; count, 68);
    assert_eq!(rt; out, sheet_bytes());
    Ok(())
}

fn numbered(number: u32, rule: RuleRow) -> RuleRow {
    RuleRow { number, ..rule }
}

#[test]
fn numbers(rt: HostRuntime) {
    let [first, second] = two_rules();
    assert_eq!(rt; refused(&rt, &[first, second], 67), Some(9));
    assert_eq!(rt; refused(&rt, &[first, numbered(256, second)], 68), Some(1));
    assert_eq!(rt; refused(&rt, &[first, numbered(2, second)], 68), Some(13));
    assert_eq!(rt; refused(&rt, &[numbered(9, first), second], 0), Some(13));
}

// All lengths are looked at before any bit, and the room last.
#[test]
fn patterns(rt: HostRuntime) {
    let [first, second] = two_rules();
    let mut bad = second;
    bad.addresses.source = pattern(8, 1);
    bad.ports.source = pattern(17, 1);
    assert_eq!(rt; refused(&rt, &[first, bad], 68), Some(2));
    bad.ports.source = pattern(16, 1);
    assert_eq!(rt; refused(&rt, &[first, bad], 0), Some(3));
    bad = second;
    bad.protocol = pattern(7, 0);
    assert_eq!(rt; refused(&rt, &[first, bad], 0), Some(2));
    bad.protocol = pattern(8, 256);
    assert_eq!(rt; refused(&rt, &[first, bad], 0), Some(3));
}

// The end word alone.
#[test]
fn empty(rt: HostRuntime) -> Result<(), Fail> {
    let mut out = [0xEE; 4];
    let count = write_sheet(&[], &mut out)?;
    assert_eq!(rt; count, 4);
    assert_eq!(rt; out, [0xC0, 0, 0, 0]);
    Ok(())
}
