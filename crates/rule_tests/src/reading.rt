// Sheets read: what the list then holds, every length, and what follows the end.
use fields::numbers::PrefixLength;
use fields::sides::Sides;
use reader::sheet::{read_sheet, rules_of_sheet};
use sheets::fault::{Fault, Layer};
use sheets::row::{PatternRow, RuleRow};
use std::process::Abort;
use std::test::Fail;

// A row that no sheet here has, to see which places were written.
fn untouched() -> RuleRow {
    RuleRow {
        number: 77,
        ..RuleRow::default()
    }
}

// Rules 2 and 9: source 10.1.0.0/16 and destination 192.0.2.0/24; source 10.1.0.1/32, ports 32768/1 and 5004/16, protocol 17/8.
const WORDS: [u32; 17] = [
    0x20000002, 0x44000A01, 0x60000000, 0x5600C000, 0x70000200, 0x80000000, 0x90000000, 0xA0000000,
    0x20000009, 0x48000A01, 0x60000001, 0x50000000, 0x70000000, 0x80408000, 0x9400138C, 0xA2000011,
    0xC0000002,
];

pub fn pattern(bits: u8, number: u32) -> PatternRow {
    PatternRow {
        length: PrefixLength { bits },
        number,
    }
}

pub fn two_rules() -> [RuleRow; 2] {
    let first = RuleRow {
        number: 2,
        addresses: Sides {
            source: pattern(16, 0x0A01_0000),
            destination: pattern(24, 0xC000_0200),
        },
        ..RuleRow::default()
    };
    let second = RuleRow {
        number: 9,
        addresses: Sides {
            source: pattern(32, 0x0A01_0001),
            destination: PatternRow::default(),
        },
        ports: Sides {
            source: pattern(1, 0x8000),
            destination: pattern(16, 5004),
        },
        protocol: pattern(8, 17),
    };
    [first, second]
}

// The bytes of the sheet, and four bytes 0 after it.
pub fn sheet_bytes() -> [u8; 72] {
    let mut bytes = [0u8; 72];
    let (words, _) = bytes.as_chunks_mut::<4>();
    for (place, word) in words.iter_mut().zip(WORDS) {
        *place = word.to_be_bytes();
    }
    bytes
}

// The number, the place and the layer of a sheet's fault, where the list has two places and is left as it was.
fn fault_of(bytes: &[u8]) -> Option<Fault> {
    let mut list = [untouched(); 2];
    read_sheet(bytes, &mut list)
        .err()
        .filter(|_| list == [untouched(); 2])
}

// By the refusal's number, as the documents have it.
fn check_fault(rt: &impl Abort, bytes: &[u8], number: u8, place: usize) -> Result<(), Fail> {
    let fault = fault_of(bytes).ok_or("no fault, or a changed list")?;
    assert_eq!(rt; fault.refusal.number(), number);
    assert_eq!(rt; fault.place, place);
    assert_eq!(rt; fault.layer, Layer::Sheet);
    Ok(())
}

#[test]
fn accepted(rt: HostRuntime) -> Result<(), Fail> {
    let bytes = sheet_bytes();
    let mut list = [untouched(); 3];
    assert!(rt; read_sheet(&bytes[0..68], &mut list).is_ok());
    let [first, second] = two_rules();
    assert_eq!(rt; list, [first, second, untouched()]);
    let rules = rules_of_sheet(&bytes[0..68])?;
    assert_eq!(rt; rules.as_slice(), [first, second].as_slice());
    Ok(())
}

// Every shorter sheet: not whole words, or a word missing.
#[test]
fn cut_short(rt: HostRuntime) -> Result<(), Fail> {
    check_fault(&rt, &[], 10, 0)?;
    let bytes = sheet_bytes();
    for n in 1..68usize {
        let (number, place) = if n % 4 == 0 { (15, n / 4) } else { (10, 0) };
        check_fault(&rt, &bytes[0..n], number, place)?;
    }
    Ok(())
}

// Too few places, words after the end, and the end alone.
#[test]
fn ends(rt: HostRuntime) -> Result<(), Fail> {
    let bytes = sheet_bytes();
    check_fault(&rt, &bytes, 15, 17)?;
    let mut list = [untouched(); 1];
    let fault = read_sheet(&bytes[0..68], &mut list)
        .err()
        .ok_or("accepted")?;
    assert_eq!(rt; fault.refusal.number(), 9);
    assert_eq!(rt; fault.place, 0);
    assert_eq!(rt; fault.layer, Layer::Sheet);
    assert_eq!(rt; list[0], untouched());
    assert!(rt; read_sheet(&[0xC0, 0, 0, 0], &mut []).is_ok());
    Ok(())
}
