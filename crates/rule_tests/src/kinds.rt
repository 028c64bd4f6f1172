// Patterns, levels and length maps on worked examples.
use fields::kind::FieldKind;
use fields::numbers::PrefixLength;
use fields::prefix::Prefix;
use fields::prefixes::{Address, Port, Protocol};
use fields::refusal::Refusal;
use levels::maps::{length_map, level_by_map};
use levels::nesting::{level, nearest};
use std::test::Fail;

// The refusal's number, or none where the pattern was made.
fn refusal_of<P: Drop>(made: Result<P, Refusal>) -> Option<u8> {
    made.err().map(|e| e.number())
}

fn bits(bits: u8) -> PrefixLength {
    PrefixLength { bits }
}

// What each kind makes, and with which number it refuses.
#[test]
fn makes(rt: HostRuntime) {
    assert_eq!(rt; refusal_of(Address::make(bits(32), 0x0A00_0001)), None);
    assert_eq!(rt; refusal_of(Address::make(bits(33), 0x0A00_0001)), Some(2));
    assert_eq!(rt; refusal_of(Address::make(bits(8), 0x0A00_0001)), Some(3));
    assert_eq!(rt; refusal_of(Address::make(bits(0), 0)), None);
    assert_eq!(rt; refusal_of(Port::make(bits(16), 5004)), None);
    assert_eq!(rt; refusal_of(Port::make(bits(17), 5004)), Some(2));
    assert_eq!(rt; refusal_of(Port::make(bits(16), 65536)), Some(3));
    assert_eq!(rt; refusal_of(Port::make(bits(15), 1)), Some(3));
    assert_eq!(rt; refusal_of(Protocol::make(bits(8), 17)), None);
    assert_eq!(rt; refusal_of(Protocol::make(bits(7), 17)), Some(2));
    assert_eq!(rt; refusal_of(Protocol::make(bits(8), 256)), Some(3));
    assert_eq!(rt; refusal_of(Protocol::make(bits(0), 1)), Some(3));
}

#[test]
fn widths(rt: HostRuntime) {
    assert_eq!(rt; Address::WIDTH, Address::field_width());
    assert_eq!(rt; Port::WIDTH, Port::field_width());
    assert_eq!(rt; Protocol::WIDTH, Protocol::field_width());
}

#[test]
fn matching(rt: HostRuntime) -> Result<(), Fail> {
    let ten = Address::make(bits(8), 0x0A00_0000)?;
    assert!(rt; Address::matches(ten, 0x0A01_0203));
    assert!(rt; !Address::matches(ten, 0x0B01_0203));
    assert!(rt; Address::matches(Address::whole(), 0x0B01_0203));
    let inner = Address::make(bits(16), 0x0A01_0000)?;
    assert!(rt;
        Address::within(inner, ten) && !Address::within(ten, inner) && Address::within(ten, ten)
    );
    Ok(())
}

// The source patterns of the four-rule sheet: levels 1, 2, 2 and 0.
#[test]
fn nesting(rt: HostRuntime) -> Result<(), Fail> {
    let ten = Address::make(bits(8), 0x0A00_0000)?;
    let inner = Address::make(bits(16), 0x0A01_0000)?;
    let whole = Address::whole();
    let marked: [Prefix<32, 1>; 4] = [ten, inner, inner, whole];
    assert_eq!(rt; level::<Address>(&marked, ten).around, 1);
    assert_eq!(rt; level::<Address>(&marked, inner).around, 2);
    assert_eq!(rt; level::<Address>(&marked, whole).around, 0);
    assert_eq!(rt; level::<Address>(&[], ten).around, 1);
    assert!(rt; nearest::<Address>(&marked, inner) == Some(ten));
    assert!(rt; nearest::<Address>(&marked, ten) == Some(whole));
    assert!(rt; nearest::<Address>(&marked, whole).is_none());
    let map = length_map(&marked, 1).ok_or("no map")?;
    assert_eq!(rt; map.lengths, 0x1_0100);
    assert!(rt; length_map(&marked, 4).is_none());
    assert_eq!(rt; level_by_map(&marked, 2).ok_or("no level")?.around, 2);
    Ok(())
}
