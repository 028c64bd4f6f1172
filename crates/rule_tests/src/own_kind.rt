// A kind of this crate's own, whose constant is not its width: who takes a kind asks for its laws alone.
ghost use Rattle.fields.specs.Numbering.{itself};
ghost use Rattle.fields.specs.PrefixLaws.{prefix_nest};

use fields::kind::FieldKind;
use fields::numbers::PrefixLength;
use fields::prefix::Prefix;
use fields::prefixes::Protocol;
use fields::refusal::Refusal;
use levels::nesting::level;
use std::test::Fail;

struct Own;

impl FieldKind for Own {
    type Pattern = Prefix<8, 8>;

    type Value = u8;

    const WIDTH: u8 = 0;

    ghost WIDTH = { 0 };

    ghost nest = { prefix_nest 8 8 itself };

    fn field_width() -> u8 {
        Protocol::field_width()
    }

    fn make(length: PrefixLength, number: u32) -> Result<Prefix<8, 8>, Refusal> {
        Protocol::make(length, number)
    }

    fn length(p: Prefix<8, 8>) -> PrefixLength {
        Protocol::length(p)
    }

    fn number(p: Prefix<8, 8>) -> u32 {
        Protocol::number(p)
    }

    fn whole() -> Prefix<8, 8> {
        Protocol::whole()
    }

    fn matches(p: Prefix<8, 8>, v: u8) -> bool {
        Protocol::matches(p, v)
    }

    fn within(a: Prefix<8, 8>, b: Prefix<8, 8>) -> bool {
        Protocol::within(a, b)
    }
}

#[test]
fn levels(rt: HostRuntime) -> Result<(), Fail> {
    let seventeen = Own::make(PrefixLength { bits: 8 }, 17)?;
    assert_eq!(rt; level::<Own>(&[seventeen], seventeen).around, 1);
    assert_eq!(rt; level::<Own>(&[seventeen], Own::whole()).around, 0);
    Ok(())
}
