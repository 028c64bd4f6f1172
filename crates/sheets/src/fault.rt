// What is wrong with a sheet, and where.
ghost use Rattle.std.specs.Prelude.{◌≡◌};
ghost use Rattle.sheets.specs.Faults.{fault_at};

use fields::refusal::Refusal;

// The part of the format that a fault breaks.
#[derive(Clone, Copy, PartialEq, Eq, Debug)]
pub enum Layer {
    Word,
    Rule,
    Sheet,
}

#[derive(Clone, Copy, PartialEq, Eq, Debug)]
pub struct Fault {
    pub refusal: Refusal,
    // The word's place, from 0.
    pub place: usize,
    pub layer: Layer,
}

impl Fault {
    pub fn at(refusal: Refusal, place: usize) -> Fault
        ensures { result ≡ fault_at refusal place }
    {
        let layer = match refusal {
            Refusal::Length | Refusal::BitBeyond | Refusal::WordKind | Refusal::WordBits =>
                Layer::Word,
            Refusal::RuleNumber | Refusal::RuleOrder => Layer::Rule,
            _ => Layer::Sheet,
        };
        Fault {
            refusal,
            place,
            layer,
        }
    }
}

// A call that has no place to name refuses as the fault does.
impl From<Fault> for Refusal {
    ghost from_gives = { λ f e. e ≡ f.refusal };

    fn from(fault: Fault) -> Refusal {
        fault.refusal
    }
}
