// Header values as numbers. Not by `Into<u32>`: its ghost member relates a value and a number, and what a pattern means needs a function, and a
// value for each number.
ghost use Rattle.std.specs.Prelude.{◌≡◌, refl};
ghost use Rattle.fields.specs.Numbering.{Numbering, itself};

pub trait Bits {
    ghost numbering: { Numbering Self };

    fn to_number(self) -> u32
        ensures { result ≡ numbering.number self };
}

impl Bits for u32 {
    ghost numbering = { itself };

    fn to_number(self) -> u32 {
        self
    }
}

impl Bits for u16 {
    ghost numbering = { itself };

    fn to_number(self) -> u32 {
        u32::from(self)
    }
}

impl Bits for u8 {
    ghost numbering = { itself };

    fn to_number(self) -> u32 {
        u32::from(self)
    }
}
