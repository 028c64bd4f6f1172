// The five fields of a rule and of a header, in their order.
ghost use Rattle.std.specs.Prelude.{◌≡◌, ◌+◌};
ghost use Rattle.fields.specs.Places.{index, depth};

#[derive(Clone, Copy, PartialEq, Eq, Debug)]
pub enum Place {
    SourceAddress,
    DestinationAddress,
    SourcePort,
    DestinationPort,
    Protocol,
}

impl Place {
    // The place as a number, from 0.
    pub fn index(self) -> usize
        ensures { result ≡ index self }
    {
        self as usize
    }

    // The place after this one.
    pub fn next(self) -> Option<Place>
        ensures { depth result ≡ index self + 1 }
    {
        match self {
            Place::SourceAddress => Some(Place::DestinationAddress),
            Place::DestinationAddress => Some(Place::SourcePort),
            Place::SourcePort => Some(Place::DestinationPort),
            Place::DestinationPort => Some(Place::Protocol),
            Place::Protocol => None,
        }
    }
}
