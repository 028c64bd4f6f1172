// One thing for each of the five fields.
ghost use Rattle.std.specs.Prelude.{◌≡◌, ℕ};
ghost use Rattle.fields.specs.Places.{index, at as at_place, listed, put};

use crate::numbers::Label;
use crate::place::Place;
use crate::sides::Sides;

#[derive(Clone, Copy, PartialEq, Eq, Debug)]
pub struct PerField<T> {
    pub addresses: Sides<T>,
    pub ports: Sides<T>,
    pub protocol: T,
}

// One label for each field.
pub type Labels = PerField<Label>;

impl<T: Copy> PerField<T> {
    // What stands at the five places, in their order.
    pub fn in_order(self) -> [T; 5]
        ensures { result ≡ listed self }
    {
        [
            self.addresses.source,
            self.addresses.destination,
            self.ports.source,
            self.ports.destination,
            self.protocol,
        ]
    }

    // The same places with what a function makes of each.
    pub fn map<U: Copy, F: Fn(T) -> U>(self, f: F) -> PerField<U>
        requires { F.IsAlwaysCallable f }
        ensures { (i : ℕ) → F.post f (at_place self i) (at_place result i) }
    {
        PerField {
            addresses: Sides {
                source: f(self.addresses.source),
                destination: f(self.addresses.destination),
            },
            ports: Sides {
                source: f(self.ports.source),
                destination: f(self.ports.destination),
            },
            protocol: f(self.protocol),
        }
    }

    // What stands at a place.
    pub fn at(self, place: Place) -> T
        ensures { result ≡ at_place self (index place) }
    {
        match place {
            Place::SourceAddress => self.addresses.source,
            Place::DestinationAddress => self.addresses.destination,
            Place::SourcePort => self.ports.source,
            Place::DestinationPort => self.ports.destination,
            Place::Protocol => self.protocol,
        }
    }

    // The same with something else at a place.
    pub fn with(self, place: Place, x: T) -> PerField<T>
        ensures { result ≡ put self (index place) x }
    {
        let PerField {
            mut addresses,
            mut ports,
            mut protocol,
        } = self;
        match place {
            Place::SourceAddress => addresses.source = x,
            Place::DestinationAddress => addresses.destination = x,
            Place::SourcePort => ports.source = x,
            Place::DestinationPort => ports.destination = x,
            Place::Protocol => protocol = x,
        }
        PerField {
            addresses,
            ports,
            protocol,
        }
    }
}
