// Five spots, one for each place, each with a kind of its own.
ghost use Rattle.std.specs.Prelude.{◌≡◌, ℕ, List};
ghost use Rattle.places.specs.Kinds.{kind_at};
ghost use Rattle.places.specs.Each.{each};

use crate::front::Front;
use crate::located::{Labels, Located};
use crate::spot::Spot;
use fields::checked::first_of;
use fields::numbers::Label;
use fields::perfield::PerField;
use fields::place::Place;
use fields::refusal::Refusal;
use fields::sides::Sides;
use sheets::row::RuleRow;

pub trait Supports {
    type Header;

    type Source: Spot<Header = Self::Header> + Drop;

    type Destination: Spot<Header = Self::Header> + Drop;

    type SourcePort: Spot<Header = Self::Header> + Drop;

    type DestinationPort: Spot<Header = Self::Header> + Drop;

    type Protocol: Spot<Header = Self::Header> + Drop;
}

#[derive(Drop)]
pub struct Five<S: Supports> {
    pub source: S::Source,
    pub destination: S::Destination,
    pub sport: S::SourcePort,
    pub dport: S::DestinationPort,
    pub protocol: S::Protocol,
}

impl<S: Supports> Front for Five<S> {
    type Header = S::Header;

    ghost kind = { kind_at S.Source.Spot.kind S.Destination.Spot.kind S.SourcePort.Spot.kind S.DestinationPort.Spot.kind S.Protocol.Spot.kind };

    ghost value = { λ h. each (λ i. (kind_at S.Source.Spot.kind S.Destination.Spot.kind S.SourcePort.Spot.kind S.DestinationPort.Spot.kind S.Protocol.Spot.kind i).Value) (S.Source.Spot.value h) (S.Destination.Spot.value h) (S.SourcePort.Spot.value h) (S.DestinationPort.Spot.value h) (λ _. S.Protocol.Spot.value h) };

    ghost ready = { λ s. S.Source.Spot.ready s.source × S.Destination.Spot.ready s.destination × S.SourcePort.Spot.ready s.sport × S.DestinationPort.Spot.ready s.dport × S.Protocol.Spot.ready s.protocol };

    ghost held = { λ s. each (λ i. List (kind_at S.Source.Spot.kind S.Destination.Spot.kind S.SourcePort.Spot.kind S.DestinationPort.Spot.kind S.Protocol.Spot.kind i).Pattern) (S.Source.Spot.held s.source) (S.Destination.Spot.held s.destination) (S.SourcePort.Spot.held s.sport) (S.DestinationPort.Spot.held s.dport) (λ _. S.Protocol.Spot.held s.protocol) };

    ghost room = { λ s. each (λ _. ℕ) (S.Source.Spot.room s.source) (S.Destination.Spot.room s.destination) (S.SourcePort.Spot.room s.sport) (S.DestinationPort.Spot.room s.dport) (λ _. S.Protocol.Spot.room s.protocol) };

    fn check(row: RuleRow) -> Result<(), Refusal> {
        first_of(PerField {
            addresses: Sides {
                source: S::Source::check(row.addresses.source),
                destination: S::Destination::check(row.addresses.destination),
            },
            ports: Sides {
                source: S::SourcePort::check(row.ports.source),
                destination: S::DestinationPort::check(row.ports.destination),
            },
            protocol: S::Protocol::check(row.protocol),
        })
    }

    fn matches(row: RuleRow, header: &S::Header) -> bool {
        S::Source::matches(row.addresses.source, header)
            && S::Destination::matches(row.addresses.destination, header)
            && S::SourcePort::matches(row.ports.source, header)
            && S::DestinationPort::matches(row.ports.destination, header)
            && S::Protocol::matches(row.protocol, header)
    }

    fn start(&mut self) {
        self.source.start();
        self.destination.start();
        self.sport.start();
        self.dport.start();
        self.protocol.start();
    }

    fn label(&mut self, row: RuleRow) -> Labels {
        PerField {
            addresses: Sides {
                source: self.source.take(row.addresses.source),
                destination: self.destination.take(row.addresses.destination),
            },
            ports: Sides {
                source: self.sport.take(row.ports.source),
                destination: self.dport.take(row.ports.destination),
            },
            protocol: self.protocol.take(row.protocol),
        }
    }

    fn locate(&self, header: &S::Header) -> Located {
        PerField {
            addresses: Sides {
                source: self.source.best(header),
                destination: self.destination.best(header),
            },
            ports: Sides {
                source: self.sport.best(header),
                destination: self.dport.best(header),
            },
            protocol: self.protocol.best(header),
        }
    }

    fn parent(&self, place: Place, label: Label) -> Option<Label> {
        match place {
            Place::SourceAddress => self.source.parent(label),
            Place::DestinationAddress => self.destination.parent(label),
            Place::SourcePort => self.sport.parent(label),
            Place::DestinationPort => self.dport.parent(label),
            Place::Protocol => self.protocol.parent(label),
        }
    }
}

impl<S: Supports> Five<S> {
    pub fn new(
        source: S::Source,
        destination: S::Destination,
        sport: S::SourcePort,
        dport: S::DestinationPort,
        protocol: S::Protocol,
    ) -> Five<S>
        ensures source { result.source ≡ source }
        ensures destination { result.destination ≡ destination }
        ensures sport { result.sport ≡ sport }
        ensures dport { result.dport ≡ dport }
        ensures protocol { result.protocol ≡ protocol }
    {
        Five {
            source,
            destination,
            sport,
            dport,
            protocol,
        }
    }
}
