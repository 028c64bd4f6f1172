// What a key table is asked for.
ghost use Rattle.std.specs.Prelude.{◌≡◌};
ghost use Rattle.keytables.specs.Keys.{numbers_of};

pub use fields::perfield::Labels;

#[derive(Clone, Copy, PartialEq, Eq, Debug)]
pub struct Key {
    pub subset: u8,
    pub labels: Labels,
}

impl Key {
    // The subset, and the place of the label in each field.
    #[tactic(auto, unfolding(crate::specs::Keys::numbers_of))]
    pub fn numbers(self) -> [u16; 6]
        ensures { result ≡ numbers_of self }
    {
        let labels = self.labels;
        [
            u16::from(self.subset),
            labels.addresses.source.place,
            labels.addresses.destination.place,
            labels.ports.source.place,
            labels.ports.destination.place,
            labels.protocol.place,
        ]
    }
}
