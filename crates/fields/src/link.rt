// Items of a list that name one another by their places.
ghost use Rattle.std.specs.Prelude.{◌≡◌, ◌<◌, Some};

use std::marker::Model;

// The place of an item, or none. It takes the two bytes of a number, where an `Option` of one takes four.
#[derive(Clone, Copy, Default, Debug)]
pub struct Link {
    number: u16,
}

// To no item.
pub const NOWHERE: Link = Link { number: 0 };

impl Model for Link {
    ghost use Rattle.std.specs.Prelude.{ℕ, Option};
    ghost use Rattle.std.proofs.Common.{ap};
    ghost use Rattle.fields.specs.Links.{place_of, number_of, number_back};

    ghost Value = { Option ℕ };

    ghost view = { λ l. place_of l.number };

    ghost inverse = { λ o. record { number = number_of o } };

    ghost inverse_ok = { λ l h. ap (λ n. record { number = n }) (number_back l.number) };
}

impl Link {
    // To a place below 65,535.
    pub fn to(place: u16) -> Link
        ensures { place < 65535 → result ≡ Some place }
    {
        Link {
            number: place.wrapping_add(1),
        }
    }

    pub fn place(self) -> Option<u16>
        ensures { result ≡ self }
    {
        self.number.checked_sub(1)
    }
}
