// Keys that are drawn.
use crate::random::Xorshift;
use fields::numbers::Label;
use fields::perfield::PerField;
use fields::sides::Sides;
use keytables::key::Key;

// What keys are drawn from: the subsets from a first one on, and for each field the labels from 0 on in steps.
#[derive(Clone, Copy)]
pub struct KeySpace {
    pub first: u8,
    pub subsets: u8,
    pub labels: u16,
    pub step: u16,
}

impl KeySpace {
    fn draw_label(self, random: &mut Xorshift) -> Label {
        Label {
            place: random.below(self.labels).wrapping_mul(self.step),
        }
    }

    fn draw_sides(self, random: &mut Xorshift) -> Sides<Label> {
        Sides {
            source: self.draw_label(random),
            destination: self.draw_label(random),
        }
    }

    pub fn draw(self, random: &mut Xorshift) -> Key {
        Key {
            subset: self
                .first
                .wrapping_add(random.below(u16::from(self.subsets)) as u8),
            labels: PerField {
                addresses: self.draw_sides(random),
                ports: self.draw_sides(random),
                protocol: self.draw_label(random),
            },
        }
    }
}
