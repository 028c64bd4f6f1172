// The screen that stops nothing.
ghost use Rattle.std.specs.Prelude.{true};

use crate::screen::Screen;
use keytables::key::Key;

// Says yes to every key.
#[derive(Clone, Copy)]
pub struct OpenScreen;

impl Screen for OpenScreen {
    ghost ready = { λ _. Unit {0} };

    ghost says = { λ _ _. true };

    fn clear(&mut self) {}

    fn add(&mut self, _key: Key) {}

    fn ask(&self, _key: Key) -> bool {
        true
    }
}
