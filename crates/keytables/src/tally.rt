// How often a table was asked.
ghost use Rattle.std.specs.Prelude.{◌≡◌, ◌+◌, min};

// It stays at 65,535 once there.
#[derive(Clone, Copy)]
pub struct Tally {
    pub asked: u16,
}

impl Tally {
    pub fn add(&mut self)
        ensures { self.new.asked ≡ min (self.old.asked + 1) 65535 }
    {
        self.asked = self.asked.saturating_add(1);
    }
}
