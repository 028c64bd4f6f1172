// What every screen does.
ghost use Rattle.std.specs.Prelude.{◌≡◌, Bool, true};
ghost use Rattle.keytables.specs.declared.key.Key.{Key};

use keytables::key::Key;

pub trait Screen {
    // The screen was cleared, and owes its meaning.
    // It stays in the clauses: an implementation may leave it open until `clear`, so that a new one may hold anything. All that are here hold it from the start.
    ghost ready: { Self → Type 0 };

    // The keys to which it says yes.
    ghost says: { Self → Key → Bool };

    // Which keys the screen says yes to is then free.
    fn clear(&mut self)
        ensures ready { ready self.new };

    fn add(&mut self, key: Key)
        requires { ready self.old }
        ensures ready { ready self.new }
        ensures added { says self.new key ≡ true }
        ensures kept { (q : Key) → says self.old q ≡ true → says self.new q ≡ true };

    fn ask(&self, key: Key) -> bool
        requires { ready self.now }
        ensures { result ≡ says self.now key };
}
