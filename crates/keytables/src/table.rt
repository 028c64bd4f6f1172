// What every key table does.
ghost use Rattle.std.specs.Prelude.{◌≡◌, ℕ, ◌+◌, ◌≤◌, min, is_ok, None, Option};
ghost use Rattle.keytables.specs.Keys.{stores, put_at, put_count};
ghost use Rattle.keytables.specs.declared.key.Key.{Key};

use crate::key::Key;

// The key is new, and there is no room for it.
#[derive(Clone, Copy, PartialEq, Eq, Debug)]
pub struct Full;

pub trait KeyTable {
    // The table was cleared, and owes its meaning.
    // It stays in the clauses: an implementation may leave it open until `clear`, so that a new one may hold anything. All that are here hold it from the start.
    ghost ready: { Self → Type 0 };

    // What is stored under each key.
    ghost map: { Self → Key → Option ℕ };

    // How many keys there are, and how many there can be.
    ghost count: { Self → ℕ };

    ghost room: { Self → ℕ };

    // How often the table was asked since the start; it stays at 65,535 once there.
    ghost tally: { Self → ℕ };

    fn clear(&mut self)
        ensures ready { ready self.new }
        ensures map { (q : Key) → map self.new q ≡ None }
        ensures count { count self.new ≡ 0 }
        ensures room { 2048 ≤ room self.new }
        ensures tally { tally self.new ≡ tally self.old };

    // Stores an entry under a key, in place of what is there; refused where the key is new and there is no room.
    fn put(&mut self, key: Key, entry: u16) -> Result<(), Full>
        requires { ready self.old }
        ensures ready { ready self.new }
        ensures answer { is_ok result ≡ stores (map self.old key) (count self.old) (room self.old) }
        ensures map { (q : Key) → map self.new q ≡ put_at (stores (map self.old key) (count self.old) (room self.old)) (map self.old) key entry q }
        ensures count { count self.new ≡ put_count (map self.old key) (count self.old) (room self.old) }
        ensures room { room self.new ≡ room self.old }
        ensures tally { tally self.new ≡ tally self.old };

    // What is stored under a key; the tally goes up by one.
    fn find(&mut self, key: Key) -> Option<u16>
        requires { ready self.old }
        ensures ready { ready self.new }
        ensures answer { result ≡ map self.old key }
        ensures map { (q : Key) → map self.new q ≡ map self.old q }
        ensures count { count self.new ≡ count self.old }
        ensures room { room self.new ≡ room self.old }
        ensures tally { tally self.new ≡ min (tally self.old + 1) 65535 };

    // Sets the tally to 0.
    fn start(&mut self)
        requires { ready self.old }
        ensures ready { ready self.new }
        ensures map { (q : Key) → map self.new q ≡ map self.old q }
        ensures count { count self.new ≡ count self.old }
        ensures room { room self.new ≡ room self.old }
        ensures tally { tally self.new ≡ 0 };

    // How often the table was asked since the start.
    fn asked(&self) -> u16
        requires { ready self.now }
        ensures { result ≡ tally self.now };
}
