// A key table whose rows hang in buckets, the newest of a bucket first.
ghost use Rattle.std.specs.Prelude.{◌≡◌, ◌+◌, ◌<◌, ◌≤◌, true, length, IfSome, IfOk, None, vec_len, vec_capacity};
ghost use Rattle.keytables.specs.Keys.{put_at};
ghost use Rattle.keytables.specs.Rows.{mixed, bucket, row_of, stored, Sound};
ghost use Rattle.keytables.specs.declared.key.Key.{Key};

use crate::key::Key;
use crate::table::{Full, KeyTable};
use crate::tally::Tally;
use fields::link::{Link, NOWHERE};
use std::alloc::{AllocError, Global};

const ROWS: usize = 2048;

const BUCKETS: usize = 4096;

// An odd number whose multiples spread well over the high bits.
const SPREAD: u64 = 0x9E37_79B9_7F4A_7C15;

// The link is the place of the next older row of the bucket.
#[derive(Clone, Copy)]
struct Row {
    key: Key,
    entry: u16,
    link: Link,
}

// Rows are named by their places, and all lie in one vector, since no call but `new` allocates. A head is the place of a bucket's newest row.
#[derive(Drop)]
pub struct Buckets {
    heads: Vec<Link>,
    rows: Vec<Row>,
    tally: Tally,
    ghost wide: { vec_len heads ≡ 4096 },
    ghost reserved: { 2048 ≤ vec_capacity rows },
    pub ghost sound: { Sound heads.items rows.items },
}

// One more number mixed into a hash.
#[tactic(auto, unfolding(crate::specs::Rows::mixed))]
fn mix(hash: u64, number: u16) -> u64
    ensures { result ≡ mixed hash number }
{
    hash.wrapping_add(u64::from(number)).wrapping_mul(SPREAD)
}

// The highest 12 bits of the hash of all numbers of the key.
#[tactic(auto, unfolding(crate::specs::Rows::bucket))]
fn bucket_of(key: Key) -> usize
    ensures value { result ≡ bucket key }
    ensures below { result < 4096 }
{
    let hash = key
        .numbers()
        .iter()
        .fold(0, |hash, number| mix(hash, *number));
    (hash >> 52) as usize
}

impl Buckets {
    // An empty table; it takes all memory that it ever uses.
    pub fn new(heap: Global) -> Result<Self, AllocError>
        ensures { IfOk result (λ t. ((q : Key) → stored t.rows.items q ≡ None) × (length t.rows.items ≡ 0) × (t.tally.asked ≡ 0)) }
    {
        let heads = vec![in heap; NOWHERE; BUCKETS]?;
        let rows = Vec::with_capacity(heap, ROWS)?;
        Ok(Buckets {
            heads,
            rows,
            tally: Tally { asked: 0 },
        })
    }

    // The row of a key.
    fn row(&self, key: Key) -> Option<usize>
        ensures row { result ≡ row_of self.now.rows.items key }
        ensures within { IfSome result (λ i. i < length self.now.rows.items) }
    {
        let mut link = self.heads[bucket_of(key)].place();
        while let Some(place) = link {
            let i = usize::from(place);
            let row = &self.rows[i];
            if row.key == key {
                return Some(i);
            }
            link = row.link.place();
        }
        None
    }

    // Hangs a new row into the bucket of its key.
    #[tactic(auto, using(crate::proofs::Rows::stored_push))]
    fn hang(&mut self, key: Key, entry: u16)
        requires { length self.old.rows.items < 2048 }
        ensures map { (q : Key) → stored self.new.rows.items q ≡ put_at true (stored self.old.rows.items) key entry q }
        ensures count { length self.new.rows.items ≡ length self.old.rows.items + 1 }
        ensures tally { self.new.tally ≡ self.old.tally }
    {
        let bucket = bucket_of(key);
        let link = self.heads[bucket];
        self.heads[bucket] = Link::to(self.rows.len() as u16);
        self.rows.push_reserved(Row { key, entry, link });
    }
}

impl KeyTable for Buckets {
    ghost ready = { λ _. Unit {0} };

    ghost map = { λ t. stored t.rows.items };

    ghost count = { λ t. length t.rows.items };

    ghost room = { λ _. 2048 };

    ghost tally = { λ t. t.tally.asked };

    fn clear(&mut self) {
        self.rows.clear();
        self.heads.fill(NOWHERE);
    }

    #[tactic(auto, using(crate::proofs::Rows::stored_set), unfolding(crate::specs::Rows::stored))]
    fn put(&mut self, key: Key, entry: u16) -> Result<(), Full> {
        if let Some(i) = self.row(key) {
            self.rows[i].entry = entry;
            return Ok(());
        }
        if self.rows.len() >= ROWS {
            return Err(Full);
        }
        self.hang(key, entry);
        Ok(())
    }

    #[tactic(auto, unfolding(crate::specs::Rows::stored))]
    fn find(&mut self, key: Key) -> Option<u16> {
        self.tally.add();
        self.row(key).map(|i| self.rows[i].entry)
    }

    fn start(&mut self) {
        self.tally.asked = 0;
    }

    fn asked(&self) -> u16 {
        self.tally.asked
    }
}
