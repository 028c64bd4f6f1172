// `find` in a key table.
use crate::checksum::with_answer;
use crate::rows::KeyRow;
use keytables::key::Key;
use keytables::table::KeyTable;
use std::alloc::AllocError;

// Stores the place of each row under its key; of a place the lowest 16 bits.
fn fill<T: KeyTable>(table: &mut T, rows: &[KeyRow])
    ensures { T.KeyTable.ready table.new }
{
    table.clear();
    for (place, row) in rows.iter().enumerate() {
        let _ = table.put(Key::from(*row), (place & 0xffff) as u16);
    }
}

// A checksum with the answers for all keys.
fn ask<T: KeyTable>(table: &mut T, questions: &[KeyRow], mut sum: u64) -> u64
    requires { T.KeyTable.ready table.old }
    ensures { T.KeyTable.ready table.new }
{
    for row in questions {
        sum = with_answer(sum, table.find(Key::from(*row)));
    }
    sum
}

// The checksum of all rounds, or 0 where memory was wanting.
// A text of its own, as in `finding`.
pub(crate) fn find_sum<T: KeyTable + Drop>(
    made: Result<T, AllocError>,
    rows: &[KeyRow],
    questions: &[KeyRow],
    rounds: u32,
) -> u64 {
    let Ok(mut table) = made else {
        return 0;
    };
    fill(&mut table, rows);
    let mut sum = 0;
    for _ in 0..rounds {
        sum = ask(&mut table, questions, sum);
    }
    sum
}
