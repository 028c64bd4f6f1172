// `ask` in a screen.
use crate::rows::KeyRow;
use keytables::key::Key;
use screens::screen::Screen;
use std::alloc::AllocError;

// Adds the keys of the rows to an empty screen.
fn fill<S: Screen>(screen: &mut S, rows: &[KeyRow])
    ensures { S.Screen.ready screen.new }
{
    screen.clear();
    for row in rows {
        screen.add(Key::from(*row));
    }
}

// A count with the times that the screen says yes.
fn ask<S: Screen>(screen: &S, questions: &[KeyRow], mut count: u64) -> u64
    requires { S.Screen.ready screen.now }
{
    for row in questions {
        count = count.wrapping_add(u64::from(screen.ask(Key::from(*row))));
    }
    count
}

// How often the screen said yes in all rounds; 0 where memory was wanting.
// A text of its own, as in `finding`.
pub(crate) fn yes_count<S: Screen + Drop>(
    made: Result<S, AllocError>,
    rows: &[KeyRow],
    questions: &[KeyRow],
    rounds: u32,
) -> u64 {
    let Ok(mut screen) = made else {
        return 0;
    };
    fill(&mut screen, rows);
    let mut count = 0;
    for _ in 0..rounds {
        count = ask(&screen, questions, count);
    }
    count
}
