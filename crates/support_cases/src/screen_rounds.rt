// What screens say to keys that were added, and to others.
use crate::keys::KeySpace;
use crate::random::Xorshift;
use screens::screen::Screen;
use std::fmt;

// Keys that are drawn from a seed; a seed draws the same keys each time, and seldom one key twice.
#[derive(Clone, Copy)]
struct Keys {
    seed: u64,
    space: KeySpace,
    count: u32,
}

// The keys that are added to a screen, and others, which have other subsets.
#[derive(Clone, Copy)]
pub struct Round {
    added: Keys,
    others: Keys,
}

impl Round {
    // A round that adds so many keys, with so many labels in each field.
    pub fn new(keys: u32, labels: u16) -> Round {
        Round {
            added: Keys {
                seed: 5,
                space: KeySpace {
                    first: 0,
                    subsets: 16,
                    labels,
                    step: 1,
                },
                count: keys,
            },
            others: Keys {
                seed: 6,
                space: KeySpace {
                    first: 16,
                    subsets: 16,
                    labels,
                    step: 1,
                },
                count: 100_000,
            },
        }
    }
}

// How many keys a screen was asked for, and how many of them it said yes to.
#[derive(Clone, Copy)]
pub struct Asked {
    keys: u32,
    yes: u32,
}

impl fmt::Display for Asked {
    fn fmt<W: fmt::Write>(&self, f: &mut fmt::Formatter<W>) -> fmt::Result {
        let yes = self.yes;
        let keys = self.keys;
        write!(f, "yes to {yes} of {keys}")
    }
}

// What a screen says in a round.
#[derive(Clone, Copy)]
pub struct Screened {
    pub added: Asked,
    pub others: Asked,
}

// Clears a screen, and adds keys.
fn add_keys<S: Screen>(screen: &mut S, keys: Keys)
    ensures { S.Screen.ready screen.new }
{
    let mut random = Xorshift::new(keys.seed);
    screen.clear();
    for _ in 0..keys.count {
        screen.add(keys.space.draw(&mut random));
    }
}

fn ask_keys<S: Screen>(screen: &S, keys: Keys) -> Asked
    requires { S.Screen.ready screen.now }
{
    let mut random = Xorshift::new(keys.seed);
    let mut yes = 0u32;
    for _ in 0..keys.count {
        if screen.ask(keys.space.draw(&mut random)) {
            yes = yes.saturating_add(1);
        }
    }
    Asked {
        keys: keys.count,
        yes,
    }
}

pub fn run_round<S: Screen>(screen: &mut S, round: Round) -> Screened {
    add_keys(screen, round.added);
    Screened {
        added: ask_keys(screen, round.added),
        others: ask_keys(screen, round.others),
    }
}
