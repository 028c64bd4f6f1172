// Both implementations of every support on the same calls, which are drawn from fixed seeds: all answers have to be the same.
#![tactic(auto)]

use crate::finder_calls::{Compared, Drawn};
use crate::screen_rounds::{Round, Screened, run_round};
use fields::kind::FieldKind;
use fields::prefixes::{Address, Port};
use finders::scan::Scan;
use keytables::buckets::Buckets;
use keytables::table::KeyTable;
use keytrees::keytree::KeyTree;
use screens::bloom::Bloom;
use screens::open::OpenScreen;
use screens::screen::Screen;
use std::io;
use tries::spelled::Spelled;
use tries::trie::Trie;

mod finder_calls;
mod keys;
mod random;
mod report;
mod screen_rounds;
mod table_calls;

// In the second sequence a table is asked so often that its tally stays at 65,535.
const TABLE_SEQUENCES: [table_calls::Sequence; 2] = [
    table_calls::Sequence {
        seed: 3,
        calls: 100_000,
        resets: true,
    },
    table_calls::Sequence {
        seed: 4,
        calls: 200_000,
        resets: false,
    },
];

// A scan and a trie with short patterns, of which there are fewer than a finder has room for, and with patterns of all lengths.
fn run_finders<K: Spelled>(rt: &HostRuntime, name: &str, seed: u64) -> io::Result<()>
where
    K::Value: Drawn,
{
    let mut scan = Scan::<K::Kind>::new(rt.alloc())?;
    let mut trie = Trie::<K>::new(rt.alloc())?;
    for longest in [6, K::Kind::field_width()] {
        let sequence = finder_calls::Sequence {
            seed,
            calls: 50_000,
            longest,
        };
        let Compared { report, held } = finder_calls::compare(&mut scan, &mut trie, sequence);
        println!(rt; "{name} of up to {longest} bits: {report}, {held} held")?;
    }
    Ok(())
}

fn run_tables(rt: &HostRuntime) -> io::Result<()> {
    let mut buckets = Buckets::new(rt.alloc())?;
    let mut tree = KeyTree::new(rt.alloc())?;
    for sequence in TABLE_SEQUENCES {
        let report = table_calls::compare(&mut buckets, &mut tree, sequence);
        let tally = buckets.asked();
        println!(rt; "keys: {report}, tally {tally}")?;
    }
    Ok(())
}

// A Bloom filter with four of its 32,768 bits for each of 2,048 keys says yes to about 0.24 % of the others, and after 256 keys to hardly
// any.
fn run_screen<S: Screen + Drop>(rt: &HostRuntime, name: &str, mut screen: S) -> io::Result<()> {
    for (keys, labels) in [(2048, 257), (2048, 8), (256, 257)] {
        let Screened { added, others } = run_round(&mut screen, Round::new(keys, labels));
        println!(rt; "{name}, keys of {labels} labels: {added} added, {others} others")?;
    }
    Ok(())
}

fn run_screens(rt: &HostRuntime) -> io::Result<()> {
    let bloom = Bloom::new(rt.alloc())?;
    run_screen(rt, "Bloom filter", bloom)?;
    run_screen(rt, "open screen", OpenScreen)
}

fn main(rt: HostRuntime) -> io::Result<()> {
    run_finders::<Address>(&rt, "addresses", 1)?;
    run_finders::<Port>(&rt, "ports", 2)?;
    run_tables(&rt)?;
    run_screens(&rt)
}
