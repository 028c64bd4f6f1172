// The functions that C calls, one for each support. A `Global` takes no bytes, so C passes nothing for it.
use crate::finding::best_sum;
use crate::lookup::find_sum;
use crate::rows::{KeyRow, PrefixRow};
use crate::screening::yes_count;
use fields::prefixes::{Address, Port};
use finders::scan::Scan;
use keytables::buckets::Buckets;
use keytrees::keytree::KeyTree;
use screens::bloom::Bloom;
use std::alloc::Global;
use tries::trie::Trie;

#[unsafe(no_mangle)]
pub extern "C" fn bench_address_trie(
    heap: Global,
    rows: &[PrefixRow],
    values: &[u32],
    rounds: u32,
) -> u64 {
    best_sum(Trie::<Address>::new(heap), rows, values, rounds)
}

#[unsafe(no_mangle)]
pub extern "C" fn bench_address_scan(
    heap: Global,
    rows: &[PrefixRow],
    values: &[u32],
    rounds: u32,
) -> u64 {
    best_sum(Scan::<Address>::new(heap), rows, values, rounds)
}

#[unsafe(no_mangle)]
pub extern "C" fn bench_port_trie(
    heap: Global,
    rows: &[PrefixRow],
    values: &[u16],
    rounds: u32,
) -> u64 {
    best_sum(Trie::<Port>::new(heap), rows, values, rounds)
}

#[unsafe(no_mangle)]
pub extern "C" fn bench_port_scan(
    heap: Global,
    rows: &[PrefixRow],
    values: &[u16],
    rounds: u32,
) -> u64 {
    best_sum(Scan::<Port>::new(heap), rows, values, rounds)
}

#[unsafe(no_mangle)]
pub extern "C" fn bench_hash_table(
    heap: Global,
    rows: &[KeyRow],
    questions: &[KeyRow],
    rounds: u32,
) -> u64 {
    find_sum(Buckets::new(heap), rows, questions, rounds)
}

#[unsafe(no_mangle)]
pub extern "C" fn bench_key_tree(
    heap: Global,
    rows: &[KeyRow],
    questions: &[KeyRow],
    rounds: u32,
) -> u64 {
    find_sum(KeyTree::new(heap), rows, questions, rounds)
}

#[unsafe(no_mangle)]
pub extern "C" fn bench_bloom_filter(
    heap: Global,
    rows: &[KeyRow],
    questions: &[KeyRow],
    rounds: u32,
) -> u64 {
    yes_count(Bloom::new(heap), rows, questions, rounds)
}
