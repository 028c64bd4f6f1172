// Tuples counted, and heads chosen.
ghost use Rattle.std.specs.Prelude.{◌≡◌, ℕ, ◌+◌, ◌<◌, ◌≤◌, List, [], ◌∷◌, ◌++◌, map, length, vec_len, vec_capacity};
ghost use Rattle.heads.specs.Counts.{levels_of, Counts, heads_in};
ghost use Rattle.heads.specs.Picked.{Picked};

use crate::counted::Counted;
use crate::tuple::Tuple;

// One rule more, with this tuple.
pub fn count_tuple(counted: &mut Vec<Counted>, tuple: Tuple)
    requires room { vec_len counted.old < vec_capacity counted.old }
    requires few { vec_len counted.old ≤ 256 }
    ensures counts { (ts : List (List ℕ)) → length ts < 256 → Counts ts counted.old.items → Counts (ts ++ (levels_of tuple ∷ [])) counted.new.items }
    ensures longer { vec_len counted.new ≤ vec_len counted.old + 1 }
    ensures capacity { vec_capacity counted.new ≡ vec_capacity counted.old }
{
    match counted.iter().position(|c| c.tuple == tuple) {
        Some(i) => counted[i].rules = counted[i].rules.saturating_add(1),
        None => counted.push_reserved(Counted { tuple, rules: 1 }),
    }
}

// The place of the tuple that most rules have, of several the first. As `nearest`, but for what is compared: one function for both would take a
// closure, whose clauses are longer than the loop.
fn most(counted: &[Counted]) -> usize
    requires { 0 < length counted.now }
    ensures { Picked (λ c. c.rules) counted.now result }
{
    // By index, as the library's own page on it has it: `max_by_key` keeps the last of several, and `min_by_key` tells only turn by turn that
    // it keeps the first.
    let mut best = 0;
    for i in 1..counted.len() {
        if counted[i].rules > counted[best].rules {
            best = i;
        }
    }
    best
}

// Takes heads out of the tuples, one after another, until there are g or no tuple is left.
pub fn choose_heads(counted: &mut Vec<Counted>, g: usize, heads: &mut Vec<Tuple>)
    requires { g ≤ vec_capacity heads.old }
    ensures chosen { (ts : List (List ℕ)) → Counts ts counted.old.items → map levels_of heads.new.items ≡ heads_in ts g }
    ensures few { vec_len heads.new ≤ g }
    ensures capacity { vec_capacity heads.new ≡ vec_capacity heads.old }
    ensures counted_capacity { vec_capacity counted.new ≡ vec_capacity counted.old }
{
    heads.clear();
    for _ in 0..g {
        if counted.is_empty() {
            return;
        }
        let head = counted.remove(most(counted.as_slice()));
        heads.push_reserved(head.tuple);
    }
}
