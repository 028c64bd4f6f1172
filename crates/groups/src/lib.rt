// The grouping of rules: its definitions, and what holds of them.
#![tactic(auto)]

ghost use Rattle.groups.specs.ByNumber.{IsByNumber};
ghost use Rattle.groups.specs.Theorems.{LevelsTell, OneTuple, EnoughSubsets, KeyTells, TotalCounts, PlaceByPlace, Carries, OfFive};

// A pattern within a marked one of its own level is the same.
pub fn levels_tell<A, B, C, D, E>()
    ensures { LevelsTell (OfFive A B C D E) }
{}

// Rules of one tuple have no pseudo-rule.
pub fn one_tuple<A, B, C, D, E>()
    ensures { OneTuple (OfFive A B C D E) }
{}

// Where the tuples are no more than the subset limit, the shelf is empty and no key is a pseudo-rule.
pub fn enough_subsets<A, B, C, D, E>()
    ensures { EnoughSubsets (OfFive A B C D E) }
{}

// What a subset's key tells of a header.
pub fn key_tells<A, B, C, D, E, A2, B2, C2, D2, E2>()
    ensures { KeyTells (OfFive A B C D E) (OfFive A2 B2 C2 D2 E2) }
{}

// All keys together are those of the subsets.
pub fn total_counts<A, B, C, D, E>()
    ensures { TotalCounts (OfFive A B C D E) }
{}

// The keys of some rules, place by place.
pub fn place_by_place<A, B, C, D, E>()
    ensures { PlaceByPlace (OfFive A B C D E) }
{}

// Patterns that nest alike are grouped alike.
pub fn carries<A, B, C, D, E, A2, B2, C2, D2, E2>()
    ensures { Carries (OfFive A B C D E) (OfFive A2 B2 C2 D2 E2) }
{}

// What is worked out of rules by their numbers is what is worked out by their patterns.
pub fn by_number<A, B, C, D, E>()
    ensures { IsByNumber (OfFive A B C D E) }
{}
