// What the answers of every finder say of labels.
ghost use Rattle.finders.specs.Labels.{ParentsTell, BestTells};
ghost use Rattle.finders.specs.Chains.{ChainsTell};

use fields::kind::FieldKind;

// What lies around a label is itself and what lies around its parent.
#[tactic(auto, using(crate::proofs::Labels::parents_tell_lem))]
pub fn parents_tell<K: FieldKind>()
    ensures { ParentsTell K.FieldKind.nest }
{}

// What matches is what lies around the best.
#[tactic(auto, using(crate::proofs::Labels::best_tells_lem))]
pub fn best_tells<K: FieldKind>()
    ensures { BestTells K.FieldKind.nest }
{}

// The way up from a label by its parents has all that lies around it, the nearest first.
pub fn chains_tell<K: FieldKind>()
    ensures { ChainsTell K.FieldKind.nest }
{}
