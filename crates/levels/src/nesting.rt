// Levels and nearest containers, from the laws of a kind alone.
ghost use Rattle.std.specs.Prelude.{◌≡◌, true, ◌∷◌};
ghost use Rattle.std.specs.Option.{option_to_list};
ghost use Rattle.fields.specs.Lists.{any};
ghost use Rattle.levels.specs.Levels.{same as same_pattern, around as around_pattern, level as level_of, nearest as nearest_of};
ghost use Rattle.levels.specs.Told.{told};

use fields::kind::FieldKind;
use fields::numbers::Level;

// Whether two patterns are one. Not by `==`: a kind of field owes how its patterns nest, and no equality of them.
pub fn same<K: FieldKind>(a: K::Pattern, b: K::Pattern) -> bool
    ensures { result ≡ same_pattern K.FieldKind.nest.within a b }
{
    K::within(a, b) && K::within(b, a)
}

// Whether the pattern q lies around p, and is another one.
pub fn around<K: FieldKind>(p: K::Pattern, q: K::Pattern) -> bool
    ensures { result ≡ around_pattern K.FieldKind.nest.within p q }
{
    K::within(p, q) && !K::within(q, p)
}

// Whether two patterns are one, by the length and the number that each tells; a kind owes no `==`.
// These also bound how many patterns there are.
fn alike<K: FieldKind>(a: K::Pattern, b: K::Pattern) -> bool
    ensures one { result ≡ same_pattern K.FieldKind.nest.within a b }
    ensures few { (told K.FieldKind.nest a ≡ true) × (told K.FieldKind.nest b ≡ true) }
{
    let lengths = K::length(a).bits == K::length(b).bits;
    let numbers = K::number(a) == K::number(b);
    lengths && numbers
}

// Whether the pattern q is the whole one, or one of these.
fn marked<K: FieldKind>(patterns: &[K::Pattern], q: K::Pattern) -> bool
    ensures found { result ≡ any (λ p. same_pattern K.FieldKind.nest.within p q) (K.FieldKind.nest.whole ∷ patterns.now) }
    ensures few { (told K.FieldKind.nest K.FieldKind.nest.whole ≡ true) × (told K.FieldKind.nest q ≡ true) }
{
    alike::<K>(K::whole(), q) || patterns.iter().any(|p| alike::<K>(*p, q))
}

// The nested level of p in a field whose rules have these patterns; the whole pattern is always marked.
pub fn level<K: FieldKind>(patterns: &[K::Pattern], p: K::Pattern) -> Level
    ensures { result.around ≡ level_of K.FieldKind.nest.within K.FieldKind.nest.whole patterns.now p }
{
    // A loop, whose invariant bounds the count by what each counted pattern tells; of `filter` and `count` the sum was not proved to fit.
    let mut count = 0;
    if around::<K>(p, K::whole()) {
        count = 1;
    }
    for (i, q) in patterns.iter().enumerate() {
        if around::<K>(p, *q) && !marked::<K>(&patterns[..i], *q) {
            count += 1;
        }
    }
    Level { around: count }
}

// The nearest other marked pattern around p, or none where p is the whole pattern.
pub fn nearest<K: FieldKind>(patterns: &[K::Pattern], p: K::Pattern) -> Option<K::Pattern>
    ensures { option_to_list result ≡ nearest_of K.FieldKind.nest.within K.FieldKind.nest.whole patterns.now p }
{
    let whole = K::whole();
    if !around::<K>(p, whole) {
        return None;
    }
    let mut found = whole;
    for q in patterns {
        if around::<K>(p, *q) && K::within(*q, found) {
            found = *q;
        }
    }
    Some(found)
}
