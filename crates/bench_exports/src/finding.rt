// `best` in a finder.
use crate::checksum::with_answer;
use crate::rows::PrefixRow;
use fields::kind::FieldKind;
use finders::finder::Finder;
use std::alloc::AllocError;

// Holds the patterns of the rows and no others.
fn fill<F: Finder>(finder: &mut F, rows: &[PrefixRow])
    ensures { F.Finder.ready finder.new }
{
    finder.clear();
    for row in rows {
        if let Ok(p) = F::Kind::make(row.length(), row.number) {
            let _ = finder.take(p);
        }
    }
}

// A checksum with the answers for all values.
fn ask<F: Finder>(finder: &F, values: &[F::Value], mut sum: u64) -> u64
    requires { F.Finder.ready finder.now }
{
    for v in values {
        sum = with_answer(sum, finder.best(*v).map(|label| label.place));
    }
    sum
}

// The checksum of all rounds, or 0 where memory was wanting.
// Each trait of a support has a text of its own: closures to fill and to ask would have to carry the `ready` that the calls ask for.
pub(crate) fn best_sum<F: Finder + Drop>(
    made: Result<F, AllocError>,
    rows: &[PrefixRow],
    values: &[F::Value],
    rounds: u32,
) -> u64 {
    let Ok(mut finder) = made else {
        return 0;
    };
    fill(&mut finder, rows);
    let mut sum = 0;
    for _ in 0..rounds {
        sum = ask(&finder, values, sum);
    }
    sum
}
