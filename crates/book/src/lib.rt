// The plain book, which tells from the calls alone what an engine owes, and the worked examples.
#![tactic(auto)]

ghost use Rattle.book.specs.Worked.{Worked};

pub mod call;
pub mod limits;

// The worked examples, by computing.
pub fn worked_examples()
    ensures { Worked }
{}
