// The calls on an engine, with their arguments. H are the headers.
use crate::limits::Limits;
use sheets::row::RuleRow;

#[derive(Clone, Copy)]
pub enum Call<H> {
    Add(RuleRow),
    Withdraw(u32),
    Group(Limits),
    // The header, and how many places the output has.
    Classify(H, usize),
    Clear,
}
