//! What operators make of numbers in widths.

/// How two numbers are combined.
#[derive(Clone, Copy, PartialEq, Eq)]
pub enum Combination {
    Sum,
    Difference,
    Product,
}

/// What an operator does in a width: it combines its operands, or divides the left one by the right one, which is written as a
/// number, or it has no place there.
#[derive(Clone, Copy, PartialEq, Eq)]
pub enum Joining {
    Combines(Combination),
    Divides,
    JoinsNothing,
}
