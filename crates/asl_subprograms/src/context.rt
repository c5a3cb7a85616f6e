//! What an expression is judged in.

use crate::subprograms::Subprograms;
use asl_rules::effect::Effect;
use asl_types::Scope;

/// What an expression is judged in: the visible names, the subprograms of the program, and the greatest effect that is
/// allowed.
#[derive(Clone, Copy)]
pub struct Context<'c, 'a> {
    pub names: &'c Scope<'a>,
    pub subs: &'c Subprograms,
    pub class: Effect,
}
