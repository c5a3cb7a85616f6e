//! The interpreter of typed trees. Each form of node has a function of its own, over anything that runs
//! the nodes below it (`Nodes`): so it is proved by itself. Only the five
//! functions of `knot.rt` call one another, and how many nodes more may be open falls with each node that is entered.
#![tactic(auto)]

mod acts_at_once;
mod asking;
mod assignments;
mod at_once;
mod bits;
mod calls;
mod exprs;
mod finishes;
mod knot;
mod level;
mod loops;
mod operations;
mod output;
mod outside;
mod parts;
mod places;
mod stmts;

pub use asl_branches::frames::Frames;
pub use asl_branches::run::Run;
pub use asl_branches::setting::Setting;
pub use asl_branches::stop::{Exit, Mistake, Stop};
pub use knot::{eval, exec, exec_all};
pub use outside::call;
