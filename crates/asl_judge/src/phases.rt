//! The phases before signatures: names, declarations that reach themselves, and each declaration.

ghost use Rattle.std.specs.Prelude.{◌≡◌, IfOk};
ghost use Rattle.asl_rules.specs.declarations.Turns.{names_of_program};
ghost use Rattle.asl_rules.specs.Tests.{Tests};
ghost use Rattle.asl_types.specs.private.Answers.{Met};
ghost use Rattle.asl_types.specs.Suits.{Suits};
ghost use Rattle.asl_judge.specs.Tables.{declarations_rule};

use crate::outcome::check_all;
use crate::turns::judge_in_turns;
use asl_names::graph_of_decls;
use asl_syn::code::Refused;
use asl_syn::tree::Decl;
use asl_types::Scope;
use std::alloc::Global;

/// The names that are visible in all bodies, each once, where each declaration is well formed: the fault of the names, that
/// of declarations that reach themselves, and then that of the first declaration, in source order, that has one.
#[tactic(auto, using(crate::proofs::PhaseLemmas::names_first, crate::proofs::PhaseLemmas::declarations_stop, crate::proofs::PhaseLemmas::declarations_then))]
pub fn judge_names<'a>(alloc: Global, decls: &'a [Decl]) -> Result<Scope<'a>, Refused>
    ensures rule { (t : Tests) → Suits t → Met (λ _. tt) result (declarations_rule t decls.now) }
    ensures names { (t : Tests) → Suits t → IfOk result (λ names. names ≡ names_of_program t decls.now) }
{
    let graph = graph_of_decls(alloc, decls)?;
    let progress = judge_in_turns(alloc, decls, graph)?;
    check_all(progress.outcomes.as_slice())?;
    Ok(progress.names)
}
