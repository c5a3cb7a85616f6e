//! Declarations take turns: in each, the first is judged that waits and uses only well-formed ones.

ghost use Rattle.std.specs.Prelude.{◌≡◌, ◌<◌, [], Some, Ok, if◌then◌else◌, length, map, replicate, slice_set, IfOk, IfErr, OnOk};
ghost use Rattle.std.specs.List.{slice_get};
ghost use Rattle.asl_rules.specs.declarations.Names.{library, names_rule, all_declared};
ghost use Rattle.asl_rules.specs.declarations.Scopes.{subprogram};
ghost use Rattle.asl_rules.specs.declarations.Turns as rules;
ghost use Rattle.asl_rules.specs.Tests.{Tests};
ghost use Rattle.asl_types.specs.Suits.{Suits};
ghost use Rattle.asl_names.specs.private.Graphs.{graph_of};
ghost use Rattle.asl_turns.specs.Turns.{with_settled};
ghost use Rattle.asl_judge.specs.private.Outcomes.{judged_of, all_judged};
ghost use Rattle.asl_judge.specs.private.Settling.{all_reserved, CameBy, brings, HaveStandIns, all_settled};
ghost use Rattle.asl_judge.specs.private.Waiting.{turns_after};

use crate::outcome::{Outcome, judge_over};
use crate::visible::names_reserved;
use asl_rules::effect::Effect;
use asl_subprograms::{Context, Subprograms};
use asl_syn::code::Refused;
use asl_syn::tree::Decl;
use asl_turns::Turns;
use asl_types::Scope;
use sqlite_items::Items;
use std::alloc::{AllocError, Global};

/// How far the turns have come.
#[derive(Drop)]
pub(crate) struct Progress<'a> {
    /// Those of the library, and in source order those of the declarations: what each brings, or stand-ins where it isn't
    /// known to be well formed.
    pub(crate) names: Scope<'a>,
    /// What came of each declaration. It waits where it wasn't judged.
    pub(crate) outcomes: Items<Outcome<'a>>,
}

// ---- before the first turn

fn none_judged<'a>(alloc: Global, count: usize) -> Result<Items<Outcome<'a>>, AllocError>
    ensures { IfOk result (λ outcomes. all_judged outcomes ≡ replicate count rules.Waiting) }
{
    let mut outcomes = Items::new(alloc);
    for _ in 0..count {
        outcomes.push(Outcome::Waiting)?;
    }
    Ok(outcomes)
}

fn begin<'a>(alloc: Global, decls: &'a [Decl]) -> Result<Progress<'a>, Refused>
    ensures names { IfOk result (λ progress. progress.names ≡ all_reserved decls.now (map subprogram library)) }
    ensures outcomes { IfOk result (λ progress. all_judged progress.outcomes ≡ replicate (length decls.now) rules.Waiting) }
    ensures memory { IfErr result (λ e. e ≡ Refused.NoMemory) }
{
    Ok(Progress {
        names: names_reserved(alloc, decls)?,
        outcomes: none_judged(alloc, decls.len())?,
    })
}

/// Types and storage take turns. Subprograms don't, since their names say nothing that has to be judged.
fn takes_turn(d: &Decl) -> bool
    ensures { result ≡ rules.takes_turn d.now }
{
    match d {
        Decl::Type(_) => true,
        Decl::Storage(_) => true,
        Decl::Func(_) => false,
    }
}

/// For each declaration whether it waits for a turn.
fn who_wait(alloc: Global, decls: &[Decl]) -> Result<Items<bool>, AllocError>
    ensures { IfOk result (λ waiting. waiting ≡ turns_after [] decls.now) }
{
    let mut waiting = Items::new(alloc);
    for d in decls {
        waiting.push(takes_turn(d))?;
    }
    Ok(waiting)
}

// ---- a turn

/// The declaration at a place.
fn decl_at(decls: &[Decl], node: usize) -> &Decl
    requires { node < length decls.now }
    ensures { slice_get decls.now node ≡ Some result.now }
{
    &decls[node]
}

/// What comes of a declaration where these names are visible. No subprogram has a signature, since no declaration outside
/// bodies calls one.
fn judge_among<'a>(alloc: Global, names: &Scope<'_>, d: &'a Decl) -> Result<Outcome<'a>, AllocError>
    ensures judged { (t : Tests) → Suits t → IfOk result (λ o. judged_of o ≡ rules.decl_judged t d.now names.now) }
    ensures came { IfOk result (λ o. CameBy (rules.reserved d.now) (judged_of o)) }
{
    let subs = Subprograms::new(alloc);
    let context = Context {
        names,
        subs: &subs,
        class: Effect::Writes,
    };
    judge_over(alloc, context, d)
}

/// Keeps what came of the declaration at a place, whose names are settled where it is well formed.
fn keep<'a>(
    alloc: Global,
    progress: &mut Progress<'a>,
    node: usize,
    outcome: Outcome<'a>,
) -> Result<(), AllocError>
    requires place { node < length progress.old.outcomes }
    requires names { HaveStandIns (brings (judged_of outcome)) progress.old.names }
    ensures names { OnOk result (progress.new.names ≡ all_settled (brings (judged_of outcome.entry)) progress.old.names) }
    ensures outcomes { OnOk result (all_judged progress.new.outcomes ≡ slice_set (all_judged progress.old.outcomes) node (judged_of outcome.entry)) }
{
    outcome.settle(alloc, &mut progress.names)?;
    progress.outcomes.set(node, outcome);
    Ok(())
}

/// The node whose turn it was is settled where its declaration is well formed.
fn after_turn(alloc: Global, turns: Turns, node: usize, is_fine: bool) -> Result<Turns, AllocError>
    ensures settled { IfOk result (λ after. after ≡ (if is_fine then with_settled node turns else turns)) }
    ensures waiting { IfOk result (λ after. after.waiting ≡ turns.waiting) }
{
    if is_fine {
        turns.settle(alloc, node)
    } else {
        Ok(turns)
    }
}

/// What comes of each declaration, and the names that are then visible. Beside that of judging each once, it takes a time
/// that grows with the declarations and their uses.
pub(crate) fn judge_in_turns<'a>(
    alloc: Global,
    decls: &'a [Decl],
    graph: Items<Items<usize>>,
) -> Result<Progress<'a>, Refused>
    requires names { names_rule [] (all_declared decls.now) ≡ Ok tt }
    requires graph { graph ≡ graph_of decls.now }
    ensures outcomes { (t : Tests) → Suits t → IfOk result (λ progress. all_judged progress.outcomes ≡ rules.final t decls.now) }
    ensures names { (t : Tests) → Suits t → IfOk result (λ progress. progress.names ≡ rules.names_of_program t decls.now) }
    ensures memory { IfErr result (λ e. e ≡ Refused.NoMemory) }
{
    let mut progress = begin(alloc, decls)?;
    let mut turns = Turns::new(alloc, graph, who_wait(alloc, decls)?)?;
    while let Some(node) = turns.next() {
        let outcome = judge_among(alloc, &progress.names, decl_at(decls, node))?;
        let is_fine = outcome.is_fine();
        keep(alloc, &mut progress, node, outcome)?;
        turns = after_turn(alloc, turns, node, is_fine)?;
    }
    Ok(progress)
}
