//! Declarations that reach themselves.

ghost use Rattle.std.specs.Prelude.{◌≡◌, [], true, Ok, IfOk};
ghost use Rattle.asl_rules.specs.declarations.Names.{names_rule, all_declared};
ghost use Rattle.asl_rules.specs.declarations.Uses as rules;
ghost use Rattle.asl_names.specs.private.Answers.{Met};
ghost use Rattle.asl_names.specs.private.Components.{IsFalling};
ghost use Rattle.asl_names.specs.private.Cycles.{name_of};
ghost use Rattle.asl_names.specs.private.Graphs.{graph_of};
ghost use Rattle.asl_names.specs.private.Ways.{HasEdges, HasWay};

use crate::answer::fault;
use crate::components::{Levels, levels_of};
use crate::reach::reaches_itself;
use asl_syn::code::{Refused, StaticCode};
use asl_syn::tree::{Decl, Ident};
use sqlite_items::Items;
use std::alloc::{AllocError, Global};

/// The name of a declaration.
fn name_of(d: &Decl) -> &Ident
    ensures { result.now ≡ name_of d.now }
{
    match d {
        Decl::Type(t) => &t.name,
        Decl::Storage(s) => &s.name,
        Decl::Func(f) => &f.name,
    }
}

/// Whether there is a way from a node back to it.
fn is_back(
    alloc: Global,
    graph: &[Items<usize>],
    levels: &Levels,
    node: usize,
) -> Result<bool, AllocError>
    requires edges { HasEdges graph.now }
    requires falls { levels.now.is_falling ≡ true → IsFalling graph.now levels.now.numbers }
    ensures way { IfOk result (λ back. back ≡ true → HasWay graph.now node node) }
    ensures none { IfOk result (λ back. HasWay graph.now node node → back ≡ true) }
{
    if levels.may_return(graph, node) {
        reaches_itself(alloc, graph, node)
    } else {
        Ok(false)
    }
}

/// T03 at the first declaration that reaches itself. It takes a time that grows with the graph: of those that may reach
/// themselves the first does.
pub(crate) fn check_cycles(
    alloc: Global,
    decls: &[Decl],
    graph: &[Items<usize>],
) -> Result<(), Refused>
    requires names { names_rule [] (all_declared decls.now) ≡ Ok tt }
    requires graph { graph.now ≡ graph_of decls.now }
    ensures { Met (λ _. tt) result (rules.cycles_rule decls.now decls.now) }
{
    let levels = levels_of(alloc, graph)?;
    for (place, d) in decls.iter().enumerate() {
        if is_back(alloc, graph, &levels, place)? {
            return fault(StaticCode::T03, name_of(d).span);
        }
    }
    Ok(())
}
