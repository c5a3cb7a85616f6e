//! Which declarations use which.

ghost use Rattle.std.specs.Prelude.{◌≡◌, [], map, IfOk, OnOk};
ghost use Rattle.asl_rules.specs.declarations.UsedNames.{name_of};
ghost use Rattle.asl_rules.specs.declarations.Uses as uses;
ghost use Rattle.asl_names.specs.private.Answers.{Met};
ghost use Rattle.asl_names.specs.private.Cycles.{order_rule};
ghost use Rattle.asl_names.specs.private.Firsts.{first_place};
ghost use Rattle.asl_names.specs.private.Graphs as graphs;
ghost use Rattle.asl_names.specs.private.UseView.{use_of, all_uses};

use crate::cycles::check_cycles;
use crate::decl_uses::uses_in_decl;
use crate::declarers::declared_places;
use crate::firsts::Firsts;
use crate::name_use::Use;
use crate::names::check_names;
use asl_syn::code::Refused;
use asl_syn::tree::Decl;
use sqlite_items::Items;
use std::alloc::{AllocError, Global};

/// The place of the declaration whose name is used, where there is one.
fn add_place(table: &Firsts<'_>, one: Use<'_>, places: &mut Items<usize>) -> Result<(), AllocError>
    ensures { OnOk result (places.new ≡ graphs.with_used (first_place (name_of (use_of one.entry)) table.now) places.old) }
{
    if let Some(place) = table.place_of(one.name()) {
        places.push(place)?;
    }
    Ok(())
}

/// The places of the declarations whose names are used, in order.
fn add_places(
    table: &Firsts<'_>,
    uses: &[Use<'_>],
    places: &mut Items<usize>,
) -> Result<(), AllocError>
    ensures { OnOk result (places.new ≡ graphs.added table.now (map name_of (all_uses uses.now)) places.old) }
{
    for one in uses {
        add_place(table, *one, places)?;
    }
    Ok(())
}

/// The places of the declarations that a declaration uses.
fn row_of(alloc: Global, table: &Firsts<'_>, d: &Decl) -> Result<Items<usize>, AllocError>
    ensures { IfOk result (λ row. row ≡ graphs.added table.now (uses.uses d.now) []) }
{
    let uses = uses_in_decl(alloc, d)?;
    let mut places = Items::new(alloc);
    add_places(table, uses.as_slice(), &mut places)?;
    Ok(places)
}

/// For each declaration the places of those that it uses.
fn uses_of(alloc: Global, decls: &[Decl]) -> Result<Items<Items<usize>>, AllocError>
    ensures { IfOk result (λ graph. graph ≡ graphs.graph_of decls.now) }
{
    let table = declared_places(alloc, decls)?;
    let mut graph = Items::new(alloc);
    for d in decls {
        graph.push(row_of(alloc, &table, d)?)?;
    }
    Ok(graph)
}

/// For each declaration the places of those that it uses; T01 at the first name that is taken, then T03 at the first
/// declaration that reaches itself. It takes a time that grows with the text.
pub fn graph_of_decls(alloc: Global, decls: &[Decl]) -> Result<Items<Items<usize>>, Refused>
    ensures rule { Met (λ _. tt) result (order_rule decls.now) }
    ensures graph { IfOk result (λ graph. graph ≡ graphs.graph_of decls.now) }
{
    check_names(alloc, decls)?;
    let graph = uses_of(alloc, decls)?;
    check_cycles(alloc, decls, graph.as_slice())?;
    Ok(graph)
}
