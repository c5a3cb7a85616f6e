//! Declarations that bind the parts of a tuple.

ghost use Rattle.std.specs.Prelude.{◌≡◌, ◌&&◌, Ok, IfOk, option_map};
ghost use Rattle.std.specs.Prelude.{◌++◌, ◌∷◌, []};
ghost use Rattle.asl_rules.specs.statements.Locals as rules;
ghost use Rattle.asl_rules.specs.declarations.Scopes as scopes;
ghost use Rattle.asl_rules.specs.declarations.Scopes.{with_entry};
ghost use Rattle.asl_rules.specs.types.Types as types;
ghost use Rattle.asl_types.specs.private.Answers.{Met};
ghost use Rattle.asl_types.specs.View.{parts_of};
ghost use Rattle.asl_blocks.specs.private.Walks as walks;
ghost use Rattle.asl_blocks.specs.private.Walks.{after, binding};

use asl_syn::code::{Refused, StaticCode};
use asl_syn::tree::{Binder, LocalKind};
use asl_types::answer::fault;
use asl_types::baring::widened;
use asl_types::counting::itself;
use asl_types::structure::tuple_parts;
use asl_types::{Counted, Scope, Ty};
use sqlite_items::Items;
use std::alloc::{AllocError, Global};

/// A name of a body becomes visible, where it isn't, as its declaration asks for.
pub(crate) fn declare_local<'a>(
    names: &mut Scope<'a>,
    kind: LocalKind,
    name: &'a [u8],
    ty: Ty,
    counted: Option<Counted>,
) -> Result<(), Refused>
    ensures { Met (λ _. names.new) result (Ok (with_entry (rules.declared kind name.now ty counted) names.old)) }
{
    match kind {
        LocalKind::Let => names.declare_fixed(name, ty, counted),
        LocalKind::Var => names.declare_variable(name, ty),
    }
}

/// The type that a declaration without a written type gives its names: that of a `var` has no constraint.
pub(crate) fn unannotated(alloc: Global, kind: LocalKind, ty: &Ty) -> Result<Ty, AllocError>
    ensures { IfOk result (λ it. it ≡ rules.unannotated kind ty.now) }
{
    match kind {
        LocalKind::Let => ty.copy(),
        LocalKind::Var => widened(alloc, ty),
    }
}

/// The type that a declaration gives the name of a part.
fn part_declared(
    alloc: Global,
    kind: LocalKind,
    written: &Option<Ty>,
    part: &Ty,
) -> Result<Ty, AllocError>
    ensures { IfOk result (λ it. it ≡ rules.part_declared kind written.now part.now) }
{
    match written {
        None => unannotated(alloc, kind, part),
        Some(_) => part.copy(),
    }
}

/// The first of these types, else the booleans.
fn first_part(parts: &[Ty]) -> Result<Ty, AllocError>
    ensures { IfOk result (λ ty. ty ≡ walks.first_part (parts_of parts.now)) }
{
    match parts.split_first() {
        None => Ok(Ty::boolean()),
        Some((first, _)) => first.copy(),
    }
}

/// The types behind the first.
fn other_parts(parts: &[Ty]) -> &[Ty]
    ensures { parts_of result.now ≡ walks.other_parts (parts_of parts.now) }
{
    match parts.split_first() {
        None => parts,
        Some((_, rest)) => rest,
    }
}

/// Whether there were as many parts so far, and there is one more.
fn has_one_more(as_many: bool, parts: &[Ty]) -> bool
    ensures { result ≡ (as_many && walks.has_part (parts_of parts.now)) }
{
    match parts.split_first() {
        None => false,
        Some(_) => as_many,
    }
}

/// Whether there were as many parts, and none is left.
fn has_no_more(as_many: bool, parts: &[Ty]) -> bool
    ensures { result ≡ (as_many && walks.has_none (parts_of parts.now)) }
{
    match parts.split_first() {
        None => as_many,
        Some(_) => false,
    }
}

/// One more binder of a part of this type: T01 where its name is visible.
fn declare_binder<'a>(
    alloc: Global,
    names: &mut Scope<'a>,
    kind: LocalKind,
    ty: Ty,
    binder: &'a Binder,
) -> Result<(), Refused>
    ensures { Met (λ _. names.new) result (walks.binder_declared kind ty binder.now names.old) }
{
    match binder {
        Binder::Bound(name) => {
            let text = name.text.as_slice();
            if !names.is_free(text) {
                return fault(StaticCode::T01, name.span);
            }
            let counted = itself(alloc, &ty, names)?;
            declare_local(names, kind, text, ty, counted)
        }
        Binder::Unbound(_) => Ok(()),
    }
}

/// Binders in order with the types of the parts: T01 at the first whose name is visible. Whether there are as many of both.
fn declare_binders<'a>(
    alloc: Global,
    names: &mut Scope<'a>,
    binders: &'a [Binder],
    kind: LocalKind,
    written: &Option<Ty>,
    parts: &[Ty],
) -> Result<bool, Refused>
    ensures { Met (λ as_many. (names.new, as_many)) result (walks.parts_walk binders.now kind written.now (parts_of parts.now) names.old) }
{
    let mut rest = parts;
    let mut as_many = true;
    for binder in binders {
        as_many = has_one_more(as_many, rest);
        let part = first_part(rest)?;
        let ty = part_declared(alloc, kind, written, &part)?;
        declare_binder(alloc, names, kind, ty, binder)?;
        rest = other_parts(rest);
    }
    Ok(has_no_more(as_many, rest))
}

/// Binders in order with the parts of a type: T01 at the first whose name is visible. Whether there are as many of both.
pub(crate) fn declare_parts<'a>(
    alloc: Global,
    names: &mut Scope<'a>,
    binders: &'a [Binder],
    kind: LocalKind,
    written: &Option<Ty>,
    ty: &Ty,
) -> Result<bool, Refused>
    ensures { Met (λ as_many. (names.new, as_many)) result (walks.binders_walk binders.now kind written.now (types.tuple_parts ty.now) names.old) }
{
    match tuple_parts(ty) {
        None => {
            declare_binders(alloc, names, binders, kind, written, &[])?;
            Ok(false)
        }
        Some(parts) => declare_binders(alloc, names, binders, kind, written, parts),
    }
}

/// Which parts are taken.
pub(crate) fn taken_parts(alloc: Global, binders: &[Binder]) -> Result<Items<bool>, AllocError>
    ensures { IfOk result (λ bs. bs ≡ rules.taken binders.now) }
{
    let mut taken = Items::new(alloc);
    for binder in binders {
        taken.push(matches!(binder, Binder::Bound(_)))?;
    }
    Ok(taken)
}
