//! The names that declarations use, in source order.

ghost use Rattle.std.specs.Prelude.{◌≡◌, ◌++◌, IfOk, OnOk};
ghost use Rattle.asl_rules.specs.declarations.UsedNames as rules;
ghost use Rattle.asl_names.specs.private.UseView.{all_uses};

use crate::expr_uses::{add, add_expr, add_type};
use crate::name_use::Use;
use asl_syn::tree::{Decl, Expr, Formal, Ident, TypeDef, TypeExpr};
use sqlite_items::Items;
use std::alloc::{AllocError, Global};

fn add_formals<'a>(uses: &mut Items<Use<'a>>, formals: &'a [Formal]) -> Result<(), AllocError>
    ensures { OnOk result (all_uses uses.new ≡ all_uses uses.old ++ rules.formal_uses formals.now) }
{
    for f in formals {
        add_type(uses, &f.ty)?;
    }
    Ok(())
}

/// The uses in a definition.
fn add_def<'a>(uses: &mut Items<Use<'a>>, def: &'a TypeDef) -> Result<(), AllocError>
    ensures { OnOk result (all_uses uses.new ≡ all_uses uses.old ++ rules.def_uses def.now) }
{
    match def {
        TypeDef::Alias(ty) => add_type(uses, ty),
        TypeDef::Labels(_, _) => Ok(()),
        TypeDef::Record(_, fields) => add_formals(uses, fields.as_slice()),
        TypeDef::Exception(_, fields) => add_formals(uses, fields.as_slice()),
    }
}

fn add_supertype<'a>(
    uses: &mut Items<Use<'a>>,
    supertype: &'a Option<Ident>,
) -> Result<(), AllocError>
    ensures { OnOk result (all_uses uses.new ≡ all_uses uses.old ++ rules.supertype_uses supertype.now) }
{
    match supertype {
        None => Ok(()),
        Some(name) => add(uses, Use::Type(name.text.as_slice())),
    }
}

/// The uses in a type, where there is one.
fn add_maybe_type<'a>(uses: &mut Items<Use<'a>>, ty: &'a Option<TypeExpr>) -> Result<(), AllocError>
    ensures { OnOk result (all_uses uses.new ≡ all_uses uses.old ++ rules.maybe_type_uses ty.now) }
{
    match ty {
        None => Ok(()),
        Some(ty) => add_type(uses, ty),
    }
}

/// The uses in an expression, where there is one.
fn add_maybe_expr<'a>(uses: &mut Items<Use<'a>>, e: &'a Option<Expr>) -> Result<(), AllocError>
    ensures { OnOk result (all_uses uses.new ≡ all_uses uses.old ++ rules.maybe_expr_uses e.now) }
{
    match e {
        None => Ok(()),
        Some(e) => add_expr(uses, e),
    }
}

fn add_decl<'a>(uses: &mut Items<Use<'a>>, d: &'a Decl) -> Result<(), AllocError>
    ensures { OnOk result (all_uses uses.new ≡ all_uses uses.old ++ rules.decl_uses d.now) }
{
    match d {
        Decl::Type(t) => {
            add_def(uses, &t.def)?;
            add_supertype(uses, &t.supertype)
        }
        Decl::Storage(s) => {
            add_maybe_type(uses, &s.ty)?;
            add_maybe_expr(uses, &s.init)
        }
        Decl::Func(_) => Ok(()),
    }
}

/// The uses in a declaration.
pub(crate) fn uses_in_decl<'a>(alloc: Global, d: &'a Decl) -> Result<Items<Use<'a>>, AllocError>
    ensures { IfOk result (λ uses. all_uses uses ≡ rules.decl_uses d.now) }
{
    let mut uses = Items::new(alloc);
    add_decl(&mut uses, d)?;
    Ok(uses)
}
