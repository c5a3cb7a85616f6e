//! Declarations, written out.

ghost use Rattle.std.specs.Prelude.{◌≡◌, ◌++◌, ◌∷◌, IfOk, OnOk};
ghost use Rattle.asl_rules.specs.declarations.WrittenOut as rules;

use crate::statements::write_stmts;
use asl_copy::decls::{copy_formals, copy_params};
use asl_copy::exprs::copy_type;
use asl_copy::names::copy_ident;
use asl_shared::Held;
use asl_syn::read::{Accessor, ReadDecl, ReadFunc, ReadStmt};
use asl_syn::token::Span;
use asl_syn::tree::{Decl, Formal, Func, Ident, Param, Qualifier, TypeExpr};
use sqlite_items::Items;
use std::alloc::{AllocError, Global};

/// A subprogram, written out.
fn write_func(alloc: Global, func: ReadFunc) -> Result<Func, AllocError>
    ensures { IfOk result (λ written. written ≡ rules.func_written func) }
{
    let (span, qualifier) = (func.span, func.qualifier);
    let (name, params, formals, result, limit, body) = func.into_parts();
    let (result, limit) = (Held::new(result), Held::new(limit));
    let body = write_stmts(alloc, body)?;
    Ok(Func {
        span,
        qualifier,
        name,
        params,
        formals,
        result: result.into_inner(),
        limit: limit.into_inner(),
        body,
    })
}

/// What the two subprograms that an accessor is have in common.
#[derive(Drop)]
struct Heading {
    span: Span,
    name: Ident,
    params: Items<Param>,
    formals: Items<Formal>,
}

/// The function that an accessor is: a copy of its heading and of the type of its value, with the word and the body of
/// the getter.
fn write_getter(
    alloc: Global,
    heading: &Heading,
    ty: &TypeExpr,
    qualifier: Qualifier,
    body: Items<ReadStmt>,
) -> Result<Func, AllocError>
    ensures { IfOk result (λ f. f ≡ record { span = heading.now.span; qualifier = qualifier; name = heading.now.name; params = heading.now.params; formals = heading.now.formals; result = Some ty.now; limit = None; body = rules.list_written body }) }
{
    let body = write_stmts(alloc, body)?;
    let name = copy_ident(alloc, &heading.name)?;
    let params = copy_params(alloc, heading.params.as_slice())?;
    let formals = copy_formals(alloc, heading.formals.as_slice())?;
    let result = copy_type(alloc, ty)?;
    Ok(Func {
        span: heading.span,
        qualifier,
        name,
        params,
        formals,
        result: Some(result),
        limit: None,
        body,
    })
}

/// The procedure that an accessor is, whose formals are the value and those of the accessor, with the body of the setter.
fn write_setter(
    alloc: Global,
    heading: Heading,
    value: Formal,
    body: Items<ReadStmt>,
) -> Result<Func, AllocError>
    ensures { IfOk result (λ f. f ≡ record { span = heading.span; qualifier = Qualifier.Unqualified; name = heading.name; params = heading.params; formals = value ∷ heading.formals; result = None; limit = None; body = rules.list_written body }) }
{
    let Heading {
        span,
        name,
        params,
        formals,
    } = heading;
    let mut all = Items::new(alloc);
    all.push(value)?;
    all.append(formals)?;
    let body = write_stmts(alloc, body)?;
    Ok(Func {
        span,
        qualifier: Qualifier::Unqualified,
        name,
        params,
        formals: all,
        result: None,
        limit: None,
        body,
    })
}

/// Writes out an accessor, behind what is written.
fn write_accessor(
    alloc: Global,
    accessor: Accessor,
    written: &mut Items<Decl>,
) -> Result<(), AllocError>
    ensures { OnOk result (written.new ≡ written.old ++ rules.decl_written (ReadDecl.Accessor accessor)) }
{
    let (span, qualifier) = (accessor.span, accessor.qualifier);
    let (name, params, formals, value, getter, setter) = accessor.into_parts();
    let heading = Heading {
        span,
        name,
        params,
        formals,
    };
    let getter = write_getter(alloc, &heading, &value.ty, qualifier, getter)?;
    written.push(Decl::Func(getter))?;
    let setter = write_setter(alloc, heading, value, setter)?;
    written.push(Decl::Func(setter))?;
    Ok(())
}

/// Writes out a declaration, behind what is written.
pub fn write_decl(
    alloc: Global,
    decl: ReadDecl,
    written: &mut Items<Decl>,
) -> Result<(), AllocError>
    ensures { OnOk result (written.new ≡ written.old ++ rules.decl_written decl) }
{
    match decl {
        ReadDecl::Type(decl) => {
            written.push(Decl::Type(decl))?;
        }
        ReadDecl::Storage(decl) => {
            written.push(Decl::Storage(decl))?;
        }
        ReadDecl::Func(func) => {
            let func = write_func(alloc, func)?;
            written.push(Decl::Func(func))?;
        }
        ReadDecl::Accessor(accessor) => write_accessor(alloc, accessor, written)?,
    }
    Ok(())
}
