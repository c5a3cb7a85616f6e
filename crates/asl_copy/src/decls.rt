//! Copies of declarations as they are read.

ghost use Rattle.std.specs.Prelude.{◌≡◌, IfOk};

use crate::exprs::{copy_maybe_expr, copy_maybe_type, copy_type};
use crate::names::{copy_ident, copy_idents, copy_maybe_ident};
use crate::reads::copy_read_stmts;
use asl_syn::read::{Accessor, ReadDecl, ReadFunc};
use asl_syn::tree::{Formal, Param, StorageDecl, TypeDecl, TypeDef};
use sqlite_items::Items;
use std::alloc::{AllocError, Global};

/// A copy of a formal argument, or of a field.
pub fn copy_formal(alloc: Global, formal: &Formal) -> Result<Formal, AllocError>
    ensures { IfOk result (λ copy. copy ≡ formal.now) }
{
    Ok(Formal {
        name: copy_ident(alloc, &formal.name)?,
        ty: copy_type(alloc, &formal.ty)?,
    })
}

/// Copies of formal arguments, or of fields.
pub fn copy_formals(alloc: Global, items: &[Formal]) -> Result<Items<Formal>, AllocError>
    ensures { IfOk result (λ copies. copies ≡ items.now) }
{
    let mut copies = Items::new(alloc);
    for item in items {
        copies.push(copy_formal(alloc, item)?)?;
    }
    Ok(copies)
}

/// A copy of a parameter.
fn copy_param(alloc: Global, param: &Param) -> Result<Param, AllocError>
    ensures { IfOk result (λ copy. copy ≡ param.now) }
{
    Ok(Param {
        name: copy_ident(alloc, &param.name)?,
        ty: copy_maybe_type(alloc, &param.ty)?,
    })
}

/// Copies of parameters.
pub fn copy_params(alloc: Global, items: &[Param]) -> Result<Items<Param>, AllocError>
    ensures { IfOk result (λ copies. copies ≡ items.now) }
{
    let mut copies = Items::new(alloc);
    for item in items {
        copies.push(copy_param(alloc, item)?)?;
    }
    Ok(copies)
}

/// A copy of what a type declaration defines.
fn copy_def(alloc: Global, def: &TypeDef) -> Result<TypeDef, AllocError>
    ensures { IfOk result (λ copy. copy ≡ def.now) }
{
    match def {
        TypeDef::Alias(ty) => Ok(TypeDef::Alias(copy_type(alloc, ty)?)),
        TypeDef::Labels(span, labels) => {
            Ok(TypeDef::Labels(*span, copy_idents(alloc, labels.as_slice())?))
        }
        TypeDef::Record(span, fields) => {
            Ok(TypeDef::Record(*span, copy_formals(alloc, fields.as_slice())?))
        }
        TypeDef::Exception(span, fields) => {
            Ok(TypeDef::Exception(*span, copy_formals(alloc, fields.as_slice())?))
        }
    }
}

/// A copy of the declaration of a type.
fn copy_type_decl(alloc: Global, decl: &TypeDecl) -> Result<TypeDecl, AllocError>
    ensures { IfOk result (λ copy. copy ≡ decl.now) }
{
    Ok(TypeDecl {
        span: decl.span,
        name: copy_ident(alloc, &decl.name)?,
        def: copy_def(alloc, &decl.def)?,
        supertype: copy_maybe_ident(alloc, &decl.supertype)?,
    })
}

/// A copy of the declaration of storage.
fn copy_storage(alloc: Global, decl: &StorageDecl) -> Result<StorageDecl, AllocError>
    ensures { IfOk result (λ copy. copy ≡ decl.now) }
{
    Ok(StorageDecl {
        span: decl.span,
        kind: decl.kind,
        name: copy_ident(alloc, &decl.name)?,
        ty: copy_maybe_type(alloc, &decl.ty)?,
        init: copy_maybe_expr(alloc, &decl.init)?,
    })
}

/// A copy of a subprogram.
fn copy_read_func(alloc: Global, func: &ReadFunc) -> Result<ReadFunc, AllocError>
    ensures { IfOk result (λ copy. copy ≡ func.now) }
{
    Ok(ReadFunc {
        span: func.span,
        word: func.word,
        qualifier: func.qualifier,
        name: copy_ident(alloc, &func.name)?,
        params: copy_params(alloc, func.params.as_slice())?,
        formals: copy_formals(alloc, func.formals.as_slice())?,
        result: copy_maybe_type(alloc, &func.result)?,
        limit: copy_maybe_expr(alloc, &func.limit)?,
        body: copy_read_stmts(alloc, func.body.as_slice())?,
    })
}

/// A copy of an accessor.
fn copy_accessor(alloc: Global, accessor: &Accessor) -> Result<Accessor, AllocError>
    ensures { IfOk result (λ copy. copy ≡ accessor.now) }
{
    Ok(Accessor {
        span: accessor.span,
        word: accessor.word,
        name: copy_ident(alloc, &accessor.name)?,
        params: copy_params(alloc, accessor.params.as_slice())?,
        formals: copy_formals(alloc, accessor.formals.as_slice())?,
        value: copy_formal(alloc, &accessor.value)?,
        qualifier: accessor.qualifier,
        getter: copy_read_stmts(alloc, accessor.getter.as_slice())?,
        setter: copy_read_stmts(alloc, accessor.setter.as_slice())?,
    })
}

/// A copy of a declaration.
pub fn copy_decl(alloc: Global, decl: &ReadDecl) -> Result<ReadDecl, AllocError>
    ensures { IfOk result (λ copy. copy ≡ decl.now) }
{
    match decl {
        ReadDecl::Type(decl) => Ok(ReadDecl::Type(copy_type_decl(alloc, decl)?)),
        ReadDecl::Storage(decl) => Ok(ReadDecl::Storage(copy_storage(alloc, decl)?)),
        ReadDecl::Func(func) => Ok(ReadDecl::Func(copy_read_func(alloc, func)?)),
        ReadDecl::Accessor(accessor) => { Ok(ReadDecl::Accessor(copy_accessor(alloc, accessor)?)) }
    }
}

/// Copies of declarations.
pub fn copy_decls(alloc: Global, items: &[ReadDecl]) -> Result<Items<ReadDecl>, AllocError>
    ensures { IfOk result (λ copies. copies ≡ items.now) }
{
    let mut copies = Items::new(alloc);
    for item in items {
        copies.push(copy_decl(alloc, item)?)?;
    }
    Ok(copies)
}
