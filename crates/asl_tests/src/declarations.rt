//! Declarations of forms that no accepted text has.
use asl_decl::Table;
use asl_syn::code::{Fault, Refused, StaticCode};
use asl_syn::token::Span;
use asl_syn::tree::{Decl, Expr, Func, Ident, Qualifier, StorageDecl, StorageKind, Text, TypeExpr};
use sqlite_items::Items;
use std::alloc::{AllocError, Global};

/// The place number n.
fn at(n: u32) -> Span {
    Span {
        file: 0,
        start: n,
        len: 1,
    }
}

fn text(alloc: Global, name: &str) -> Result<Text, AllocError> {
    Items::from_slice(alloc, name.as_bytes())
}

fn ident(alloc: Global, n: u32, name: &str) -> Result<Ident, AllocError> {
    Ok(Ident {
        span: at(n),
        text: text(alloc, name)?,
    })
}

/// `func f() begin end;`
fn procedure(alloc: Global) -> Result<Decl, AllocError> {
    Ok(Decl::Func(Func {
        span: at(1),
        qualifier: Qualifier::Unqualified,
        name: ident(alloc, 2, "f")?,
        params: Items::new(alloc),
        formals: Items::new(alloc),
        result: None,
        limit: None,
        body: Items::new(alloc),
    }))
}

/// `let y: T = f();`, with the type that is named, if one is; the call is place 4.
fn of_a_call(alloc: Global, ty: Option<&str>) -> Result<Decl, AllocError> {
    let name = ident(alloc, 3, "y")?;
    let callee = ident(alloc, 4, "f")?;
    let ty = match ty {
        Some(ty) => Some(TypeExpr::NamedType(at(5), text(alloc, ty)?)),
        None => None,
    };
    let call = Expr::Call(at(4), callee, Items::new(alloc), Items::new(alloc));
    Ok(Decl::Storage(StorageDecl {
        span: at(3),
        kind: StorageKind::Let,
        name,
        ty,
        init: Some(call),
    }))
}

/// A procedure, and storage that calls it.
fn calling(alloc: Global, ty: Option<&str>) -> Result<Items<Decl>, AllocError> {
    let mut decls = Items::new(alloc);
    decls.push(procedure(alloc)?)?;
    decls.push(of_a_call(alloc, ty)?)?;
    Ok(decls)
}

/// A procedure alone.
fn alone(alloc: Global) -> Result<Items<Decl>, AllocError> {
    let mut decls = Items::new(alloc);
    decls.push(procedure(alloc)?)?;
    Ok(decls)
}

/// The fault of these declarations.
fn fault_of(alloc: Global, decls: &[Decl]) -> Option<Fault> {
    match Table::build(alloc, decls).err() {
        Some(Refused::At(fault)) => Some(fault),
        _ => None,
    }
}

/// Whether these declarations bring a subprogram first that has no result.
fn is_without_result(alloc: Global, decls: &[Decl]) -> bool {
    match Table::build(alloc, decls) {
        Ok(table) => match table.subs.signatures().split_first() {
            Some((f, _)) => f.result().is_none(),
            None => false,
        },
        Err(_) => false,
    }
}

#[test]
fn storage_calls_nothing(rt: HostRuntime) {
    let alloc = rt.alloc();
    let want = Fault {
        code: StaticCode::T04,
        inner: None,
        span: at(4),
    };
    for ty in [None, Some("X")] {
        let decls = calling(alloc, ty).expect(&rt, "memory");
        assert!(rt; fault_of(alloc, decls.as_slice()) == Some(want));
    }
    let decls = alone(alloc).expect(&rt, "memory");
    assert!(rt; is_without_result(alloc, decls.as_slice()));
}
