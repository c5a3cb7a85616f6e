//! Widths and written types by the visible names alone.
use asl_syn::code::{Fault, Refused, StaticCode};
use asl_syn::token::Span;
use asl_syn::tree::{Expr, Text, TypeExpr};
use asl_types::Scope;
use asl_widths::width_of;
use asl_written::ty_of;
use sqlite_items::Items;
use std::alloc::{AllocError, Global};

/// The place of what is asked for.
const PLACE: Span = Span {
    file: 0,
    start: 7,
    len: 1,
};

fn text(alloc: Global, name: &str) -> Result<Text, AllocError> {
    Items::from_slice(alloc, name.as_bytes())
}

/// The number that a width is where no name is visible.
fn number_of(alloc: Global, e: &Expr) -> Option<i128> {
    match width_of(alloc, e, &Scope::new(alloc)) {
        Ok(width) => width.as_constant(),
        Err(_) => None,
    }
}

/// The fault of a written type where no name is visible.
fn fault_of(alloc: Global, ty: &TypeExpr) -> Option<Fault> {
    match ty_of(alloc, ty, &Scope::new(alloc)).err() {
        Some(Refused::At(fault)) => Some(fault),
        Some(Refused::NoMemory) => None,
        None => None,
    }
}

#[test]
fn widths_and_types_by_names_alone(rt: HostRuntime) {
    let alloc = rt.alloc();
    let unknown = Fault {
        code: StaticCode::T02,
        inner: None,
        span: PLACE,
    };
    let name = text(alloc, "T").expect(&rt, "memory");
    assert!(rt; number_of(alloc, &Expr::Int(PLACE, 8)) == Some(8));
    assert!(rt; fault_of(alloc, &TypeExpr::BooleanType(PLACE)).is_none());
    assert!(rt; fault_of(alloc, &TypeExpr::NamedType(PLACE, name)) == Some(unknown));
}
