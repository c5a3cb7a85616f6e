//! The bodies of subprograms.

ghost use Rattle.std.specs.Prelude.{◌≡◌, List, map, IfOk, OnOk};
ghost use Rattle.asl_rules.specs.declarations.Programs as rules;
ghost use Rattle.asl_rules.specs.declarations.Scopes.{Entry};
ghost use Rattle.asl_rules.specs.Tests.{Tests};
ghost use Rattle.asl_types.specs.private.Answers.{Met};
ghost use Rattle.asl_types.specs.Suits.{Suits};
ghost use Rattle.asl_tree.specs.Acts.{all_acts};
ghost use Rattle.asl_tree.specs.Funcs.{func_of, all_funcs};
ghost use Rattle.asl_decl.specs.Heads.{head_of, heads_of};

use asl_blocks::body::{Body, Listed};
use asl_decl::enter_body;
use asl_falling::falls_through;
use asl_stmt::lists::check_stmts;
use asl_subprograms::{Param, Signature, Subprograms};
use asl_syn::code::{Refused, StaticCode};
use asl_syn::tree::Func;
use asl_tree::act::TreeFunc;
use asl_tree::body::TreeBody;
use asl_types::answer::fault;
use asl_types::{Scope, Ty};
use sqlite_items::Items;
use std::alloc::{AllocError, Global};

/// The types of parameters, where they are written.
fn param_types(alloc: Global, params: &[Param]) -> Result<Items<Option<Ty>>, AllocError>
    ensures { IfOk result (λ types. types ≡ rules.param_types params.now) }
{
    let mut types = Items::new(alloc);
    for p in params {
        let ty = match p.ty() {
            None => None,
            Some(ty) => Some(ty.copy()?),
        };
        types.push(ty)?;
    }
    Ok(types)
}

/// The same types again.
fn copy_types(alloc: Global, types: &[Ty]) -> Result<Items<Ty>, AllocError>
    ensures { IfOk result (λ copies. copies ≡ types.now) }
{
    let mut copies = Items::new(alloc);
    for ty in types {
        copies.push(ty.copy()?)?;
    }
    Ok(copies)
}

/// The types of the formals of a signature.
fn formals_of(alloc: Global, signature: &Signature) -> Result<Items<Ty>, AllocError>
    ensures { IfOk result (λ types. types ≡ rules.types_in signature.now.formals) }
{
    let copies = copy_types(alloc, signature.formals())?;
    Ok(copies)
}

/// The result of a signature.
fn result_of(signature: &Signature) -> Result<Option<Ty>, AllocError>
    ensures { IfOk result (λ ty. ty ≡ signature.now.result) }
{
    match signature.result() {
        None => Ok(None),
        Some(ty) => Ok(Some(ty.copy()?)),
    }
}

/// Whether the end of a body may be reached, as it stands: always in a procedure.
fn may_end(signature: &Signature, f: &Func) -> bool
    ensures { result ≡ rules.may_end signature.now.result f.now }
{
    match signature.result() {
        None => true,
        Some(_) => !falls_through(f.body.as_slice()),
    }
}

/// The subprogram of this signature with the typed trees of its body.
fn tree_func(
    alloc: Global,
    f: &Func,
    signature: &Signature,
    list: Listed,
) -> Result<TreeFunc, AllocError>
    ensures { (names : List Entry) → IfOk result (λ func. func_of func ≡ rules.tree_func (head_of names f.now signature.now) (all_acts list.acts)) }
{
    let Listed { acts, effect: _ } = list;
    let params = param_types(alloc, signature.params())?;
    let formals = formals_of(alloc, signature)?;
    let result = result_of(signature)?;
    Ok(TreeFunc {
        span: f.name.span,
        params,
        formals,
        result,
        limit: signature.limit(),
        body: TreeBody::new(acts.into_inner())?,
    })
}

/// A subprogram with the typed trees of its body: the statements are judged in order, and then T17 comes at its name where
/// the end of a function can be reached.
fn check_body<'a>(
    alloc: Global,
    names: &mut Scope<'a>,
    subs: &Subprograms,
    f: &'a Func,
    signature: &Signature,
) -> Result<TreeFunc, Refused>
    ensures rule { (t : Tests) → Suits t → Met func_of result (rules.body_rule t subs.now (head_of names.old f.now signature.now)) }
    ensures kept { OnOk result (names.new ≡ names.old) }
{
    let height = names.len();
    enter_body(alloc, names, f, signature)?;
    let body = Body {
        alloc,
        subs,
        class: signature.class(),
        result: result_of(signature)?,
        handles: false,
    };
    let list = check_stmts(names, &body, f.body.as_slice())?;
    names.truncate(height);
    if !may_end(signature, f) {
        return fault(StaticCode::T17, f.name.span);
    }
    Ok(tree_func(alloc, f, signature, list)?)
}

/// The bodies of subprograms with these signatures, in source order.
pub(crate) fn check_bodies<'a>(
    alloc: Global,
    names: &mut Scope<'a>,
    subs: &Subprograms,
    funcs: &[&'a Func],
) -> Result<Items<TreeFunc>, Refused>
    ensures rule { (t : Tests) → Suits t → Met all_funcs result (rules.bodies_rule t subs.now (heads_of names.old (map (λ f. f.now) funcs.now) subs.now)) }
    ensures kept { OnOk result (names.new ≡ names.old) }
{
    let mut trees = Items::new(alloc);
    let mut rest = subs.signatures();
    for f in funcs {
        let Some((signature, more)) = rest.split_first() else {
            return Ok(trees);
        };
        trees.push(check_body(alloc, names, subs, f, signature)?)?;
        rest = more;
    }
    Ok(trees)
}
