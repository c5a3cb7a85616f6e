//! The names that a body begins with.

ghost use Rattle.std.specs.Prelude.{◌≡◌, IfOk, IfErr, OnOk, option_map};
ghost use Rattle.asl_rules.specs.statements.Locals as locals;
ghost use Rattle.asl_rules.specs.declarations.Programs.{type_or_itself, param_entry};
ghost use Rattle.asl_rules.specs.declarations.Scopes as scopes;
ghost use Rattle.asl_rules.specs.declarations.Scopes.{with_entry};
ghost use Rattle.asl_rules.specs.types.Types.{integer_of, only_width};
ghost use Rattle.asl_types.specs.View.{parts_of};
ghost use Rattle.asl_decl.specs.Heads as rules;

use asl_poly::Atom;
use asl_subprograms::{Param, Signature};
use asl_syn::code::Refused;
use asl_syn::tree::{Formal, Func, Param as WrittenParam};
use asl_types::counting::{atom, counted_at, itself};
use asl_types::integers::{integers, only_width};
use asl_types::{Scope, Ty};
use std::alloc::{AllocError, Global};

// ---- parameters

/// The type of a parameter: where none is written, that of its own value.
fn param_type(alloc: Global, ty: Option<&Ty>, number: Atom) -> Result<Ty, AllocError>
    ensures { IfOk result (λ it. it ≡ type_or_itself (option_map (λ t. t.now) ty.entry) number) }
{
    match ty {
        Some(ty) => ty.copy(),
        None => {
            let width = atom(alloc, number)?;
            integers(alloc, only_width(alloc, &width)?)
        }
    }
}

/// The name of a parameter becomes visible.
pub(crate) fn declare_param<'a>(
    alloc: Global,
    names: &mut Scope<'a>,
    name: &'a [u8],
    param: &Param,
) -> Result<(), Refused>
    ensures declared { OnOk result (names.new ≡ with_entry (param_entry name.now param.now.ty param.now.atom) names.old) }
    ensures memory { IfErr result (λ e. e ≡ Refused.NoMemory) }
{
    let ty = param_type(alloc, param.ty(), param.atom())?;
    let counted = counted_at(alloc, param.atom())?;
    names.declare_fixed(name, ty, Some(counted))
}

/// The names of parameters become visible in order, each where it isn't.
fn declare_params<'a>(
    alloc: Global,
    names: &mut Scope<'a>,
    written: &'a [WrittenParam],
    params: &[Param],
) -> Result<(), Refused>
    ensures declared { OnOk result (names.new ≡ rules.params_declared written.now params.now names.old) }
    ensures memory { IfErr result (λ e. e ≡ Refused.NoMemory) }
{
    let mut rest = params;
    for p in written {
        match rest.split_first() {
            None => return Ok(()),
            Some((param, more)) => {
                declare_param(alloc, names, p.name.text.as_slice(), param)?;
                rest = more;
            }
        }
    }
    Ok(())
}

// ---- formals

/// The name of a formal becomes visible.
fn declare_formal<'a>(
    alloc: Global,
    names: &mut Scope<'a>,
    name: &'a [u8],
    ty: &Ty,
) -> Result<(), Refused>
    ensures declared { OnOk result (names.new ≡ with_entry (scopes.fixed name.now ty.now (locals.itself ty.now names.old)) names.old) }
    ensures memory { IfErr result (λ e. e ≡ Refused.NoMemory) }
{
    let counted = itself(alloc, ty, names)?;
    names.declare_fixed(name, ty.copy()?, counted)
}

/// The names of formals become visible in order, each where it isn't.
fn declare_formals<'a>(
    alloc: Global,
    names: &mut Scope<'a>,
    written: &'a [Formal],
    types: &[Ty],
) -> Result<(), Refused>
    ensures declared { OnOk result (names.new ≡ rules.formals_declared written.now (parts_of types.now) names.old) }
    ensures memory { IfErr result (λ e. e ≡ Refused.NoMemory) }
{
    let mut rest = types;
    for f in written {
        match rest.split_first() {
            None => return Ok(()),
            Some((ty, more)) => {
                declare_formal(alloc, names, f.name.text.as_slice(), ty)?;
                rest = more;
            }
        }
    }
    Ok(())
}

/// The names that a body begins with become visible, each where it isn't: the parameters and the formals of the
/// subprogram, with the types of its signature.
pub fn enter_body<'a>(
    alloc: Global,
    names: &mut Scope<'a>,
    f: &'a Func,
    signature: &Signature,
) -> Result<(), Refused>
    ensures declared { OnOk result (names.new ≡ rules.names_of_body f.now signature.now names.old) }
    ensures memory { IfErr result (λ e. e ≡ Refused.NoMemory) }
{
    declare_params(alloc, names, f.params.as_slice(), signature.params())?;
    declare_formals(alloc, names, f.formals.as_slice(), signature.formals())
}
