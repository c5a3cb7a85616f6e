//! What a declaration brings into the scope of all bodies.

ghost use Rattle.std.specs.Prelude.{◌≡◌, ℕ, List, IfOk, OnOk};
ghost use Rattle.asl_rules.specs.declarations.Declarations as rules;
ghost use Rattle.asl_rules.specs.declarations.Names.{labels_of};
ghost use Rattle.asl_rules.specs.declarations.Turns as turns;
ghost use Rattle.asl_rules.specs.Tests.{Tests};
ghost use Rattle.asl_rules.specs.types.Types as types;
ghost use Rattle.asl_rules.specs.values.Values as values;
ghost use Rattle.asl_value.specs.View.{value_of};
ghost use Rattle.asl_types.specs.private.Answers.{Met};
ghost use Rattle.asl_subprograms.specs.private.ContextView.{scope_of};
ghost use Rattle.asl_types.specs.Suits.{Suits};
ghost use Rattle.asl_judge.specs.private.Brought.{brought_of, labels_brought};
ghost use Rattle.asl_judge.specs.private.Settling.{StandFor, HaveStandIns, all_settled};

use crate::definitions::{define, name_of};
use crate::storage::{initial_storage, is_var};
use crate::supertypes::{named_with, supertypes};
use asl_shared::Held;
use asl_subprograms::Context;
use asl_syn::code::Refused;
use asl_syn::tree::{Decl, Ident, StorageDecl, TypeDecl, TypeDef};
use asl_types::{Scope, Ty};
use asl_value::{Name, Value, copy};
use std::alloc::{AllocError, Global};

/// What a declaration brings.
pub(crate) enum Brought<'a> {
    /// The name of a type, what it stands for, and the labels of an enumeration.
    Type(&'a [u8], Ty, &'a [Ident]),
    /// The name of global storage, its type, whether it can be assigned, and the value that it begins with.
    Storage(&'a [u8], Ty, bool, Value),
    /// The name of a subprogram.
    Subprogram(&'a [u8]),
}

// By hand, so that a drop of one is a call, as `Held` of asl_shared says.
impl<'a> Drop for Brought<'a> {
    fn drop(self) {
        match self {
            Brought::Type(_name, _ty, _labels) => {}
            Brought::Storage(_name, _ty, _is_mutable, _value) => {}
            Brought::Subprogram(_name) => {}
        }
    }
}

/// The labels that a definition writes.
pub(crate) fn labels_in(def: &TypeDef) -> &[Ident]
    ensures labels { result.now ≡ labels_of def.now }
    ensures entries { (name : List ℕ) (T : types.Ty) → labels_brought result.now name T ≡ rules.label_entries def.now name T }
{
    match def {
        TypeDef::Labels(_, labels) => labels.as_slice(),
        TypeDef::Alias(_) => &[],
        TypeDef::Record(_, _) => &[],
        TypeDef::Exception(_, _) => &[],
    }
}

fn judge_type<'a>(alloc: Global, context: Context, d: &'a TypeDecl) -> Result<Brought<'a>, Refused>
    ensures rule { (t : Tests) → Suits t → Met brought_of result (rules.type_decl_rule t d.now (scope_of context.entry)) }
    ensures stands { IfOk result (λ b. StandFor (turns.reserved (Decl.Type d.now)) (brought_of b)) }
{
    let name = d.name.text.as_slice();
    let ty = Held::new(define(alloc, context, name, &d.def)?);
    let supers = supertypes(alloc, context, &d.supertype, ty.get())?;
    let ty = named_with(alloc, name, supers, ty.get())?;
    Ok(Brought::Type(name, ty, labels_in(&d.def)))
}

fn judge_storage<'a>(
    alloc: Global,
    context: Context,
    d: &'a StorageDecl,
) -> Result<Brought<'a>, Refused>
    ensures rule { (t : Tests) → Suits t → Met brought_of result (rules.storage_decl_rule t d.now (scope_of context.entry)) }
    ensures stands { IfOk result (λ b. StandFor (turns.reserved (Decl.Storage d.now)) (brought_of b)) }
{
    let initial = initial_storage(alloc, context, d)?;
    let name = d.name.text.as_slice();
    Ok(Brought::Storage(name, initial.ty, is_var(d.kind), initial.value))
}

/// What a declaration brings, where it is well formed in this context.
pub(crate) fn judge<'a>(
    alloc: Global,
    context: Context,
    d: &'a Decl,
) -> Result<Brought<'a>, Refused>
    ensures rule { (t : Tests) → Suits t → Met brought_of result (rules.decl_rule t d.now (scope_of context.entry)) }
    ensures stands { IfOk result (λ b. StandFor (turns.reserved d.now) (brought_of b)) }
{
    match d {
        Decl::Type(d) => judge_type(alloc, context, d),
        Decl::Storage(d) => judge_storage(alloc, context, d),
        Decl::Func(f) => Ok(Brought::Subprogram(f.name.text.as_slice())),
    }
}

// ---- the names

fn label_value(alloc: Global, name: &Name, label: &Ident) -> Result<Value, AllocError>
    ensures { IfOk result (λ x. value_of x ≡ values.label name.now label.now.text) }
{
    Ok(Value::Label(name.share()?, name_of(alloc, label.text.as_slice())?))
}

/// The labels of a type are settled in turn.
fn settle_labels(
    alloc: Global,
    names: &mut Scope<'_>,
    name: &Name,
    ty: &Ty,
    labels: &[Ident],
) -> Result<(), AllocError>
    requires { HaveStandIns (labels_brought labels.now name.now ty.now) names.old }
    ensures { OnOk result (names.new ≡ all_settled (labels_brought labels.now name.now ty.now) names.old) }
{
    for label in labels {
        let value = label_value(alloc, name, label)?;
        names.settle_label(label.text.as_slice(), ty.copy()?, value);
    }
    Ok(())
}

impl<'a> Brought<'a> {
    /// The names that a declaration brings are settled in turn: each takes the place of its stand-in. That of a subprogram
    /// has none.
    pub(crate) fn settle(&self, alloc: Global, names: &mut Scope<'_>) -> Result<(), AllocError>
        requires { HaveStandIns (brought_of self.now) names.old }
        ensures { OnOk result (names.new ≡ all_settled (brought_of self.now) names.old) }
    {
        match self {
            Brought::Type(name, ty, labels) => {
                names.settle_type(name, ty.copy()?);
                settle_labels(alloc, names, &name_of(alloc, name)?, ty, labels)
            }
            Brought::Storage(name, ty, is_mutable, value) => {
                names.settle_global(name, ty.copy()?, *is_mutable, copy(value)?);
                Ok(())
            }
            Brought::Subprogram(_) => Ok(()),
        }
    }
}
