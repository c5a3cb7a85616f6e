//! The visible names and what they stand for.

ghost use Rattle.std.specs.Prelude.{◌≡◌, ◌*◌, true, false, [], Some, length, take, IfOk, OnOk, IfErr, IfSome};
ghost use Rattle.std.specs.Option.{option_map};
ghost use Rattle.asl_value.specs.View.{value_of};
ghost use Rattle.asl_rules.specs.declarations.Scopes as rules;
ghost use Rattle.asl_rules.specs.declarations.Scopes.{with_entry};
ghost use Rattle.asl_rules.specs.declarations.Layouts.{slot_of, local_names, global_names, layout_of};
ghost use Rattle.asl_types.specs.private.Standings.{storage_view, standing_view, value_behind, form_view, entry_view, storage_sort, is_outside, settled, slot_by, HasSlot};

use crate::ty::Ty;
use asl_poly::{Atom, Poly};
use asl_rules::effect::Effect;
use asl_rules::slot::Slot;
use asl_shared::Shared;
use asl_syn::code::Refused;
use asl_value::Value;
use indexmap::IndexMap;
use std::alloc::{AllocError, Global};
use std::marker::Model;
use std::mem;

/// What a name of a body counts as in widths: a polynomial, and whether the text that it stands for names an atom.
#[derive(Drop)]
pub struct Counted {
    poly: Shared<Poly>,
    has_atom: bool,
}

impl Model for Counted {
    ghost use Rattle.asl_rules.specs.declarations.Scopes.{Counted};

    ghost Value = { Counted };

    ghost view = { λ c. record { poly = c.poly; has_atom = c.has_atom } };
}

impl Counted {
    /// What counts as this polynomial.
    pub fn new(poly: Shared<Poly>, has_atom: bool) -> Counted
        ensures { result ≡ record { poly = poly; has_atom = has_atom } }
    {
        Counted { poly, has_atom }
    }

    /// The polynomial.
    pub fn poly(&self) -> &Poly
        ensures { result.now ≡ self.now.poly }
    {
        self.poly.get()
    }

    /// Whether the text that it stands for names an atom.
    pub fn has_atom(&self) -> bool
        ensures { result ≡ self.now.has_atom }
    {
        self.has_atom
    }

    /// The same, over the same polynomial.
    pub fn copy(&self) -> Result<Counted, AllocError>
        ensures { IfOk result (λ c. c ≡ self.now) }
    {
        Ok(Counted {
            poly: self.poly.share()?,
            has_atom: self.has_atom,
        })
    }
}

/// Storage: its type, where it is held, whether it can be assigned, the value that global storage begins with, and what an
/// immutable integer of a body counts as in widths.
#[derive(Clone, Copy)]
pub struct Storage<'s> {
    pub ty: &'s Ty,
    pub slot: Slot,
    pub is_mutable: bool,
    pub initial: Option<&'s Value>,
    pub counted: Option<&'s Counted>,
}

/// What a name stands for.
#[derive(Clone, Copy)]
pub enum Standing<'s> {
    Stored(Storage<'s>),
    Subprogram,
    /// A declared type.
    TypeName(&'s Ty),
    /// A label of an enumeration, with its type and its value.
    Label(&'s Ty, &'s Value),
}

/// What a name is declared as: storage of a body with its type, whether it can be assigned and what it counts as, storage
/// outside bodies with its first value, a subprogram, a type, or a label.
#[derive(Drop)]
enum Form {
    Local(Ty, bool, Option<Counted>),
    Global(Ty, bool, Value),
    Subprogram,
    TypeName(Ty),
    Label(Ty, Value),
}

/// The numbers of local storage and of global storage.
#[derive(Clone, Copy)]
struct Numbers {
    locals: usize,
    globals: usize,
}

/// What a name was declared as, and the numbers of the storage before it.
#[derive(Drop)]
struct Declared {
    form: Form,
    before: Numbers,
}

/// A name is declared as this from now on.
fn declare_as(d: &mut Declared, form: Form)
    ensures form { d.new.form ≡ form }
    ensures before { d.new.before ≡ d.old.before }
{
    drop(mem::replace(&mut d.form, form));
}

/// What a name stands for that was declared so.
fn standing_for(d: &Declared) -> Standing<'_>
    ensures view { standing_view result ≡ form_view d.now.form }
    ensures slot { HasSlot result (slot_by d.now.form d.now.before.locals d.now.before.globals) }
{
    match &d.form {
        Form::Local(ty, is_mutable, counted) => Standing::Stored(Storage {
            ty,
            slot: Slot::Local(d.before.locals),
            is_mutable: *is_mutable,
            initial: None,
            counted: counted.as_ref(),
        }),
        Form::Global(ty, is_mutable, value) => Standing::Stored(Storage {
            ty,
            slot: Slot::Global(d.before.globals),
            is_mutable: *is_mutable,
            initial: Some(value),
            counted: None,
        }),
        Form::Subprogram => Standing::Subprogram,
        Form::TypeName(ty) => Standing::TypeName(ty),
        Form::Label(ty, value) => Standing::Label(ty, value),
    }
}

/// The atom of the name behind so many names of bodies.
fn atom_behind(locals: usize) -> Atom
    ensures { result ≡ 2 * locals }
{
    Atom(2 * locals as u128)
}

/// The visible names, each once, the oldest first, and what they stand for. Contracts see the list of them. A name is
/// found, and those of a block that ends are dropped, without a walk over the others.
pub struct Scope<'a> {
    declared: IndexMap<&'a [u8], Declared>,
}

// By hand, so that a drop of one is a call, as `Held` of asl_shared says.
impl<'a> Drop for Scope<'a> {
    fn drop(self) {
        let Scope {
            declared: _declared,
        } = self;
    }
}

impl<'a> Model for Scope<'a> {
    ghost use Rattle.std.specs.Prelude.{List};
    ghost use Rattle.asl_rules.specs.declarations.Scopes.{Entry};
    ghost use Rattle.asl_types.specs.private.EntryCodes.{entries_code};

    ghost Value = { List Entry };

    ghost coded = { entries_code };

    ghost use Rattle.asl_types.specs.private.Standings.{entries_of, IsKept};

    ghost view = { λ v. entries_of v.declared.entries };

    ghost invariant = { λ v. IsKept v.declared.entries };
}

impl<'a> Scope<'a> {
    /// No names.
    pub fn new(alloc: Global) -> Scope<'a>
        ensures { result ≡ [] }
    {
        Scope {
            declared: IndexMap::new(alloc),
        }
    }

    /// The number of visible names.
    pub fn len(&self) -> usize
        ensures { result ≡ length self.now }
    {
        self.declared.len()
    }

    /// The numbers of local storage and of global storage among the visible names, as the last of them tells.
    fn numbers(&self) -> Numbers
        ensures locals { result.locals ≡ length (local_names self.now) }
        ensures globals { result.globals ≡ length (global_names self.now) }
    {
        let len = self.declared.len();
        let Some((_, d)) = self.declared.last() else {
            return Numbers {
                locals: 0,
                globals: 0,
            };
        };
        prove!(d.before.locals < len);
        prove!(d.before.globals < len);
        match &d.form {
            Form::Local(_, _, _) => Numbers {
                locals: d.before.locals + 1,
                globals: d.before.globals,
            },
            Form::Global(_, _, _) => Numbers {
                locals: d.before.locals,
                globals: d.before.globals + 1,
            },
            Form::Subprogram => d.before,
            Form::TypeName(_) => d.before,
            Form::Label(_, _) => d.before,
        }
    }

    /// The atom of the next name of a body.
    pub fn next_atom(&self) -> Atom
        ensures { result ≡ rules.next_atom self.now }
    {
        atom_behind(self.numbers().locals)
    }

    /// What a name stands for, where it is visible. Storage has the slot of its name.
    pub fn standing_of(&self, name: &[u8]) -> Option<Standing<'_>>
        ensures view { option_map standing_view result ≡ rules.standing_of name.now self.now }
        ensures slot { IfSome result (λ s. HasSlot s (slot_of name.now (layout_of self.now))) }
    {
        match self.declared.get(name) {
            None => None,
            Some(d) => Some(standing_for(d)),
        }
    }

    /// Whether a name isn't visible yet.
    pub fn is_free(&self, name: &[u8]) -> bool
        ensures { result ≡ rules.is_free name.now self.now }
    {
        match self.standing_of(name) {
            None => true,
            Some(_) => false,
        }
    }

    /// The storage that a name stands for, where it stands for some, with the slot of the name.
    pub fn storage_of(&self, name: &[u8]) -> Option<Storage<'_>>
        ensures view { option_map storage_view result ≡ rules.storage_of name.now self.now }
        ensures slot { IfSome result (λ s. s.slot ≡ slot_of name.now (layout_of self.now)) }
    {
        match self.standing_of(name) {
            None => None,
            Some(Standing::Stored(s)) => Some(s),
            Some(Standing::Subprogram) => None,
            Some(Standing::TypeName(_)) => None,
            Some(Standing::Label(_, _)) => None,
        }
    }

    /// The type of a declared name, where it is one.
    pub fn type_of_name(&self, name: &[u8]) -> Option<&Ty>
        ensures { option_map (λ ty. ty.now) result ≡ rules.type_of_name name.now self.now }
    {
        match self.standing_of(name) {
            None => None,
            Some(Standing::Stored(_)) => None,
            Some(Standing::Subprogram) => None,
            Some(Standing::TypeName(ty)) => Some(ty),
            Some(Standing::Label(_, _)) => None,
        }
    }

    /// A name becomes visible, where it isn't.
    fn declare(&mut self, name: &'a [u8], form: Form) -> Result<(), Refused>
        ensures declared { OnOk result (self.new ≡ with_entry (entry_view name.now form) self.old) }
        ensures memory { IfErr result (λ e. e ≡ Refused.NoMemory) }
    {
        if self.is_free(name) {
            let before = self.numbers();
            drop(self.declared.insert(name, Declared { form, before })?);
        } else {
            drop(form);
        }
        Ok(())
    }

    /// A name becomes visible, where it isn't, as storage of a body that can be assigned.
    pub fn declare_variable(&mut self, name: &'a [u8], ty: Ty) -> Result<(), Refused>
        ensures declared { OnOk result (self.new ≡ with_entry (rules.variable name.now ty) self.old) }
        ensures memory { IfErr result (λ e. e ≡ Refused.NoMemory) }
    {
        self.declare(name, Form::Local(ty, true, None))
    }

    /// A name becomes visible, where it isn't, as storage of a body that can't be assigned.
    pub fn declare_fixed(
        &mut self,
        name: &'a [u8],
        ty: Ty,
        counted: Option<Counted>,
    ) -> Result<(), Refused>
        ensures declared { OnOk result (self.new ≡ with_entry (rules.fixed name.now ty counted) self.old) }
        ensures memory { IfErr result (λ e. e ≡ Refused.NoMemory) }
    {
        self.declare(name, Form::Local(ty, false, counted))
    }

    /// A name becomes visible, where it isn't, as storage outside bodies that begins with this value.
    pub fn declare_global(
        &mut self,
        name: &'a [u8],
        ty: Ty,
        is_mutable: bool,
        value: Value,
    ) -> Result<(), Refused>
        ensures declared { OnOk result (self.new ≡ with_entry (rules.global name.now ty is_mutable (value_of value)) self.old) }
        ensures memory { IfErr result (λ e. e ≡ Refused.NoMemory) }
    {
        self.declare(name, Form::Global(ty, is_mutable, value))
    }

    /// A name becomes visible, where it isn't, as a subprogram.
    pub fn declare_subprogram(&mut self, name: &'a [u8]) -> Result<(), Refused>
        ensures declared { OnOk result (self.new ≡ with_entry (rules.subprogram name.now) self.old) }
        ensures memory { IfErr result (λ e. e ≡ Refused.NoMemory) }
    {
        self.declare(name, Form::Subprogram)
    }

    /// A name becomes visible, where it isn't, as a type.
    pub fn declare_type(&mut self, name: &'a [u8], ty: Ty) -> Result<(), Refused>
        ensures declared { OnOk result (self.new ≡ with_entry (rules.type_name name.now ty) self.old) }
        ensures memory { IfErr result (λ e. e ≡ Refused.NoMemory) }
    {
        self.declare(name, Form::TypeName(ty))
    }

    /// A name becomes visible, where it isn't, as a label of an enumeration.
    pub fn declare_label(&mut self, name: &'a [u8], ty: Ty, value: Value) -> Result<(), Refused>
        ensures declared { OnOk result (self.new ≡ with_entry (rules.label_name name.now ty (value_of value)) self.old) }
        ensures memory { IfErr result (λ e. e ≡ Refused.NoMemory) }
    {
        self.declare(name, Form::Label(ty, value))
    }

    /// A name that is visible stands for something else of its sort. It keeps its place, and all storage its slot.
    fn settle(&mut self, name: &[u8], form: Form)
        requires { option_map storage_sort (rules.standing_of name.now self.old) ≡ Some (storage_sort (form_view form)) }
        ensures { self.new ≡ settled name.now (form_view form) self.old }
    {
        match self.declared.get_mut(name) {
            None => drop(form),
            Some(d) => declare_as(d, form),
        }
    }

    /// A name that stands for a subprogram stands for a type.
    #[tactic(auto, using(crate::proofs::ScopeLemmas::subprogram_sort))]
    pub fn settle_type(&mut self, name: &[u8], ty: Ty)
        requires { rules.is_subprogram (rules.standing_of name.now self.old) ≡ true }
        ensures { self.new ≡ settled name.now (rules.TypeName ty) self.old }
    {
        self.settle(name, Form::TypeName(ty));
    }

    /// A name that stands for a subprogram stands for a label of an enumeration.
    #[tactic(auto, using(crate::proofs::ScopeLemmas::subprogram_sort))]
    pub fn settle_label(&mut self, name: &[u8], ty: Ty, value: Value)
        requires { rules.is_subprogram (rules.standing_of name.now self.old) ≡ true }
        ensures { self.new ≡ settled name.now (rules.Label ty (value_of value)) self.old }
    {
        self.settle(name, Form::Label(ty, value));
    }

    /// A name that stands for storage outside bodies stands for other such storage.
    #[tactic(auto, using(crate::proofs::ScopeLemmas::outside_sort))]
    pub fn settle_global(&mut self, name: &[u8], ty: Ty, is_mutable: bool, value: Value)
        requires { is_outside (rules.standing_of name.now self.old) ≡ true }
        ensures { self.new ≡ settled name.now (rules.global name.now ty is_mutable (value_of value)).standing self.old }
    {
        self.settle(name, Form::Global(ty, is_mutable, value));
    }

    /// The first `len` names stay visible.
    pub fn truncate(&mut self, len: usize)
        ensures { self.new ≡ take len self.old }
    {
        self.declared.truncate(len);
    }
}

impl<'s> Storage<'s> {
    /// The value of a constant or of a global `let`, which is known before any run.
    pub fn known(self) -> Option<&'s Value>
        ensures { value_behind result ≡ rules.known_value (storage_view self.entry) }
    {
        if self.is_mutable { None } else { self.initial }
    }
}

/// What reading storage does.
pub fn reading(s: Storage) -> Effect
    ensures { result ≡ rules.reading (storage_view s.entry) }
{
    match s.slot {
        Slot::Local(_) => Effect::Pure,
        Slot::Global(_) => {
            if s.is_mutable {
                Effect::Readonly
            } else {
                Effect::Pure
            }
        }
    }
}

/// What assigning storage does.
pub fn writing(s: Storage) -> Effect
    ensures { result ≡ rules.writing (storage_view s.entry) }
{
    match s.slot {
        Slot::Local(_) => Effect::Pure,
        Slot::Global(_) => Effect::Writes,
    }
}
