//! Subprograms: what calls need of each, and the one that a call chooses.

ghost use Rattle.std.specs.Prelude.{◌≡◌, ℕ, ◌++◌, [], ◌∷◌, Some, length, take, slice_get, option_map, IfOk, OnOk, OnErr};
ghost use Rattle.asl_subprograms.specs.private.Chains.{last_of, or_found, taken_by};
ghost use Rattle.asl_rules.specs.declarations.Scopes as rules;
ghost use Rattle.asl_rules.specs.types.Types as types;
ghost use Rattle.asl_types.specs.View.{parts_of};

use asl_poly::Atom;
use asl_rules::effect::Effect;
use asl_types::Ty;
use asl_types::kinds::same_kinds;
use asl_value::Name;
use indexmap::IndexMap;
use sqlite_items::Items;
use std::alloc::{AllocError, Global};
use std::marker::Model;

/// A parameter of a subprogram: the atom of its name, and its type where one is written.
#[derive(Drop)]
pub struct Param {
    atom: Atom,
    ty: Option<Ty>,
}

impl Model for Param {
    ghost use Rattle.asl_rules.specs.declarations.Scopes.{Param};
    ghost use Rattle.asl_subprograms.specs.private.SignatureCodes.{param_code};

    ghost Value = { Param };

    ghost coded = { param_code };

    ghost view = { λ p. record { atom = p.atom; ty = p.ty } };
}

impl Param {
    /// The parameter whose name has this atom.
    pub fn new(atom: Atom, ty: Option<Ty>) -> Param
        ensures { result ≡ record { atom = atom; ty = ty } }
    {
        Param { atom, ty }
    }

    /// The atom of its name.
    pub fn atom(&self) -> Atom
        ensures { result ≡ self.now.atom }
    {
        self.atom
    }

    /// Its type, where one is written.
    pub fn ty(&self) -> Option<&Ty>
        ensures { option_map (λ ty. ty.now) result ≡ self.now.ty }
    {
        self.ty.as_ref()
    }
}

/// What calls need of a subprogram. It is a procedure where it has no result.
#[derive(Drop)]
pub struct Signature {
    name: Name,
    class: Effect,
    params: Items<Param>,
    formals: Items<Ty>,
    result: Option<Ty>,
    limit: i128,
}

impl Model for Signature {
    ghost use Rattle.asl_rules.specs.declarations.Scopes.{Signature};
    ghost use Rattle.asl_subprograms.specs.private.SignatureCodes.{signature_code};
    ghost use Rattle.asl_types.specs.View.{parts_of};

    ghost Value = { Signature };

    ghost coded = { signature_code };

    ghost view = { λ f. record { name = f.name; class = f.class; params = f.params; formals = parts_of f.formals; result = f.result; limit = f.limit } };
}

impl Signature {
    /// The subprogram of this name and this class, with its parameters, the types of its formals, its result, and how often
    /// it may be active at one time.
    pub fn new(
        name: Name,
        class: Effect,
        params: Items<Param>,
        formals: Items<Ty>,
        returns: Option<Ty>,
        limit: i128,
    ) -> Signature
        ensures { result ≡ record { name = name; class = class; params = params; formals = parts_of formals; result = returns; limit = limit } }
    {
        Signature {
            name,
            class,
            params,
            formals,
            result: returns,
            limit,
        }
    }

    /// Its name.
    pub fn name(&self) -> &Name
        ensures { result.now ≡ self.now.name }
    {
        &self.name
    }

    /// Its class: the greatest effect of its body.
    pub fn class(&self) -> Effect
        ensures { result ≡ self.now.class }
    {
        self.class
    }

    /// Its parameters.
    pub fn params(&self) -> &[Param]
        ensures { result.now ≡ self.now.params }
    {
        self.params.as_slice()
    }

    /// The types of its formals.
    pub fn formals(&self) -> &[Ty]
        ensures { parts_of result.now ≡ self.now.formals }
    {
        self.formals.as_slice()
    }

    /// The type of its result, where it has one.
    pub fn result(&self) -> Option<&Ty>
        ensures { option_map (λ ty. ty.now) result ≡ self.now.result }
    {
        self.result.as_ref()
    }

    /// How often it may be active at one time.
    pub fn limit(&self) -> i128
        ensures { result ≡ self.now.limit }
    {
        self.limit
    }
}

/// The subprograms of a program, in source order. Contracts see the list of their signatures. Those of one name are found
/// without a walk over the others.
pub struct Subprograms {
    signatures: Items<Signature>,
    /// For each, the number of the next older one of its name, where there is one.
    older: Items<Option<usize>>,
    /// For each name the number of the last that has it.
    newest: IndexMap<Vec<u8>, usize>,
    alloc: Global,
}

// By hand, so that a drop of one is a call, as `Held` of asl_shared says.
impl Drop for Subprograms {
    fn drop(self) {
        let Subprograms {
            signatures: _signatures,
            older: _older,
            newest: _newest,
            alloc: _alloc,
        } = self;
    }
}

impl Model for Subprograms {
    ghost use Rattle.std.specs.Prelude.{List};
    ghost use Rattle.asl_rules.specs.declarations.Scopes.{Signature};
    ghost use Rattle.asl_subprograms.specs.private.SignatureCodes.{signatures_code};

    ghost Value = { List Signature };

    ghost coded = { signatures_code };

    ghost use Rattle.asl_subprograms.specs.private.Chains.{IsLinked};

    ghost view = { λ s. s.signatures };

    ghost invariant = { λ s. IsLinked s.signatures s.older s.newest.entries };
}

/// The first of the signatures of this name whose formals have the kinds of these types, with its number; the last of the name
/// is given, and for each signature the next older one of its name.
fn choose_from<'s>(
    signatures: &'s [Signature],
    older: &[Option<usize>],
    newest: Option<usize>,
    name: &[u8],
    arguments: &[Ty],
) -> Option<(usize, &'s Signature)>
    requires many { length older.now ≡ length signatures.now }
    requires links { (i : ℕ) (g : rules.Signature) → slice_get signatures.now i ≡ Some g → slice_get older.now i ≡ Some (last_of g.name (take i signatures.now)) }
    requires last { newest ≡ last_of name.now signatures.now }
    ensures { option_map (λ p. record { number = p.0; signature = p.1.now }) result ≡ rules.choose name.now (parts_of arguments.now) signatures.now }
{
    let count = signatures.len();
    let links = older.len();
    let mut found = None;
    let mut at = newest;
    while let Some(number) = at {
        prove!(number < count);
        prove!(number < links);
        found = earlier(number, &signatures[number], arguments, found);
        at = older[number];
    }
    found
}

/// A signature with its number where its formals have the kinds of these types, and else what was found behind it.
fn earlier<'s>(
    number: usize,
    signature: &'s Signature,
    arguments: &[Ty],
    later: Option<(usize, &'s Signature)>,
) -> Option<(usize, &'s Signature)>
    ensures { option_map (λ p. record { number = p.0; signature = p.1.now }) result ≡ or_found (taken_by (types.same_kinds signature.now.formals (parts_of arguments.now)) number signature.now) (option_map (λ p. record { number = p.0; signature = p.1.now }) later.entry) }
{
    if same_kinds(signature.formals(), arguments) {
        Some((number, signature))
    } else {
        later
    }
}

/// The bytes of a name, as a key.
fn key_of(alloc: Global, name: &[u8]) -> Result<Vec<u8>, AllocError>
    ensures { IfOk result (λ key. key.items ≡ name.now) }
{
    name.to_vec(alloc)
}

impl Subprograms {
    /// No subprograms.
    #[tactic(auto, using(crate::proofs::ChainLemmas::none_linked))]
    pub fn new(alloc: Global) -> Subprograms
        ensures { result ≡ [] }
    {
        Subprograms {
            signatures: Items::new(alloc),
            older: Items::new(alloc),
            newest: IndexMap::new(alloc),
            alloc,
        }
    }

    /// A further subprogram, behind the others.
    pub fn push(&mut self, signature: Signature) -> Result<(), AllocError>
        ensures ok { OnOk result (self.new ≡ self.old ++ signature ∷ []) }
        ensures err { OnErr result (self.new ≡ self.old) }
    {
        let key = key_of(self.alloc, signature.name.get().as_slice())?;
        let last = self.newest.get(key.as_slice()).copied();
        let number = self.signatures.len();
        self.older.push(last)?;
        match self.signatures.push(signature) {
            Ok(()) => {}
            Err(_) => {
                self.older.pop();
                return Err(AllocError);
            }
        }
        match self.newest.insert(key, number) {
            Ok(_) => Ok(()),
            Err(_) => {
                drop(self.signatures.pop());
                self.older.pop();
                Err(AllocError)
            }
        }
    }

    /// The signatures in source order.
    pub fn signatures(&self) -> &[Signature]
        ensures { result.now ≡ self.now }
    {
        self.signatures.as_slice()
    }

    /// The overload of this name whose formals have the kinds of these types, with its number in source order, from 0;
    /// `None` where there is none.
    pub fn choose(&self, name: &[u8], arguments: &[Ty]) -> Option<(usize, &Signature)>
        ensures { option_map (λ p. record { number = p.0; signature = p.1.now }) result ≡ rules.choose name.now (parts_of arguments.now) self.now }
    {
        let newest = self.newest.get(name).copied();
        choose_from(
            self.signatures.as_slice(),
            self.older.as_slice(),
            newest,
            name,
            arguments,
        )
    }
}
