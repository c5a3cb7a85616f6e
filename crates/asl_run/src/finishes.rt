//! What is done with the value of one expression, and what a variable begins with.
ghost use Rattle.std.specs.Prelude.{◌≡◌, ◌+◌, ◌≤◌, ◌∷◌, [], Bool, List, Some, length, map, replicate, IfOk, OnOk};
ghost use Rattle.asl_rules.specs.private.ByPlace.{seen_where as rule_seen};
ghost use Rattle.asl_rules.specs.runs.Plans.{Good, lift};
ghost use Rattle.asl_rules.specs.runs.StatementForms as forms;
ghost use Rattle.asl_rules.specs.private.TypedMeaning as rules;
ghost use Rattle.asl_rules.specs.values.Values as values;
ghost use Rattle.asl_tree.specs.Acts.{taken_of};
ghost use Rattle.asl_tree.specs.private.Room.{names_taken, parts_taken};
ghost use Rattle.asl_value.specs.View.{value_of};
ghost use Rattle.asl_branches.specs.declared.run.Run.{Run};
ghost use Rattle.asl_branches.specs.Meets.{Acts, Grows, Keeps, NoneRefused, SameBut};
ghost use Rattle.asl_branches.specs.View.{core_of, height_of, room_of};
ghost use Rattle.asl_run.specs.declared.finishes.After.TheVariants as done;
ghost use Rattle.asl_run.specs.private.Finishes.{finished, begun, named_after, parts_pushed, tuple_pushed};
ghost use Rattle.asl_syn.specs.declared.token.Span.{Span};

use asl_branches::lists::push;
use asl_branches::run::Run;
use asl_branches::stop::{Exit, Mistake, Stop};
use asl_shape::{TypeShape, first_of};
use asl_shared::Held;
use asl_syn::code::DynCode;
use asl_syn::token::Span;
use asl_tree::act::Taken;
use asl_types::Ty;
use asl_types::seeing::see;
use asl_value::{Value, copy, truth};
use std::alloc::{AllocError, Global};

/// What is done with the value of an expression.
#[derive(Clone, Copy)]
pub enum After<'r> {
    /// `assert e;`
    Assert(Span),
    /// `let` or `var` with an initialiser: the type that is written, where one is.
    Declare(Span, &'r Option<Ty>, &'r Taken),
    /// `return e;`
    Return,
    /// `throw e;`
    Throw(Span),
}

/// `var x, y: T;`: how many names it declares, where its type is written, and the type.
#[derive(Clone, Copy)]
pub struct First<'r> {
    pub span: Span,
    pub count: usize,
    pub whole: Span,
    pub shape: &'r TypeShape,
}

/// Does what is done with a value.
pub fn finish(alloc: Global, run: &mut Run, after: After, x: Value) -> Result<Exit, Stop>
    requires room { named_after after ≤ room_of run.old }
    ensures acts { Acts result (finished after.entry (value_of x)) run.old run.new }
    ensures none_refused { NoneRefused result }
    ensures keeps { Keeps result run.old run.new }
    ensures grows { Grows (Some (named_after after.entry)) result run.old run.new }
{
    match after {
        After::Assert(span) => holds(span, x),
        After::Declare(span, ty, taken) => declare(alloc, run, span, ty, taken, x),
        After::Return => Ok(Exit::Returned(Some(x))),
        After::Throw(span) => throw(span, x),
    }
}

fn holds(span: Span, x: Value) -> Result<Exit, Stop>
    ensures acts { (run : Run) → Acts result (finished (done.Assert span) (value_of x)) run run }
    ensures none_refused { NoneRefused result }
{
    let x = Held::new(x);
    if truth(span, x.get())? {
        Ok(Exit::Normal)
    } else {
        Err(Stop::Fault(DynCode::D08, span))
    }
}

fn throw(span: Span, x: Value) -> Result<Exit, Stop>
    ensures acts { (run : Run) → Acts result (forms.thrown span (value_of x)) run run }
    ensures none_refused { NoneRefused result }
{
    match x {
        Value::Exception(own, supers, name, fields) => Err(Stop::Thrown(Value::Exception(
            own, supers, name, fields,
        ))),
        _ => Err(Stop::Stuck(Mistake::WrongKind, span)),
    }
}

/// Declares what is taken of a value, each in the next place of the frame.
fn declare(
    alloc: Global,
    run: &mut Run,
    span: Span,
    ty: &Option<Ty>,
    taken: &Taken,
    x: Value,
) -> Result<Exit, Stop>
    requires room { names_taken (taken_of taken.now) ≤ room_of run.old }
    ensures acts { Acts result (finished (done.Declare span ty.entry taken.entry) (value_of x)) run.old run.new }
    ensures none_refused { NoneRefused result }
    ensures keeps { Keeps result run.old run.new }
    ensures grows { Grows (Some (names_taken (taken_of taken.now))) result run.old run.new }
{
    let x = Held::new(seen_where(alloc, ty, x)?);
    match taken {
        Taken::Nothing => Ok(Exit::Normal),
        Taken::Whole => {
            push(run, x.into_inner());
            Ok(Exit::Normal)
        }
        Taken::InParts(names) => declare_tuple(run, span, names.as_slice(), x.get()),
    }
}

/// A value with the bitfields of the type that is written for it, where one is.
fn seen_where(alloc: Global, ty: &Option<Ty>, x: Value) -> Result<Value, AllocError>
    ensures { IfOk result (λ it. value_of it ≡ rule_seen ty.now (value_of x)) }
{
    match ty {
        None => Ok(x),
        Some(ty) => {
            let x = Held::new(x);
            see(alloc, ty, x.get())
        }
    }
}

/// Declares the parts of a tuple that have a name, where there are as many.
fn declare_tuple(run: &mut Run, span: Span, named: &[bool], x: &Value) -> Result<Exit, Stop>
    requires room { parts_taken named.now ≤ room_of run.old }
    ensures acts { Acts result
        (λ c. lift (tuple_pushed span named.now (value_of x.now) c) c forms.done_normal)
        run.old run.new }
    ensures none_refused { NoneRefused result }
    ensures keeps { Keeps result run.old run.new }
    ensures grows { Grows (Some (parts_taken named.now)) result run.old run.new }
{
    match x {
        Value::Tuple(parts) => declare_parts(run, span, named, parts.get().as_slice()),
        _ => Err(Stop::Stuck(Mistake::WrongKind, span)),
    }
}

/// Declares the parts that have a name, where there are as many.
fn declare_parts(run: &mut Run, span: Span, named: &[bool], parts: &[Value]) -> Result<Exit, Stop>
    requires room { parts_taken named.now ≤ room_of run.old }
    ensures acts { Acts result
        (λ c. lift (parts_pushed span named.now (map value_of parts.now) c) c forms.done_normal)
        run.old run.new }
    ensures none_refused { NoneRefused result }
    ensures keeps { Keeps result run.old run.new }
    ensures grows { Grows (Some (parts_taken named.now)) result run.old run.new }
{
    if named.len() != parts.len() {
        return Err(Stop::Stuck(Mistake::WrongKind, span));
    }
    push_named(run, named, parts)?;
    Ok(Exit::Normal)
}

/// The parts that have a name, of as many, each in the next place.
#[tactic(auto, using(crate::proofs::Taking::parts_ended))]
fn push_named(run: &mut Run, named: &[bool], parts: &[Value]) -> Result<(), AllocError>
    requires as_many { length named.now ≡ length parts.now }
    requires room { parts_taken named.now ≤ room_of run.old }
    ensures ok { OnOk result ((span : Span)
        → parts_pushed span named.now (map value_of parts.now) (core_of run.old)
        ≡ Good (core_of run.new)) }
    ensures round { SameBut run.old run.new }
    ensures height { OnOk result (height_of run.new ≡ parts_taken named.now + height_of run.old) }
{
    let mut i = 0;
    while i < parts.len() {
        push_part(run, named[i], &parts[i])?;
        i += 1;
    }
    Ok(())
}

/// A part takes the next place, where it has a name.
#[tactic(auto, using(crate::proofs::Taking::part_then))]
fn push_part(run: &mut Run, is_named: bool, part: &Value) -> Result<(), AllocError>
    requires room { parts_taken (is_named ∷ []) ≤ room_of run.old }
    ensures ok { OnOk result ((span : Span) (others : List Bool) (xs : List values.Value)
        → parts_pushed span (is_named ∷ others) (value_of part.now ∷ xs) (core_of run.old)
        ≡ parts_pushed span others xs (core_of run.new)) }
    ensures round { SameBut run.old run.new }
    ensures height { OnOk result (height_of run.new ≡ parts_taken (is_named ∷ []) + height_of run.old) }
{
    if is_named {
        push(run, copy(part)?);
        Ok(())
    } else {
        Ok(())
    }
}

/// Declares so many places with the first value of a type.
pub fn begin(alloc: Global, run: &mut Run, first: First, sizes: &[Value]) -> Result<Exit, Stop>
    requires room { first.count ≤ room_of run.old }
    ensures acts { Acts result (begun first.entry (map value_of sizes.now)) run.old run.new }
    ensures none_refused { NoneRefused result }
    ensures keeps { Keeps result run.old run.new }
    ensures grows { Grows (Some first.entry.count) result run.old run.new }
{
    let x = Held::new(first_of(alloc, first.span, first.whole, first.shape, sizes)?);
    push_times(run, first.count, x.get())?;
    Ok(Exit::Normal)
}

/// So many places take a copy of this value.
#[tactic(auto, using(crate::proofs::Slots::one_more, crate::proofs::Slots::none_more))]
fn push_times(run: &mut Run, count: usize, value: &Value) -> Result<(), AllocError>
    requires room { count ≤ room_of run.old }
    ensures ok { OnOk result
        (core_of run.new ≡ rules.with_next (replicate count (value_of value.now)) (core_of run.old)) }
    ensures round { SameBut run.old run.new }
    ensures height { OnOk result (height_of run.new ≡ count + height_of run.old) }
{
    let mut left = count;
    while left > 0 {
        push(run, copy(value)?);
        left -= 1;
    }
    Ok(())
}
