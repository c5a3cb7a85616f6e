//! The value of an expression over the values of the names that are visible.
ghost use Rattle.std.specs.Prelude.{◌≡◌, [], map, Err as TheErr};
ghost use Rattle.asl_bits.specs.declared.TheConstants.{WIDTH_LIMIT};
ghost use Rattle.asl_rules.specs.declarations.Constants.{constant, initial_value};
ghost use Rattle.asl_rules.specs.declarations.Declarations.{evaluated};
ghost use Rattle.asl_rules.specs.runs.Plans.{Pure};
ghost use Rattle.asl_rules.specs.runs.Pures as pures;
ghost use Rattle.asl_rules.specs.declarations.Scopes.{standing_of};
ghost use Rattle.asl_rules.specs.values.Values.{Value as TheValue};
ghost use Rattle.asl_types.specs.private.Answers.{Met};
ghost use Rattle.asl_value.specs.View.{value_of};
ghost use Rattle.asl_const.specs.private.Finds.{Finds, known_after};
ghost use Rattle.asl_const.specs.private.Gathered.{constants};

use crate::applying::{
    Decision, barred, branch, decide, element, is_in, of_one, of_two, sliced, truth_of, tuple_of,
};
use crate::constructing::construct_named;
use crate::conversions::convert;
use crate::failure::{Mistake, Unknown};
use crate::fields::{bits_of_fields, field_of};
use crate::inside;
use asl_syn::code::{Fault, Refused, StaticCode};
use asl_syn::token::Span;
use asl_syn::tree::Expr;
use asl_types::{Scope, Standing};
use asl_value::{Value, copy, literal, literal_bits};
use sqlite_items::Items;
use std::alloc::Global;

/// The value of an expression where these names are visible. Storage counts with the value that it begins with. It has none
/// where its evaluation faults: T04 at the node that does, with the code of the fault; nor where a name has no value, or a
/// subprogram is called: T04 there, without a code.
pub fn eval_const(alloc: Global, names: &Scope, e: &Expr) -> Result<Value, Refused>
    ensures { Met value_of result (evaluated (constant WIDTH_LIMIT e.now names.now)) }
{
    match eval(alloc, names, e) {
        Ok(value) => Ok(value),
        Err(unknown) => Err(refused(unknown)),
    }
}

/// T04 at the node that has no value, with the code of its fault.
fn refused(unknown: Unknown) -> Refused
    ensures { (r : Pure TheValue) → Finds value_of (TheErr unknown) r → Met value_of (TheErr result) (evaluated r) }
{
    let (inner, span) = match unknown {
        Unknown::NoMemory => return Refused::NoMemory,
        Unknown::Fault(code, span) => (Some(code), span),
        Unknown::Stuck(_, span) => (None, span),
    };
    Refused::At(Fault {
        code: StaticCode::T04,
        inner,
        span,
    })
}

/// The value of a name.
fn eval_name(names: &Scope, span: Span, name: &[u8]) -> Result<Value, Unknown>
    ensures { Finds value_of result (pures.known span (initial_value (standing_of name.now names.now))) }
{
    match names.standing_of(name) {
        Some(Standing::Stored(storage)) => match storage.initial {
            Some(value) => Ok(copy(value)?),
            None => Err(Unknown::Stuck(Mistake::UnknownName, span)),
        },
        Some(Standing::Label(_, value)) => Ok(copy(value)?),
        Some(Standing::Subprogram) | Some(Standing::TypeName(_)) | None => {
            Err(Unknown::Stuck(Mistake::UnknownName, span))
        }
    }
}

/// The value of an expression.
#[cycle(eval)]
fn eval(alloc: Global, names: &Scope, e: &Expr) -> Result<Value, Unknown>
    ensures { Finds value_of result (constant WIDTH_LIMIT e.now names.now) }
{
    match e {
        Expr::Int(span, n) => Ok(literal(*span, *n)?),
        Expr::Bits(span, text) => Ok(literal_bits(alloc, *span, text.as_slice())?),
        Expr::Bool(_, b) => Ok(Value::Bool(*b)),
        Expr::Name(span, name) => eval_name(names, *span, name.as_slice()),
        Expr::Unary(span, operator, a) => {
            let x = eval(alloc, names, a.get())?;
            of_one(alloc, *span, *operator, x)
        }
        Expr::Binary(span, operator, a, b) => {
            let x = eval(alloc, names, a.get())?;
            match decide(*span, *operator, x)? {
                Decision::Already(r) => Ok(Value::Bool(r)),
                Decision::ByRight(x) => {
                    of_two(alloc, *span, *operator, x, eval(alloc, names, b.get()))
                }
            }
        }
        Expr::Conditional(span, e, a, b) => {
            let x = eval(alloc, names, e.get())?;
            if truth_of(*span, x)? {
                branch(alloc, eval(alloc, names, a.get()))
            } else {
                branch(alloc, eval(alloc, names, b.get()))
            }
        }
        Expr::Tuple(_, parts) => {
            let inside = inside::of_list(alloc, parts.as_slice())?;
            tuple_of(alloc, eval_all(alloc, names, inside.as_slice()))
        }
        Expr::Construct(span, name, fields) => {
            let fields = fields.as_slice();
            let inside = inside::of_fields(alloc, fields)?;
            let values = eval_all(alloc, names, inside.as_slice());
            construct_named(alloc, names, *span, name.text.as_slice(), fields, values)
        }
        Expr::Call(span, _, params, args) => {
            let params = inside::of_list(alloc, params.as_slice())?;
            let args = inside::of_list(alloc, args.as_slice())?;
            let params = eval_all(alloc, names, params.as_slice());
            barred(*span, params, eval_all(alloc, names, args.as_slice()))
        }
        Expr::Field(span, a, name) => {
            let x = eval(alloc, names, a.get())?;
            field_of(alloc, *span, name.text.as_slice(), x)
        }
        Expr::Fields(span, a, fields) => {
            let x = eval(alloc, names, a.get())?;
            bits_of_fields(alloc, *span, fields.as_slice(), x)
        }
        Expr::Slices(span, a, slices) => {
            let slices = slices.as_slice();
            let inside = inside::of_slices(alloc, slices)?;
            let x = eval(alloc, names, a.get())?;
            let values = eval_all(alloc, names, inside.as_slice());
            sliced(alloc, *span, slices, x, values)
        }
        Expr::Element(span, a, i) => {
            let x = eval(alloc, names, a.get())?;
            element(*span, x, eval(alloc, names, i.get()))
        }
        Expr::As(span, a, ty) => {
            let inside = inside::of_type(alloc, ty.get())?;
            let x = eval(alloc, names, a.get())?;
            let values = eval_all(alloc, names, inside.as_slice());
            convert(alloc, names, *span, ty.get(), x, values)
        }
        Expr::In(_, a, pattern) => {
            let inside = inside::of_pattern(alloc, pattern.get())?;
            let x = eval(alloc, names, a.get())?;
            let values = eval_all(alloc, names, inside.as_slice());
            is_in(alloc, pattern.get(), x, values)
        }
    }
}

/// The values of expressions in order.
#[cycle(eval)]
fn eval_all(alloc: Global, names: &Scope, es: &[&Expr]) -> Result<Items<Value>, Unknown>
    ensures { Finds (map value_of) result (known_after [] (constants es.now) names.now) }
{
    let mut values = Items::new(alloc);
    for e in es {
        values.push(eval(alloc, names, e)?)?;
    }
    Ok(values)
}
