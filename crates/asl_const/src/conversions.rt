//! Values that are converted to written types.
ghost use Rattle.std.specs.Prelude.{◌≡◌, [], List, map, option_map};
ghost use Rattle.asl_bits.specs.declared.TheConstants.{WIDTH_LIMIT};
ghost use Rattle.asl_rules.specs.runs.ByNames.{types_among};
ghost use Rattle.asl_rules.specs.declarations.Constants.{Known};
ghost use Rattle.asl_rules.specs.declarations.Scopes.{Entry};
ghost use Rattle.asl_rules.specs.types.Written.{converted as converted_to};
ghost use Rattle.asl_shape.specs.View.{type_of};
ghost use Rattle.asl_value.specs.View.{value_of};
ghost use Rattle.asl_const.specs.private.Finds.{Finds, known_after, known_type, with_all};

use crate::failure::{Mistake, Unknown};
use crate::shapes::type_shape;
use asl_converts::converted;
use asl_shape::TypeShape;
use asl_shared::Held;
use asl_syn::token::Span;
use asl_syn::tree::TypeExpr;
use asl_types::Scope;
use asl_value::Value;
use sqlite_items::Items;
use std::alloc::Global;

/// A value that is converted to a written type, whose expressions have these values in order.
#[tactic(auto, using(crate::proofs::InOrder::all_good, crate::proofs::InOrder::all_bad))]
pub(crate) fn convert(
    alloc: Global,
    names: &Scope,
    span: Span,
    ty: &TypeExpr,
    x: Value,
    values: Result<Items<Value>, Unknown>,
) -> Result<Value, Unknown>
    ensures { (es : List Known) (entries : List Entry) → Finds (map value_of) values (known_after [] es entries) → Finds value_of result (with_all span es entries (λ zs. converted_to WIDTH_LIMIT span ((known_type ty.now).shape (types_among names.now)) zs (value_of x))) }
{
    let x = Held::new(x);
    let values = Held::new(values?);
    let shape = Held::new(type_shape(alloc, names, ty)?);
    convert_to(alloc, span, shape.get(), values.get().as_slice(), x.get())
}

/// A value that is converted to a type, where it is one.
fn convert_to(
    alloc: Global,
    span: Span,
    shape: &Option<TypeShape>,
    values: &[Value],
    x: &Value,
) -> Result<Value, Unknown>
    ensures { Finds value_of result (converted_to WIDTH_LIMIT span (option_map type_of shape.now) (map value_of values.now) (value_of x.now)) }
{
    match shape {
        None => Err(Unknown::Stuck(Mistake::UnknownType, span)),
        Some(shape) => Ok(converted(alloc, span, shape, values, x)?),
    }
}
