//! The ends of expressions: their operands may stand together, and they keep to the class of their body.

ghost use Rattle.std.specs.Prelude.{◌≡◌};
ghost use Rattle.asl_rules.specs.types.Effects as rules;
ghost use Rattle.asl_rules.specs.Faults.{need};
ghost use Rattle.asl_rules.specs.expressions.Typing.{effects_of};
ghost use Rattle.asl_types.specs.private.Answers.{Met};
ghost use Rattle.asl_tree.specs.View.{all_operands};

use asl_allowed::effects::{at_most, greater, together};
use asl_rules::effect::Effect;
use asl_syn::code::{Refused, StaticCode};
use asl_syn::token::Span;
use asl_tree::tree::Tree;
use asl_types::answer::fault;

/// Whether operands may stand together: T13 where they may not.
pub fn stand_together(span: Span, may: bool) -> Result<(), Refused>
    ensures { Met (λ u. u) result (need may StaticCode.T13 span) }
{
    if !may {
        return fault(StaticCode::T13, span);
    }
    Ok(())
}

/// Whether an effect keeps to the class of its body: T12 where it passes it.
pub fn keep_class(class: Effect, span: Span, effect: Effect) -> Result<(), Refused>
    ensures { Met (λ u. u) result (need (rules.at_most effect class) StaticCode.T12 span) }
{
    if !at_most(effect, class) {
        return fault(StaticCode::T12, span);
    }
    Ok(())
}

/// Whether operands may stand together behind others whose greatest effect is this one.
pub fn all_together(before: Effect, operands: &[Tree]) -> bool
    ensures { result ≡ rules.all_together before (effects_of (all_operands operands.now)) }
{
    let mut most = before;
    for operand in operands {
        let effect = operand.effect();
        if !together(most, effect) {
            return false;
        }
        most = greater(most, effect);
    }
    true
}

/// The greatest of an effect and those of operands.
pub fn greatest(before: Effect, operands: &[Tree]) -> Effect
    ensures { result ≡ rules.greatest before (effects_of (all_operands operands.now)) }
{
    let mut most = before;
    for operand in operands {
        most = greater(most, operand.effect());
    }
    most
}
