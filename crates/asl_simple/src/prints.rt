//! `print` and `println`.

ghost use Rattle.std.specs.Prelude.{◌≡◌, [], map};
ghost use Rattle.asl_rules.specs.statements.Stmts.{printed};
ghost use Rattle.asl_rules.specs.Tests.{Tests};
ghost use Rattle.asl_types.specs.private.Answers.{Met};
ghost use Rattle.asl_types.specs.Suits.{Suits};
ghost use Rattle.asl_simple.specs.private.PrintViews.{printed_of};
ghost use Rattle.asl_blocks.specs.private.Views.{body_of, done_of};
ghost use Rattle.asl_blocks.specs.private.Walks as walks;
ghost use Rattle.asl_blocks.specs.private.Walks.{after};

use asl_allowed::effects::{greater, greatest, may_stand_together};
use asl_blocks::body::{Body, Done, context};
use asl_blocks::steps::end_simple;
use asl_expr::exprs::type_expr;
use asl_rules::effect::Effect;
use asl_syn::code::Refused;
use asl_syn::token::Span;
use asl_syn::tree::{PrintItem, PrintKind};
use asl_tree::act::{Simple, TreeItem};
use asl_types::Scope;
use sqlite_items::Items;

/// What is printed: the effects of the expressions, and the typed trees.
#[derive(Drop)]
struct Printed {
    effects: Items<Effect>,
    items: Items<TreeItem>,
}

/// One thing that is printed, behind those before.
fn check_item(
    names: &Scope,
    body: &Body,
    item: &PrintItem,
    so_far: &mut Printed,
) -> Result<(), Refused>
    ensures { (t : Tests) → Suits t → Met (λ _. printed_of so_far.new) result (walks.item_step t (body_of names.now body.now).scope item.now (printed_of so_far.old)) }
{
    match item {
        PrintItem::Verbatim(_, text) => {
            let text = Items::from_slice(body.alloc, text.as_slice())?;
            so_far.items.push(TreeItem::Verbatim(text))?;
        }
        PrintItem::Shown(e) => {
            let shown = type_expr(body.alloc, context(names, body), e)?;
            so_far.effects.push(shown.get().effect())?;
            so_far.items.push(TreeItem::Shown(shown.into_inner()))?;
        }
    }
    Ok(())
}

/// What is printed, in order.
fn check_items(names: &Scope, body: &Body, items: &[PrintItem]) -> Result<Printed, Refused>
    ensures { (t : Tests) → Suits t → Met printed_of result (after (walks.item_step t (body_of names.now body.now).scope) items.now (printed [] [])) }
{
    let mut so_far = Printed {
        effects: Items::new(body.alloc),
        items: Items::new(body.alloc),
    };
    for item in items {
        check_item(names, body, item, &mut so_far)?;
    }
    Ok(so_far)
}

/// What is printed in order; printing writes.
pub fn check_print(
    names: &Scope,
    body: &Body,
    span: Span,
    kind: PrintKind,
    items: &[PrintItem],
) -> Result<Done, Refused>
    ensures { (t : Tests) → Suits t → Met (done_of names.now) result (walks.print_walk t span kind items.now (body_of names.now body.now).scope) }
{
    let Printed { effects, items } = check_items(names, body, items)?;
    let is_together = may_stand_together(effects.as_slice());
    let effect = greater(greatest(Effect::Pure, effects.as_slice()), Effect::Writes);
    end_simple(
        body.class,
        span,
        is_together,
        effect,
        Simple::Print(span, kind, items),
    )
}
