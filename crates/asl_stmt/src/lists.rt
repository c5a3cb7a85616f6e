//! Lists of statements.

ghost use Rattle.std.specs.Prelude.{◌≡◌, map, [], OnOk};
ghost use Rattle.asl_rules.specs.statements.Acting.{in_order};
ghost use Rattle.asl_rules.specs.declared.effect.Effect.TheVariants.{Pure};
ghost use Rattle.asl_rules.specs.statements.Stmts as rules;
ghost use Rattle.asl_rules.specs.Tests.{Tests};
ghost use Rattle.asl_types.specs.private.Answers.{Met};
ghost use Rattle.asl_types.specs.Suits.{Suits};
ghost use Rattle.asl_blocks.specs.private.Views.{body_of, done_of, listing_of, listed_of};
ghost use Rattle.asl_blocks.specs.private.Walks.{after, listing, stmt_step, shut, walk_stmt};

use crate::stmts::check_node;
use asl_allowed::effects::greater;
use asl_blocks::body::{Body, Done, Listed};
use asl_blocks::within::Within;
use asl_rules::effect::Effect;
use asl_shared::Held;
use asl_syn::code::Refused;
use asl_syn::tree::Stmt;
use asl_types::Scope;
use sqlite_items::Items;

/// A statement: the names that are visible after it, its typed tree and its effect.
#[cycle(lists)]
fn check_stmt<'a>(names: &mut Scope<'a>, body: &Body, s: &'a Stmt) -> Result<Done, Refused>
    ensures { (t : Tests) → Suits t → Met (done_of names.new) result (walk_stmt t s.now (body_of names.old body.now)) }
{
    check_node(
        &Within {
            stmt: s,
            list: check_block,
        },
        names,
        body,
    )
}

/// Statements in order. The names that they declare stay.
#[cycle(lists)]
#[tactic(auto, using(asl_blocks::proofs::SizeLemmas::stmt_inside))]
fn check_list<'a>(names: &mut Scope<'a>, body: &Body, stmts: &'a [Stmt]) -> Result<Listed, Refused>
    ensures { (t : Tests) → Suits t → Met (listing_of names.new) result (after (stmt_step (body_of names.old body.now)) (map (walk_stmt t) stmts.now) (listing names.old Pure [])) }
{
    let mut acts = Items::new(body.alloc);
    let mut effect = Effect::Pure;
    for s in stmts {
        let done = check_stmt(names, body, s)?;
        effect = greater(effect, done.effect);
        acts.push(done.act.into_inner())?;
    }
    Ok(Listed {
        acts: Held::new(acts),
        effect,
    })
}

/// A list with a scope of its own: its names are visible no more behind it.
#[cycle(lists)]
fn check_block<'a>(names: &mut Scope<'a>, body: &Body, stmts: &'a [Stmt]) -> Result<Listed, Refused>
    ensures rule { (t : Tests) → Suits t → Met (listed_of names.old) result (shut (map (walk_stmt t) stmts.now) (body_of names.old body.now)) }
    ensures kept { OnOk result (names.new ≡ names.old) }
{
    let height = names.len();
    let list = check_list(names, body, stmts)?;
    names.truncate(height);
    Ok(list)
}

/// The statements of a body in order. The names that they declare stay. It is `check_list`, with the clause of the
/// rules.
pub fn check_stmts<'a>(
    names: &mut Scope<'a>,
    body: &Body,
    stmts: &'a [Stmt],
) -> Result<Listed, Refused>
    ensures { (t : Tests) → Suits t → Met (listed_of names.new) result (in_order (map (rules.found_stmt t) stmts.now) Pure (body_of names.old body.now)) }
{
    check_list(names, body, stmts)
}
