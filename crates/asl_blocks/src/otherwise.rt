//! What a `case` or a `try` does otherwise.

ghost use Rattle.std.specs.Prelude.{◌≡◌, ◌<◌, OnOk};
ghost use Rattle.asl_rules.specs.Tests.{Tests};
ghost use Rattle.asl_types.specs.private.Answers.{Met};
ghost use Rattle.asl_types.specs.Suits.{Suits};
ghost use Rattle.asl_blocks.specs.private.Blocks.{Blocks};
ghost use Rattle.asl_blocks.specs.private.Sizes.{stmt_size, otherwise_size};
ghost use Rattle.asl_blocks.specs.private.Views.{body_of, last_listed_of};
ghost use Rattle.asl_blocks.specs.private.Walks.{last_shut, walk_otherwise};

use crate::body::{Body, LastListed, Listed};
use crate::within::{Within, check_inside};
use asl_rules::effect::Effect;
use asl_shared::Held;
use asl_syn::code::Refused;
use asl_syn::tree::{Otherwise, Stmt};
use asl_tree::act::Last;
use asl_types::Scope;

/// An `otherwise`, where there is one.
pub fn check_otherwise<'a, L: Fn(&mut Scope<'a>, &Body, &'a [Stmt]) -> Result<Listed, Refused>>(
    here: &Within<'a, L>,
    names: &mut Scope<'a>,
    body: &Body,
    otherwise: &'a Otherwise,
) -> Result<LastListed, Refused>
    requires blocks { Blocks (stmt_size here.now.stmt.now) (L.pre here.now.list) (L.post here.now.list) }
    requires inside { otherwise_size otherwise.now < stmt_size here.now.stmt.now }
    ensures rule { (t : Tests) → Suits t → Met last_listed_of result (last_shut (walk_otherwise t otherwise.now) (body_of names.old body.now)) }
    ensures kept { OnOk result (names.new ≡ names.old) }
{
    match otherwise {
        Otherwise::NoOtherwise => Ok(LastListed {
            last: Held::new(Last::None),
            effect: Effect::Pure,
        }),
        Otherwise::Otherwise(stmts) => {
            let Listed { acts, effect } = check_inside(here, names, body, stmts.as_slice())?;
            Ok(LastListed {
                last: Held::new(Last::Otherwise(acts.into_inner())),
                effect,
            })
        }
    }
}
