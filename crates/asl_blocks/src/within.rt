//! The lists inside a statement. A statement is checked by functions that take the one which checks the lists inside it as a
//! parameter, so that each is proved by itself, and only the three that begin lists and statements (`lists.rt`) call one
//! another.

ghost use Rattle.std.specs.Prelude.{◌≡◌, ◌<◌, map, OnOk};
ghost use Rattle.asl_rules.specs.Tests.{Tests};
ghost use Rattle.asl_types.specs.private.Answers.{Met};
ghost use Rattle.asl_types.specs.Suits.{Suits};
ghost use Rattle.asl_blocks.specs.private.Blocks.{Blocks};
ghost use Rattle.asl_blocks.specs.private.Sizes.{stmt_size, stmts_size};
ghost use Rattle.asl_blocks.specs.private.Views.{body_of, listed_of};
ghost use Rattle.asl_blocks.specs.private.Walks.{shut, walk_stmt};

use crate::body::{Body, Listed};
use asl_syn::code::Refused;
use asl_syn::tree::Stmt;
use asl_types::Scope;

/// A statement, and the function that checks a list inside it with a scope of its own.
#[derive(Clone, Copy)]
pub struct Within<'a, L> {
    pub stmt: &'a Stmt,
    pub list: L,
}

/// A list inside a statement, with a scope of its own: its names are visible no more behind it.
pub fn check_inside<'a, L: Fn(&mut Scope<'a>, &Body, &'a [Stmt]) -> Result<Listed, Refused>>(
    here: &Within<'a, L>,
    names: &mut Scope<'a>,
    body: &Body,
    stmts: &'a [Stmt],
) -> Result<Listed, Refused>
    requires blocks { Blocks (stmt_size here.now.stmt.now) (L.pre here.now.list) (L.post here.now.list) }
    requires inside { stmts_size stmts.now < stmt_size here.now.stmt.now }
    ensures rule { (t : Tests) → Suits t → Met (listed_of names.old) result (shut (map (walk_stmt t) stmts.now) (body_of names.old body.now)) }
    ensures kept { OnOk result (names.new ≡ names.old) }
{
    (here.list)(names, body, stmts)
}
