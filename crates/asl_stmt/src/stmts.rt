//! The forms of statements.

ghost use Rattle.std.specs.Prelude.{◌≡◌};
ghost use Rattle.asl_rules.specs.Tests.{Tests};
ghost use Rattle.asl_types.specs.private.Answers.{Met};
ghost use Rattle.asl_types.specs.Suits.{Suits};
ghost use Rattle.asl_blocks.specs.private.Blocks.{Blocks};
ghost use Rattle.asl_blocks.specs.private.Sizes.{stmt_size};
ghost use Rattle.asl_blocks.specs.private.Views.{body_of, done_of};
ghost use Rattle.asl_blocks.specs.private.Walks.{walk_stmt};

use asl_assignments::stores::check_assign;
use asl_blocks::body::{Body, Done, Listed};
use asl_blocks::within::Within;
use asl_choices::branches::{Branching, check_if};
use asl_choices::cases::{Choosing, check_case};
use asl_loops::catchers::{Trying, check_try};
use asl_loops::loops::{Counting, Turning, check_for, check_repeat, check_while};
use asl_rules::effect::Effect;
use asl_simple::locals::{Declaration, check_bind, check_vars};
use asl_simple::prints::check_print;
use asl_simple::simple::{check_assert, check_invoke, check_return, check_throw, simply};
use asl_syn::code::Refused;
use asl_syn::tree::Stmt;
use asl_tree::act::Simple;
use asl_types::Scope;

/// A statement: the names that are visible after it, its typed tree and its effect. The lists inside it are checked by the
/// function that is given.
pub(crate) fn check_node<'a, L: Fn(&mut Scope<'a>, &Body, &'a [Stmt]) -> Result<Listed, Refused>>(
    here: &Within<'a, L>,
    names: &mut Scope<'a>,
    body: &Body,
) -> Result<Done, Refused>
    requires blocks { Blocks (stmt_size here.now.stmt.now) (L.pre here.now.list) (L.post here.now.list) }
    ensures { (t : Tests) → Suits t → Met (done_of names.new) result (walk_stmt t here.now.stmt.now (body_of names.old body.now)) }
{
    match here.stmt {
        Stmt::Pass(span) => Ok(simply(Simple::Pass(*span), Effect::Pure)),
        Stmt::Unreachable(span) => Ok(simply(Simple::Unreachable(*span), Effect::Pure)),
        Stmt::Assert(span, e) => check_assert(names, body, *span, e),
        Stmt::Local(span, kind, bind, ty, value) => {
            let declaration = Declaration {
                span: *span,
                kind: *kind,
                bind,
                ty,
                value,
            };
            check_bind(names, body, &declaration)
        }
        Stmt::LocalVars(span, idents, ty) => {
            check_vars(names, body, *span, idents.as_slice(), ty)
        }
        Stmt::Assign(span, target, e) => check_assign(names, body, *span, target, e),
        Stmt::Invoke(span, name, params, arguments) => check_invoke(
            names,
            body,
            *span,
            name,
            params.as_slice(),
            arguments.as_slice(),
        ),
        Stmt::If(span, condition, first, others, last) => {
            let branching = Branching {
                span: *span,
                condition,
                first: first.as_slice(),
                others: others.as_slice(),
                last: last.as_slice(),
            };
            check_if(here, names, body, &branching)
        }
        Stmt::Case(span, value, alternatives, last) => {
            let choosing = Choosing {
                span: *span,
                value,
                alternatives: alternatives.as_slice(),
                last,
            };
            check_case(here, names, body, &choosing)
        }
        Stmt::For(span, index, from, direction, to, limit, stmts) => {
            let counting = Counting {
                span: *span,
                index,
                from,
                direction: *direction,
                to,
            };
            check_for(here, names, body, stmts.as_slice(), &counting, limit)
        }
        Stmt::While(span, condition, limit, stmts) => {
            let turning = Turning {
                span: *span,
                condition,
                limit,
            };
            check_while(here, names, body, stmts.as_slice(), &turning)
        }
        Stmt::Repeat(span, stmts, condition, limit) => {
            let turning = Turning {
                span: *span,
                condition,
                limit,
            };
            check_repeat(here, names, body, stmts.as_slice(), &turning)
        }
        Stmt::Return(span, value) => check_return(names, body, *span, value),
        Stmt::Throw(span, value) => check_throw(names, body, *span, value),
        Stmt::Try(span, stmts, catchers, last) => {
            let trying = Trying {
                span: *span,
                stmts: stmts.as_slice(),
                catchers: catchers.as_slice(),
                last,
            };
            check_try(here, names, body, &trying)
        }
        Stmt::Print(span, kind, items) => {
            check_print(names, body, *span, *kind, items.as_slice())
        }
    }
}
