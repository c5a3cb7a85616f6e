//! Levels: what nests deeper stands in one.

ghost use Rattle.std.specs.Prelude.{[], ◌∷◌, ◌<◌, IfOk};
ghost use Rattle.asl_parse_expr.specs.private.Code.{cursor_of, Met};
ghost use Rattle.asl_parse_stmt.specs.private.Levels.{nested};

use asl_grammar::error::ParseError;
use asl_grammar::kinds::Kind;
use asl_parse_expr::tokens::Tokens;

/// Reads a token of this kind, which opens a level, and gives how deep things may nest in it.
#[tactic(auto, unfolding(crate::specs::private::Levels::nested))]
pub fn nest(tokens: &mut Tokens<'_>, kind: Kind, depth: usize) -> Result<usize, ParseError>
    ensures read { Met (nested depth (kind ∷ []) (cursor_of tokens.old)) result (cursor_of tokens.new) }
    ensures below { IfOk result (λ inside. inside < depth) }
{
    tokens.open(kind)?;
    if depth == 0 {
        return Err(ParseError::TooDeep(tokens.len(), false));
    }
    Ok(depth - 1)
}
