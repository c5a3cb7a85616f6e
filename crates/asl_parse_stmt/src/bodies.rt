//! What statements hold: blocks, and what stands between them. Each function takes the reader of a block as a parameter,
//! so that it stands on the functions before it alone.

ghost use Rattle.std.specs.Prelude.{◌≡◌};
ghost use Rattle.asl_grammar.specs.grammar.Build as build;
ghost use Rattle.asl_grammar.specs.grammar.Rules as rules;
ghost use Rattle.asl_parse_stmt.specs.private.Blocks.{Nests};
ghost use Rattle.asl_parse_stmt.specs.private.Heads as heads;
ghost use Rattle.asl_parse_expr.specs.private.Code.{cursor_of, Met, reading};

use asl_grammar::error::ParseError;
use asl_grammar::kinds::Kind;
use asl_parse_expr::expressions::expression;
use asl_parse_expr::names::name;
use asl_parse_expr::patterns::patterns;
use asl_parse_expr::tokens::Tokens;
use asl_shared::Held;
use asl_syn::read::{ReadAlternative, ReadCatcher, ReadElseIf, ReadOtherwise, ReadStmt};
use asl_syn::tree::{Direction, Expr, Ident};
use sqlite_items::Items;
use std::alloc::Global;

fn loop_limit(
    alloc: Global,
    tokens: &mut Tokens<'_>,
    depth: usize,
) -> Result<Option<Expr>, ParseError>
    ensures { Met (reading depth rules.loop_limit (cursor_of tokens.old)) result (cursor_of tokens.new) }
{
    if !tokens.starts(&[Kind::LoopLimit]) {
        return Ok(None);
    }
    tokens.take(Kind::LoopLimit)?;
    Ok(Some(expression(alloc, tokens, depth)?))
}

fn where_clause(
    alloc: Global,
    tokens: &mut Tokens<'_>,
    depth: usize,
) -> Result<Option<Expr>, ParseError>
    ensures { Met (reading depth rules.where_clause (cursor_of tokens.old)) result (cursor_of tokens.new) }
{
    if !tokens.starts(&[Kind::Where]) {
        return Ok(None);
    }
    tokens.take(Kind::Where)?;
    Ok(Some(expression(alloc, tokens, depth)?))
}

fn direction(tokens: &mut Tokens<'_>, depth: usize) -> Result<Direction, ParseError>
    ensures { Met (reading depth rules.direction (cursor_of tokens.old)) result (cursor_of tokens.new) }
{
    if tokens.starts(&[Kind::To]) {
        tokens.take(Kind::To)?;
        Ok(Direction::Up)
    } else {
        tokens.take(Kind::DownTo)?;
        Ok(Direction::Down)
    }
}

fn caught_type(
    alloc: Global,
    tokens: &mut Tokens<'_>,
    depth: usize,
) -> Result<Option<Ident>, ParseError>
    ensures { Met (reading depth rules.caught_type (cursor_of tokens.old)) result (cursor_of tokens.new) }
{
    if !tokens.starts(&[Kind::Colon]) {
        return Ok(None);
    }
    tokens.take(Kind::Colon)?;
    Ok(Some(name(alloc, tokens, depth)?))
}

fn catch_of(first: Ident, ty: Option<Ident>, body: Items<ReadStmt>) -> ReadCatcher
    ensures { result ≡ build.catch_of first ty body }
{
    match ty {
        None => ReadCatcher::Catch(None, first, body),
        Some(ty) => ReadCatcher::Catch(Some(first), ty, body),
    }
}

/// The index of a `for`, from where and which way it counts, and up to where.
#[tactic(auto, unfolding(crate::specs::private::Heads::for_head))]
fn for_head(
    alloc: Global,
    tokens: &mut Tokens<'_>,
    depth: usize,
) -> Result<(Ident, Expr, Direction, Expr), ParseError>
    ensures { Met (heads.for_head depth (cursor_of tokens.old)) result (cursor_of tokens.new) }
{
    let index = name(alloc, tokens, depth)?;
    tokens.take(Kind::Assign)?;
    let first = Held::new(expression(alloc, tokens, depth)?);
    let direction = direction(tokens, depth)?;
    let last = expression(alloc, tokens, depth)?;
    Ok((index, first.into_inner(), direction, last))
}

/// The rules of what statements hold, where things may nest so deep below.
#[derive(Clone, Copy)]
pub struct Bodies<F> {
    pub alloc: Global,
    pub depth: usize,
    pub block: F,
}

impl<F: Fn(Global, &mut Tokens<'_>, usize) -> Result<Items<ReadStmt>, ParseError>> Bodies<F> {
    fn block(&self, tokens: &mut Tokens<'_>) -> Result<Items<ReadStmt>, ParseError>
        requires { Nests self.now.depth (F.pre self.now.block) (F.post self.now.block) }
        ensures { Met (reading self.now.depth rules.block (cursor_of tokens.old)) result (cursor_of tokens.new) }
    {
        (self.block)(self.alloc, tokens, self.depth)
    }

    /// Behind `if`: the condition, the block behind `then`, each `elsif`, and the block behind `else`.
    #[tactic(auto, unfolding(asl_grammar::specs::grammar::Rules::if_body))]
    pub fn if_body(
        &self,
        tokens: &mut Tokens<'_>,
    ) -> Result<(Expr, Items<ReadStmt>, Items<ReadElseIf>, Items<ReadStmt>), ParseError>
        requires { Nests self.now.depth (F.pre self.now.block) (F.post self.now.block) }
        ensures { Met (reading self.now.depth rules.if_body (cursor_of tokens.old)) result (cursor_of tokens.new) }
    {
        let condition = Held::new(expression(self.alloc, tokens, self.depth)?);
        tokens.take(Kind::Then)?;
        let then_block = self.block(tokens)?;
        let else_ifs = self.else_ifs(tokens)?;
        let else_block = self.maybe_else(tokens)?;
        tokens.take(Kind::End)?;
        tokens.take(Kind::Semicolon)?;
        Ok((condition.into_inner(), then_block, else_ifs, else_block))
    }

    #[tactic(auto, unfolding(asl_grammar::specs::grammar::Rules::else_if))]
    fn else_if(&self, tokens: &mut Tokens<'_>) -> Result<ReadElseIf, ParseError>
        requires { Nests self.now.depth (F.pre self.now.block) (F.post self.now.block) }
        ensures { Met (reading self.now.depth rules.else_if (cursor_of tokens.old)) result (cursor_of tokens.new) }
    {
        tokens.take(Kind::ElsIf)?;
        let condition = Held::new(expression(self.alloc, tokens, self.depth)?);
        tokens.take(Kind::Then)?;
        let body = self.block(tokens)?;
        Ok(ReadElseIf::ElseIf(condition.into_inner(), body))
    }

    #[tactic(auto, using(crate::proofs::Steps::else_ifs_is))]
    fn else_ifs(&self, tokens: &mut Tokens<'_>) -> Result<Items<ReadElseIf>, ParseError>
        requires { Nests self.now.depth (F.pre self.now.block) (F.post self.now.block) }
        ensures { Met (reading self.now.depth rules.else_ifs (cursor_of tokens.old)) result (cursor_of tokens.new) }
    {
        let mut found = Items::new(self.alloc);
        for _turn in 0..tokens.len() {
            if !tokens.starts(&[Kind::ElsIf]) {
                return Ok(found);
            }
            found.push(self.else_if(tokens)?)?;
        }
        Ok(found)
    }

    #[tactic(auto, unfolding(asl_grammar::specs::grammar::Rules::else_block))]
    fn maybe_else(&self, tokens: &mut Tokens<'_>) -> Result<Items<ReadStmt>, ParseError>
        requires { Nests self.now.depth (F.pre self.now.block) (F.post self.now.block) }
        ensures { Met (reading self.now.depth rules.maybe_else (cursor_of tokens.old)) result (cursor_of tokens.new) }
    {
        if !tokens.starts(&[Kind::Else]) {
            return Ok(Items::new(self.alloc));
        }
        tokens.take(Kind::Else)?;
        self.block(tokens)
    }

    #[tactic(auto, unfolding(asl_grammar::specs::grammar::Rules::otherwise))]
    fn otherwise(&self, tokens: &mut Tokens<'_>) -> Result<ReadOtherwise, ParseError>
        requires { Nests self.now.depth (F.pre self.now.block) (F.post self.now.block) }
        ensures { Met (reading self.now.depth rules.otherwise (cursor_of tokens.old)) result (cursor_of tokens.new) }
    {
        tokens.take(Kind::Otherwise)?;
        tokens.take(Kind::FatArrow)?;
        Ok(ReadOtherwise::Otherwise(self.block(tokens)?))
    }

    fn maybe_otherwise(&self, tokens: &mut Tokens<'_>) -> Result<ReadOtherwise, ParseError>
        requires { Nests self.now.depth (F.pre self.now.block) (F.post self.now.block) }
        ensures { Met (reading self.now.depth rules.maybe_otherwise (cursor_of tokens.old)) result (cursor_of tokens.new) }
    {
        if !tokens.starts(&[Kind::Otherwise]) {
            return Ok(ReadOtherwise::NoOtherwise);
        }
        self.otherwise(tokens)
    }

    /// Behind `case`: the subject, the alternatives, and what is done otherwise.
    #[tactic(auto, unfolding(asl_grammar::specs::grammar::Rules::case_body))]
    pub fn case_body(
        &self,
        tokens: &mut Tokens<'_>,
    ) -> Result<(Expr, Items<ReadAlternative>, ReadOtherwise), ParseError>
        requires { Nests self.now.depth (F.pre self.now.block) (F.post self.now.block) }
        ensures { Met (reading self.now.depth rules.case_body (cursor_of tokens.old)) result (cursor_of tokens.new) }
    {
        let subject = Held::new(expression(self.alloc, tokens, self.depth)?);
        tokens.take(Kind::Of)?;
        let alternatives = self.alternatives(tokens)?;
        let otherwise = self.maybe_otherwise(tokens)?;
        tokens.take(Kind::End)?;
        tokens.take(Kind::Semicolon)?;
        Ok((subject.into_inner(), alternatives, otherwise))
    }

    #[tactic(auto, unfolding(asl_grammar::specs::grammar::Rules::alternative))]
    fn alternative(&self, tokens: &mut Tokens<'_>) -> Result<ReadAlternative, ParseError>
        requires { Nests self.now.depth (F.pre self.now.block) (F.post self.now.block) }
        ensures { Met (reading self.now.depth rules.alternative (cursor_of tokens.old)) result (cursor_of tokens.new) }
    {
        tokens.take(Kind::When)?;
        let patterns = patterns(self.alloc, tokens, self.depth)?;
        let condition = Held::new(where_clause(self.alloc, tokens, self.depth)?);
        tokens.take(Kind::FatArrow)?;
        let body = self.block(tokens)?;
        Ok(ReadAlternative::When(patterns, condition.into_inner(), body))
    }

    #[tactic(auto, using(crate::proofs::Steps::alternatives_is))]
    fn alternatives(&self, tokens: &mut Tokens<'_>) -> Result<Items<ReadAlternative>, ParseError>
        requires { Nests self.now.depth (F.pre self.now.block) (F.post self.now.block) }
        ensures { Met (reading self.now.depth rules.alternatives (cursor_of tokens.old)) result (cursor_of tokens.new) }
    {
        let mut found = Items::new(self.alloc);
        for _turn in 0..tokens.len() {
            if !tokens.starts(&[Kind::When]) {
                return Ok(found);
            }
            found.push(self.alternative(tokens)?)?;
        }
        Ok(found)
    }

    /// Behind `for`: the index, from where and which way it counts, up to where, the limit and the block.
    pub fn for_body(
        &self,
        tokens: &mut Tokens<'_>,
    ) -> Result<(Ident, Expr, Direction, Expr, Option<Expr>, Items<ReadStmt>), ParseError>
        requires { Nests self.now.depth (F.pre self.now.block) (F.post self.now.block) }
        ensures { Met (reading self.now.depth rules.for_body (cursor_of tokens.old)) result (cursor_of tokens.new) }
    {
        let (index, first, direction, last) = for_head(self.alloc, tokens, self.depth)?;
        let (first, last) = (Held::new(first), Held::new(last));
        let limit = Held::new(loop_limit(self.alloc, tokens, self.depth)?);
        tokens.take(Kind::Do)?;
        let body = self.block(tokens)?;
        tokens.take(Kind::End)?;
        tokens.take(Kind::Semicolon)?;
        let (first, last, limit) = (first.into_inner(), last.into_inner(), limit.into_inner());
        Ok((index, first, direction, last, limit, body))
    }

    /// Behind `while`: the condition, the limit and the block.
    #[tactic(auto, unfolding(asl_grammar::specs::grammar::Rules::while_body))]
    pub fn while_body(
        &self,
        tokens: &mut Tokens<'_>,
    ) -> Result<(Expr, Option<Expr>, Items<ReadStmt>), ParseError>
        requires { Nests self.now.depth (F.pre self.now.block) (F.post self.now.block) }
        ensures { Met (reading self.now.depth rules.while_body (cursor_of tokens.old)) result (cursor_of tokens.new) }
    {
        let condition = Held::new(expression(self.alloc, tokens, self.depth)?);
        let limit = Held::new(loop_limit(self.alloc, tokens, self.depth)?);
        tokens.take(Kind::Do)?;
        let body = self.block(tokens)?;
        tokens.take(Kind::End)?;
        tokens.take(Kind::Semicolon)?;
        Ok((condition.into_inner(), limit.into_inner(), body))
    }

    /// Behind `repeat`: the block, the condition and the limit.
    #[tactic(auto, unfolding(asl_grammar::specs::grammar::Rules::repeat_body))]
    pub fn repeat_body(
        &self,
        tokens: &mut Tokens<'_>,
    ) -> Result<(Items<ReadStmt>, Expr, Option<Expr>), ParseError>
        requires { Nests self.now.depth (F.pre self.now.block) (F.post self.now.block) }
        ensures { Met (reading self.now.depth rules.repeat_body (cursor_of tokens.old)) result (cursor_of tokens.new) }
    {
        let body = self.block(tokens)?;
        tokens.take(Kind::Until)?;
        let condition = Held::new(expression(self.alloc, tokens, self.depth)?);
        let limit = Held::new(loop_limit(self.alloc, tokens, self.depth)?);
        tokens.take(Kind::Semicolon)?;
        Ok((body, condition.into_inner(), limit.into_inner()))
    }

    /// Behind `try`: the block, the catchers, and what is done otherwise.
    #[tactic(auto, unfolding(asl_grammar::specs::grammar::Rules::try_body))]
    pub fn try_body(
        &self,
        tokens: &mut Tokens<'_>,
    ) -> Result<(Items<ReadStmt>, Items<ReadCatcher>, ReadOtherwise), ParseError>
        requires { Nests self.now.depth (F.pre self.now.block) (F.post self.now.block) }
        ensures { Met (reading self.now.depth rules.try_body (cursor_of tokens.old)) result (cursor_of tokens.new) }
    {
        let body = self.block(tokens)?;
        tokens.take(Kind::Catch)?;
        let (catchers, otherwise) = self.handlers(tokens)?;
        tokens.take(Kind::End)?;
        tokens.take(Kind::Semicolon)?;
        Ok((body, catchers, otherwise))
    }

    fn handlers(
        &self,
        tokens: &mut Tokens<'_>,
    ) -> Result<(Items<ReadCatcher>, ReadOtherwise), ParseError>
        requires { Nests self.now.depth (F.pre self.now.block) (F.post self.now.block) }
        ensures { Met (reading self.now.depth rules.handlers (cursor_of tokens.old)) result (cursor_of tokens.new) }
    {
        if tokens.starts(&[Kind::When]) {
            self.some_catchers(tokens)
        } else {
            let otherwise = self.otherwise(tokens)?;
            Ok((Items::new(self.alloc), otherwise))
        }
    }

    #[tactic(auto, unfolding(asl_grammar::specs::grammar::Rules::some_catchers))]
    fn some_catchers(
        &self,
        tokens: &mut Tokens<'_>,
    ) -> Result<(Items<ReadCatcher>, ReadOtherwise), ParseError>
        requires { Nests self.now.depth (F.pre self.now.block) (F.post self.now.block) }
        ensures { Met (reading self.now.depth rules.some_catchers (cursor_of tokens.old)) result (cursor_of tokens.new) }
    {
        let mut found = Items::new(self.alloc);
        found.push(self.catcher(tokens)?)?;
        let more = self.catchers(tokens)?;
        found.append(more)?;
        let otherwise = self.maybe_otherwise(tokens)?;
        Ok((found, otherwise))
    }

    #[tactic(auto, unfolding(asl_grammar::specs::grammar::Rules::catcher))]
    fn catcher(&self, tokens: &mut Tokens<'_>) -> Result<ReadCatcher, ParseError>
        requires { Nests self.now.depth (F.pre self.now.block) (F.post self.now.block) }
        ensures { Met (reading self.now.depth rules.catcher (cursor_of tokens.old)) result (cursor_of tokens.new) }
    {
        tokens.take(Kind::When)?;
        let first = name(self.alloc, tokens, self.depth)?;
        let ty = caught_type(self.alloc, tokens, self.depth)?;
        tokens.take(Kind::FatArrow)?;
        let body = self.block(tokens)?;
        Ok(catch_of(first, ty, body))
    }

    #[tactic(auto, using(crate::proofs::Steps::catchers_is))]
    fn catchers(&self, tokens: &mut Tokens<'_>) -> Result<Items<ReadCatcher>, ParseError>
        requires { Nests self.now.depth (F.pre self.now.block) (F.post self.now.block) }
        ensures { Met (reading self.now.depth rules.catchers (cursor_of tokens.old)) result (cursor_of tokens.new) }
    {
        let mut found = Items::new(self.alloc);
        for _turn in 0..tokens.len() {
            if !tokens.starts(&[Kind::When]) {
                return Ok(found);
            }
            found.push(self.catcher(tokens)?)?;
        }
        Ok(found)
    }
}
