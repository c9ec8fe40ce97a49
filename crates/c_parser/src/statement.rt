//! Reading statements (C99 6.8). Their expressions and declarations have at most some number of levels, and so do they.

ghost use Rattle.std.specs.Prelude.{◌≡◌, ◌∷◌, length};
ghost use Rattle.c_lexer.specs.declared.token.TokenKind.TheVariants as kinds;
ghost use Rattle.c_grammar.specs.Reader as reader;
ghost use Rattle.c_grammar.specs.Reader.{up_to_brace};
ghost use Rattle.c_grammar.specs.StatementReader as spec;
ghost use Rattle.c_grammar.specs.Reads.{Reads};
ghost use Rattle.c_parser.specs.StatementSteps.{block_items_in};
ghost use Rattle.c_parser.specs.StatementParts as parts;
ghost use Rattle.c_syntax.specs.View.{expression_of};
ghost use Rattle.c_syntax.specs.Words.{word_at};
ghost use Rattle.c_syntax.specs.StatementsView.{optional_of, for_init_of, statement_of, block_of, block_item_of};

use crate::declaration::local;
use crate::statement_tree::{
    block_with, break_with, case_with, compound, continue_with, declaration_item, default_with,
    do_with, expression_with, for_with, if_else_with, if_with, return_with, statement_item,
    switch_with, while_with,
};
use c_expressions::nested::expression;
use c_expressions::specifier::begins_specifiers;
use c_grammar::cursor::{Cursor, Fault, is_same, next_is};
use c_grammar::least_precedence;
use c_grammar::typedef_names::TypedefNames;
use c_lexer::{Keyword, Punctuator, TokenKind};
use c_syntax::{
    Block, BlockItem, Boxed, CaseLabel, DoEnd, Expression, ForHead, ForInit, Items, Parenthesized,
    Position, Positioned, Statement,
};
use std::alloc::Global;

/// Whether the next word is `else`.
fn next_is_else(rest: &[Positioned]) -> bool
    ensures { result ≡ reader.next_is reader.is_else rest.now }
{
    match rest.first() {
        Some(first) => match &first.kind {
            TokenKind::Keyword(Keyword::Else) => true,
            _ => false,
        },
        None => false,
    }
}

/// Takes the word `while`.
fn expect_while(tokens: &mut Cursor) -> Result<Position, Fault>
    ensures { Reads (λ p. p) (reader.take_word reader.is_while tokens.old.rest.now) result tokens.new.rest.now }
{
    let [first, rest @ ..] = tokens.rest else {
        return Err(Fault::Refused);
    };
    let TokenKind::Keyword(Keyword::While) = &first.kind else {
        return Err(Fault::Refused);
    };
    tokens.rest = rest;
    Ok(first.position)
}

/// Takes the word `else`.
fn expect_else(tokens: &mut Cursor) -> Result<Position, Fault>
    ensures { Reads (λ p. p) (reader.take_word reader.is_else tokens.old.rest.now) result tokens.new.rest.now }
{
    let [first, rest @ ..] = tokens.rest else {
        return Err(Fault::Refused);
    };
    let TokenKind::Keyword(Keyword::Else) = &first.kind else {
        return Err(Fault::Refused);
    };
    tokens.rest = rest;
    Ok(first.position)
}

/// Whether a statement that begins with the keyword has another inside (C99 6.8).
fn holds_statement(keyword: Keyword) -> bool
    ensures { result ≡ spec.holds_statement keyword }
{
    match keyword {
        Keyword::If
        | Keyword::Switch
        | Keyword::While
        | Keyword::Do
        | Keyword::For
        | Keyword::Case
        | Keyword::Default => true,
        _ => false,
    }
}

/// The rules for statements.
#[derive(Drop)]
pub struct Statements<'t, 'a> {
    /// Where memory comes from.
    alloc: Global,
    /// The typedef names.
    names: &'t TypedefNames<'a>,
    /// How many levels there may be in an expression or declaration.
    levels: u8,
}

/// Reads an expression (C99 6.5).
fn whole<'a>(
    alloc: Global,
    names: &TypedefNames<'a>,
    tokens: &mut Cursor<'_, 'a>,
    levels: u8,
) -> Result<Boxed<Expression<'a>>, Fault>
    ensures { Reads expression_of (spec.whole_from levels names.now tokens.old.rest.now) result tokens.new.rest.now }
{
    let whole = expression(
        alloc,
        names,
        tokens,
        levels as usize + 1,
        None,
        least_precedence::COMMA,
    )?;
    Ok(whole.tree)
}

/// Reads an expression, or none where this punctuator is next.
#[tactic(auto, unfolding(c_grammar::specs::StatementReader::optional_from))]
fn optional<'a>(
    alloc: Global,
    names: &TypedefNames<'a>,
    tokens: &mut Cursor<'_, 'a>,
    levels: u8,
    end: Punctuator,
) -> Result<Option<Boxed<Expression<'a>>>, Fault>
    ensures { Reads optional_of (spec.optional_from levels names.now end tokens.old.rest.now)
        result tokens.new.rest.now }
{
    if next_is(tokens.rest, end) {
        return Ok(None);
    }
    let value = whole(alloc, names, tokens, levels)?;
    Ok(Some(value))
}

/// Reads an expression, or none where this punctuator is next, and the punctuator.
#[tactic(auto, unfolding(c_grammar::specs::StatementReader::ended_from))]
fn ended<'a>(
    alloc: Global,
    names: &TypedefNames<'a>,
    tokens: &mut Cursor<'_, 'a>,
    levels: u8,
    end: Punctuator,
) -> Result<(Option<Boxed<Expression<'a>>>, Position), Fault>
    ensures { Reads parts.ended_of (spec.ended_from levels names.now end tokens.old.rest.now)
        result tokens.new.rest.now }
{
    let value = optional(alloc, names, tokens, levels, end)?;
    let position = tokens.expect(end)?;
    Ok((value, position))
}

/// Reads an expression or none, and `;` (C99 6.8.3).
#[tactic(auto, unfolding(c_grammar::specs::StatementReader::expression_statement_from))]
fn expression_statement<'a>(
    alloc: Global,
    names: &TypedefNames<'a>,
    tokens: &mut Cursor<'_, 'a>,
    levels: u8,
) -> Result<Boxed<Statement<'a>>, Fault>
    ensures { Reads statement_of (spec.expression_statement_from levels names.now tokens.old.rest.now)
        result tokens.new.rest.now }
{
    let (value, semicolon) = ended(alloc, names, tokens, levels, Punctuator::Semicolon)?;
    Ok(expression_with(alloc, value, semicolon)?)
}

/// Reads the first part of the head of a `for` (C99 6.8.5.3).
#[tactic(auto, unfolding(c_grammar::specs::StatementReader::for_init_from))]
fn for_init<'a>(
    alloc: Global,
    names: &TypedefNames<'a>,
    tokens: &mut Cursor<'_, 'a>,
    levels: u8,
) -> Result<ForInit<'a>, Fault>
    ensures { Reads for_init_of (spec.for_init_from levels names.now tokens.old.rest.now)
        result tokens.new.rest.now }
{
    if begins_specifiers(names, tokens.rest) {
        let declaration = local(alloc, names, tokens, levels)?;
        return Ok(ForInit::Declaration(declaration));
    }
    let (value, semicolon) = ended(alloc, names, tokens, levels, Punctuator::Semicolon)?;
    Ok(ForInit::Expression(value, semicolon))
}

/// Reads what stands between `for` and its body (C99 6.8.5.3).
#[tactic(auto, unfolding(c_grammar::specs::StatementReader::for_head_from))]
fn for_head<'a>(
    alloc: Global,
    names: &TypedefNames<'a>,
    tokens: &mut Cursor<'_, 'a>,
    levels: u8,
) -> Result<ForHead<'a>, Fault>
    ensures { Reads parts.for_head_of (spec.for_head_from levels names.now tokens.old.rest.now)
        result tokens.new.rest.now }
{
    let left = tokens.expect(Punctuator::LeftParenthesis)?;
    let init = for_init(alloc, names, tokens, levels)?;
    let (condition, semicolon) = ended(alloc, names, tokens, levels, Punctuator::Semicolon)?;
    let (step, right) = ended(alloc, names, tokens, levels, Punctuator::RightParenthesis)?;
    Ok(ForHead {
        left,
        init,
        condition,
        semicolon,
        step,
        right,
    })
}

/// Reads what stands behind `return` (C99 6.8.6.4).
#[tactic(auto, unfolding(c_grammar::specs::StatementReader::return_from))]
fn return_statement<'a>(
    alloc: Global,
    names: &TypedefNames<'a>,
    tokens: &mut Cursor<'_, 'a>,
    levels: u8,
    position: Position,
) -> Result<Boxed<Statement<'a>>, Fault>
    ensures { Reads statement_of (spec.return_from levels names.now position tokens.old.rest.now)
        result tokens.new.rest.now }
{
    let (value, semicolon) = ended(alloc, names, tokens, levels, Punctuator::Semicolon)?;
    Ok(return_with(alloc, position, value, semicolon)?)
}

/// Reads an expression in parentheses.
#[tactic(auto, unfolding(c_grammar::specs::StatementReader::parenthesized_from))]
fn parenthesized<'a>(
    alloc: Global,
    names: &TypedefNames<'a>,
    tokens: &mut Cursor<'_, 'a>,
    levels: u8,
) -> Result<Parenthesized<'a>, Fault>
    ensures { Reads parts.parenthesized_of (spec.parenthesized_from levels names.now tokens.old.rest.now)
        result tokens.new.rest.now }
{
    let left = tokens.expect(Punctuator::LeftParenthesis)?;
    let inner = whole(alloc, names, tokens, levels)?;
    let right = tokens.expect(Punctuator::RightParenthesis)?;
    Ok(Parenthesized { left, inner, right })
}

/// Reads what stands behind `case`, up to the `:` (C99 6.8.1).
#[tactic(auto, unfolding(c_grammar::specs::StatementReader::case_label_from))]
fn case_label<'a>(
    alloc: Global,
    names: &TypedefNames<'a>,
    tokens: &mut Cursor<'_, 'a>,
    levels: u8,
    position: Position,
) -> Result<CaseLabel<'a>, Fault>
    ensures { Reads parts.case_label_of (spec.case_label_from levels names.now position tokens.old.rest.now)
        result tokens.new.rest.now }
{
    let value = expression(
        alloc,
        names,
        tokens,
        levels as usize + 1,
        None,
        least_precedence::CONDITIONAL,
    )?;
    let colon = tokens.expect(Punctuator::Colon)?;
    Ok(CaseLabel {
        position,
        value: value.tree,
        colon,
    })
}

/// Reads what stands behind the body of a `do` (C99 6.8.5.2).
#[tactic(auto, unfolding(c_grammar::specs::StatementReader::do_end_from))]
fn do_end<'a>(
    alloc: Global,
    names: &TypedefNames<'a>,
    tokens: &mut Cursor<'_, 'a>,
    levels: u8,
) -> Result<DoEnd<'a>, Fault>
    ensures { Reads parts.do_end_of (spec.do_end_from levels names.now tokens.old.rest.now)
        result tokens.new.rest.now }
{
    let again = expect_while(tokens)?;
    let condition = parenthesized(alloc, names, tokens, levels)?;
    let semicolon = tokens.expect(Punctuator::Semicolon)?;
    Ok(DoEnd {
        again,
        condition,
        semicolon,
    })
}

impl<'t, 'a> Statements<'t, 'a> {
    /// Reads `else` and a statement (C99 6.8.4.1).
    #[tactic(auto, unfolding(c_grammar::specs::StatementReader::otherwise_from))]
    #[cycle(reader)]
    fn otherwise(
        &self,
        tokens: &mut Cursor<'_, 'a>,
        depth: usize,
    ) -> Result<(Position, Boxed<Statement<'a>>), Fault>
        ensures { Reads parts.behind_word_of (spec.otherwise_from self.now.levels self.now.names.now
            (spec.statements self.now.levels self.now.names.now depth) tokens.old.rest.now)
            result tokens.new.rest.now }
    {
        let position = expect_else(tokens)?;
        let inner = self.statement(tokens, depth)?;
        Ok((position, inner))
    }

    /// Reads what stands behind `if` (C99 6.8.4.1).
    #[tactic(auto, unfolding(c_grammar::specs::StatementReader::if_from))]
    #[cycle(reader)]
    fn if_statement(
        &self,
        tokens: &mut Cursor<'_, 'a>,
        depth: usize,
        position: Position,
    ) -> Result<Boxed<Statement<'a>>, Fault>
        ensures { Reads statement_of (spec.if_from self.now.levels self.now.names.now
            (spec.statements self.now.levels self.now.names.now depth) position
            tokens.old.rest.now) result tokens.new.rest.now }
    {
        let condition = parenthesized(self.alloc, self.names, tokens, self.levels)?;
        let first = self.statement(tokens, depth)?;
        if !next_is_else(tokens.rest) {
            return Ok(if_with(self.alloc, position, condition, first)?);
        }
        let otherwise = self.otherwise(tokens, depth)?;
        Ok(if_else_with(self.alloc, position, condition, first, otherwise)?)
    }

    /// Reads what stands behind `switch` (C99 6.8.4.2).
    #[tactic(auto, unfolding(c_grammar::specs::StatementReader::switch_from))]
    #[cycle(reader)]
    fn switch_statement(
        &self,
        tokens: &mut Cursor<'_, 'a>,
        depth: usize,
        position: Position,
    ) -> Result<Boxed<Statement<'a>>, Fault>
        ensures { Reads statement_of (spec.switch_from self.now.levels self.now.names.now
            (spec.statements self.now.levels self.now.names.now depth) position
            tokens.old.rest.now) result tokens.new.rest.now }
    {
        let value = parenthesized(self.alloc, self.names, tokens, self.levels)?;
        let block = self.block(tokens, depth)?;
        Ok(switch_with(self.alloc, position, value, block)?)
    }

    /// Reads what stands behind `while` (C99 6.8.5.1).
    #[tactic(auto, unfolding(c_grammar::specs::StatementReader::while_from))]
    #[cycle(reader)]
    fn while_statement(
        &self,
        tokens: &mut Cursor<'_, 'a>,
        depth: usize,
        position: Position,
    ) -> Result<Boxed<Statement<'a>>, Fault>
        ensures { Reads statement_of (spec.while_from self.now.levels self.now.names.now
            (spec.statements self.now.levels self.now.names.now depth) position
            tokens.old.rest.now) result tokens.new.rest.now }
    {
        let condition = parenthesized(self.alloc, self.names, tokens, self.levels)?;
        let body = self.statement(tokens, depth)?;
        Ok(while_with(self.alloc, position, condition, body)?)
    }

    /// Reads what stands behind `do` (C99 6.8.5.2).
    #[tactic(auto, unfolding(c_grammar::specs::StatementReader::do_from))]
    #[cycle(reader)]
    fn do_statement(
        &self,
        tokens: &mut Cursor<'_, 'a>,
        depth: usize,
        position: Position,
    ) -> Result<Boxed<Statement<'a>>, Fault>
        ensures { Reads statement_of (spec.do_from self.now.levels self.now.names.now
            (spec.statements self.now.levels self.now.names.now depth) position
            tokens.old.rest.now) result tokens.new.rest.now }
    {
        let body = self.statement(tokens, depth)?;
        let end = do_end(self.alloc, self.names, tokens, self.levels)?;
        Ok(do_with(self.alloc, position, body, end)?)
    }

    /// Reads what stands behind `for` (C99 6.8.5.3).
    #[tactic(auto, unfolding(c_grammar::specs::StatementReader::for_from))]
    #[cycle(reader)]
    fn for_statement(
        &self,
        tokens: &mut Cursor<'_, 'a>,
        depth: usize,
        position: Position,
    ) -> Result<Boxed<Statement<'a>>, Fault>
        ensures { Reads statement_of (spec.for_from self.now.levels self.now.names.now
            (spec.statements self.now.levels self.now.names.now depth) position
            tokens.old.rest.now) result tokens.new.rest.now }
    {
        let head = for_head(self.alloc, self.names, tokens, self.levels)?;
        let body = self.statement(tokens, depth)?;
        Ok(for_with(self.alloc, position, head, body)?)
    }

    /// Reads what stands behind `case` (C99 6.8.1).
    #[tactic(auto, unfolding(c_grammar::specs::StatementReader::case_from))]
    #[cycle(reader)]
    fn case_statement(
        &self,
        tokens: &mut Cursor<'_, 'a>,
        depth: usize,
        position: Position,
    ) -> Result<Boxed<Statement<'a>>, Fault>
        ensures { Reads statement_of (spec.case_from self.now.levels self.now.names.now
            (spec.statements self.now.levels self.now.names.now depth) position
            tokens.old.rest.now) result tokens.new.rest.now }
    {
        let label = case_label(self.alloc, self.names, tokens, self.levels, position)?;
        let labelled = self.statement(tokens, depth)?;
        Ok(case_with(self.alloc, label, labelled)?)
    }

    /// Reads what stands behind `default` (C99 6.8.1).
    #[tactic(auto, unfolding(c_grammar::specs::StatementReader::default_from))]
    #[cycle(reader)]
    fn default_statement(
        &self,
        tokens: &mut Cursor<'_, 'a>,
        depth: usize,
        position: Position,
    ) -> Result<Boxed<Statement<'a>>, Fault>
        ensures { Reads statement_of (spec.default_from self.now.levels self.now.names.now
            (spec.statements self.now.levels self.now.names.now depth) position tokens.old.rest.now)
            result tokens.new.rest.now }
    {
        let colon = tokens.expect(Punctuator::Colon)?;
        let labelled = self.statement(tokens, depth)?;
        Ok(default_with(self.alloc, position, colon, labelled)?)
    }

    /// Reads a declaration or statement of a block (C99 6.8.2).
    #[tactic(auto, unfolding(c_grammar::specs::StatementReader::block_item_from))]
    #[cycle(reader)]
    fn block_item(&self, tokens: &mut Cursor<'_, 'a>, depth: usize) -> Result<BlockItem<'a>, Fault>
        ensures { Reads block_item_of (spec.block_item_from self.now.levels self.now.names.now
            (spec.statements self.now.levels self.now.names.now depth)
            tokens.old.rest.now) result tokens.new.rest.now }
    {
        if begins_specifiers(self.names, tokens.rest) {
            let declaration = local(self.alloc, self.names, tokens, self.levels)?;
            return Ok(declaration_item(declaration));
        }
        let inner = self.statement(tokens, depth)?;
        Ok(statement_item(inner))
    }

    /// Reads declarations and statements up to `}` (C99 6.8.2).
    #[tactic(auto, unfolding(c_grammar::specs::Reader::up_to_brace))]
    #[cycle(reader)]
    fn block_items(
        &self,
        tokens: &mut Cursor<'_, 'a>,
        depth: usize,
    ) -> Result<Items<BlockItem<'a>>, Fault>
        ensures { Reads block_items_in (up_to_brace (spec.block_item_from self.now.levels self.now.names.now
            (spec.statements self.now.levels self.now.names.now depth)) (length tokens.old.rest.now)
            tokens.old.rest.now) result tokens.new.rest.now }
    {
        let mut items = Vec::new(self.alloc);
        for _ in 0..tokens.rest.len() {
            if next_is(tokens.rest, Punctuator::RightBrace) {
                return Ok(Items::from_vec(items));
            }
            let item = self.block_item(tokens, depth)?;
            items.push(item)?;
        }
        Err(Fault::Refused)
    }

    /// Reads a block (C99 6.8.2).
    #[tactic(auto, unfolding(c_grammar::specs::StatementReader::block_at))]
    #[cycle(reader)]
    pub fn block_at(&self, tokens: &mut Cursor<'_, 'a>, depth: usize) -> Result<Block<'a>, Fault>
        ensures { Reads block_of (spec.block_at self.now.levels self.now.names.now
            (spec.statements self.now.levels self.now.names.now depth) tokens.old.rest.now) result tokens.new.rest.now }
    {
        let left = tokens.expect(Punctuator::LeftBrace)?;
        let items = self.block_items(tokens, depth)?;
        let right = tokens.expect(Punctuator::RightBrace)?;
        Ok(block_with(left, items, right))
    }

    /// Reads a statement that begins with a keyword, which is next, before the rest, and has another statement inside
    /// (C99
    /// 6.8).
    #[tactic(auto, unfolding(c_grammar::specs::StatementReader::outer_by))]
    #[cycle(reader)]
    fn outer<'r>(
        &self,
        tokens: &mut Cursor<'r, 'a>,
        depth: usize,
        keyword: Keyword,
        position: Position,
        rest: &'r [Positioned<'a>],
    ) -> Result<Boxed<Statement<'a>>, Fault>
        requires next { tokens.old.rest.now ≡ word_at (kinds.Keyword keyword) position ∷ rest.now }
        ensures { Reads statement_of (spec.outer_by self.now.levels self.now.names.now
            (spec.statements self.now.levels self.now.names.now depth) keyword position rest.now) result
            tokens.new.rest.now }
    {
        match keyword {
            Keyword::If => {
                tokens.rest = rest;
                self.if_statement(tokens, depth, position)
            }
            Keyword::Switch => {
                tokens.rest = rest;
                self.switch_statement(tokens, depth, position)
            }
            Keyword::While => {
                tokens.rest = rest;
                self.while_statement(tokens, depth, position)
            }
            Keyword::Do => {
                tokens.rest = rest;
                self.do_statement(tokens, depth, position)
            }
            Keyword::For => {
                tokens.rest = rest;
                self.for_statement(tokens, depth, position)
            }
            Keyword::Case => {
                tokens.rest = rest;
                self.case_statement(tokens, depth, position)
            }
            Keyword::Default => {
                tokens.rest = rest;
                self.default_statement(tokens, depth, position)
            }
            _ => Err(Fault::Refused),
        }
    }

    /// Reads a statement that begins with a keyword, which is next, before the rest, and has no other inside (C99
    /// 6.8.3,
    /// 6.8.6).
    #[tactic(auto, unfolding(c_grammar::specs::StatementReader::plain_by))]
    fn plain<'r>(
        &self,
        tokens: &mut Cursor<'r, 'a>,
        keyword: Keyword,
        position: Position,
        rest: &'r [Positioned<'a>],
    ) -> Result<Boxed<Statement<'a>>, Fault>
        requires next { tokens.old.rest.now ≡ word_at (kinds.Keyword keyword) position ∷ rest.now }
        ensures { Reads statement_of (spec.plain_by self.now.levels self.now.names.now keyword position rest.now) result
            tokens.new.rest.now }
    {
        match keyword {
            Keyword::Break => {
                tokens.rest = rest;
                let semicolon = tokens.expect(Punctuator::Semicolon)?;
                Ok(break_with(self.alloc, position, semicolon)?)
            }
            Keyword::Continue => {
                tokens.rest = rest;
                let semicolon = tokens.expect(Punctuator::Semicolon)?;
                Ok(continue_with(self.alloc, position, semicolon)?)
            }
            Keyword::Return => {
                tokens.rest = rest;
                return_statement(self.alloc, self.names, tokens, self.levels, position)
            }
            _ => expression_statement(self.alloc, self.names, tokens, self.levels),
        }
    }

    /// Reads a statement that begins with a keyword, which is next, before the rest (C99 6.8).
    #[tactic(auto, unfolding(c_grammar::specs::StatementReader::keyword_by))]
    #[cycle(reader)]
    fn by_keyword<'r>(
        &self,
        tokens: &mut Cursor<'r, 'a>,
        depth: usize,
        keyword: Keyword,
        position: Position,
        rest: &'r [Positioned<'a>],
    ) -> Result<Boxed<Statement<'a>>, Fault>
        requires next { tokens.old.rest.now ≡ word_at (kinds.Keyword keyword) position ∷ rest.now }
        ensures { Reads statement_of (spec.keyword_by self.now.levels self.now.names.now
            (spec.statements self.now.levels self.now.names.now depth) depth keyword position rest.now) result
            tokens.new.rest.now }
    {
        if !holds_statement(keyword) {
            return self.plain(tokens, keyword, position, rest);
        }
        if depth < 1 {
            return Err(Fault::Refused);
        }
        self.outer(tokens, depth, keyword, position, rest)
    }

    /// Reads a statement that begins with a punctuator, which is next, before the rest (C99 6.8).
    #[tactic(auto, unfolding(c_grammar::specs::StatementReader::punctuator_by))]
    #[cycle(reader)]
    fn by_punctuator(
        &self,
        tokens: &mut Cursor<'_, 'a>,
        depth: usize,
        punctuator: Punctuator,
        position: Position,
        rest: &[Positioned<'a>],
    ) -> Result<Boxed<Statement<'a>>, Fault>
        requires next { tokens.old.rest.now ≡ word_at (kinds.Punctuator punctuator) position ∷ rest.now }
        ensures { Reads statement_of (spec.punctuator_by self.now.levels self.now.names.now
            (spec.statements self.now.levels self.now.names.now depth) punctuator position rest.now) result
            tokens.new.rest.now }
    {
        if !is_same(Punctuator::LeftBrace, punctuator) {
            return expression_statement(self.alloc, self.names, tokens, self.levels);
        }
        let block = self.block_at(tokens, depth)?;
        Ok(compound(self.alloc, block)?)
    }

    /// Reads a statement by its first word, which is next, before the rest (C99 6.8).
    #[tactic(auto, unfolding(c_grammar::specs::StatementReader::statement_by))]
    #[cycle(reader)]
    fn by_word<'r>(
        &self,
        tokens: &mut Cursor<'r, 'a>,
        depth: usize,
        first: &TokenKind<'a>,
        position: Position,
        rest: &'r [Positioned<'a>],
    ) -> Result<Boxed<Statement<'a>>, Fault>
        requires next { tokens.old.rest.now ≡ word_at first.now position ∷ rest.now }
        ensures { Reads statement_of (spec.statement_by self.now.levels self.now.names.now
            (spec.statements self.now.levels self.now.names.now depth) depth first.now position rest.now) result
            tokens.new.rest.now }
    {
        match first {
            TokenKind::Keyword(keyword) => self.by_keyword(tokens, depth, *keyword, position, rest),
            TokenKind::Punctuator(punctuator) => self.by_punctuator(
                tokens,
                depth,
                *punctuator,
                position,
                rest,
            ),
            _ => expression_statement(self.alloc, self.names, tokens, self.levels),
        }
    }

    /// Reads a statement whose parts have fewer levels (C99 6.8).
    #[tactic(auto, unfolding(c_grammar::specs::StatementReader::statement_at))]
    #[cycle(reader)]
    pub fn statement_at(
        &self,
        tokens: &mut Cursor<'_, 'a>,
        depth: usize,
    ) -> Result<Boxed<Statement<'a>>, Fault>
        ensures { Reads statement_of (spec.statement_at self.now.levels self.now.names.now
            (spec.statements self.now.levels self.now.names.now depth) depth tokens.old.rest.now) result
            tokens.new.rest.now }
    {
        let [first, rest @ ..] = tokens.rest else {
            return Err(Fault::Refused);
        };
        self.by_word(tokens, depth, &first.kind, first.position, rest)
    }

    /// Reads a statement with fewer than this number of levels (C99 6.8).
    #[cycle(reader)]
    fn statement(
        &self,
        tokens: &mut Cursor<'_, 'a>,
        depth: usize,
    ) -> Result<Boxed<Statement<'a>>, Fault>
        ensures { Reads statement_of ((spec.statements self.now.levels self.now.names.now depth).statement
            tokens.old.rest.now) result tokens.new.rest.now }
    {
        if depth == 0 {
            return Err(Fault::Refused);
        }
        self.statement_at(tokens, depth - 1)
    }

    /// Reads a block with fewer than this number of levels (C99 6.8.2).
    #[cycle(reader)]
    fn block(&self, tokens: &mut Cursor<'_, 'a>, depth: usize) -> Result<Block<'a>, Fault>
        ensures { Reads block_of ((spec.statements self.now.levels self.now.names.now depth).block tokens.old.rest.now)
            result tokens.new.rest.now }
    {
        if depth == 0 {
            return Err(Fault::Refused);
        }
        self.block_at(tokens, depth - 1)
    }
}

/// Reads a block with fewer than this number of levels, whose expressions and declarations have at most another number
/// (C99
/// 6.8.2).
pub fn block<'a>(
    alloc: Global,
    names: &TypedefNames<'a>,
    tokens: &mut Cursor<'_, 'a>,
    levels: u8,
    depth: usize,
) -> Result<Block<'a>, Fault>
    ensures { Reads block_of ((spec.statements levels names.now depth).block tokens.old.rest.now) result
        tokens.new.rest.now }
{
    Statements {
        alloc,
        names,
        levels,
    }
    .block(tokens, depth)
}
