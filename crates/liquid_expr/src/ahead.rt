// What the next tokens are.
ghost use Rattle.std.specs.Prelude.{◌≡◌, codes, IfOk};
ghost use Rattle.liquid_grammar.specs.declared.literal.Literal.TheVariants as literals;
ghost use Rattle.liquid_grammar.specs.Expressions.{word_literal, is_joining, word_start, start_of, follow_of, closes_bracket, closes_range, goes_to, is_comma, is_bar, is_colon, word_at};
ghost use Rattle.liquid_grammar.specs.Conditions.{is_assign, comparison, joint_of, joint};
ghost use Rattle.liquid_grammar.specs.Tags.{is_reserved, name_at, is_word};
ghost use Rattle.liquid_expr.specs.Ahead.{text_of, start_is, follow_is};
ghost use Rattle.liquid_expr.specs.Tokens.{tokens_of};

use crate::token::Token;
use crate::tokens::{Tokens, first, rest};
use liquid_grammar::{Comparison, Joint, Literal, Mark};
use site_base::{Boxed, Memory, Text};
use std::alloc::Global;

/// What starts an operand.
#[derive(Drop)]
pub(crate) enum Start<'a> {
    Variable(&'a str),
    Literal(Literal),
    Range,
    Nothing,
}

/// What follows a variable.
#[derive(Clone, Copy)]
pub(crate) enum Follow<'a> {
    Name(&'a str),
    Bracket,
    /// A dot without a name.
    Nothing,
    End,
}

pub(crate) fn start_of<'a>(alloc: Global, tokens: Tokens<'a>) -> Result<Start<'a>, Memory>
    ensures { IfOk result (λ start. start_is start ≡ start_of (tokens_of tokens.entry)) }
{
    match first(tokens) {
        Some(Token::Word(name)) => Ok(word_start(name)),
        Some(Token::Text(text)) => match text_literal(alloc, text) {
            Ok(literal) => Ok(Start::Literal(literal)),
            Err(Memory) => Err(Memory),
        },
        Some(Token::Whole(number)) => Ok(Start::Literal(Literal::Int(number))),
        Some(Token::Large) => Ok(Start::Literal(Literal::Int(0))),
        Some(Token::Mark(Mark::OpenRange)) => Ok(Start::Range),
        _ => Ok(Start::Nothing),
    }
}

fn text_literal(alloc: Global, text: &str) -> Result<Literal, Memory>
    ensures { IfOk result (λ literal. literal ≡ literals.Text text.now) }
{
    let text = Text::copy(alloc, text)?;
    Ok(Literal::Text(Boxed::new(alloc, text)?))
}

fn word_start<'a>(name: &'a str) -> Start<'a>
    ensures { start_is result ≡ word_start name.now (word_literal name.now) }
{
    match word_literal(name) {
        Some(literal) => Start::Literal(literal),
        None => {
            if is_joining(name) {
                Start::Nothing
            } else {
                Start::Variable(name)
            }
        }
    }
}

fn word_literal(name: &str) -> Option<Literal>
    ensures { result ≡ word_literal name.now }
{
    if name == "nil" {
        Some(Literal::Nil)
    } else if name == "null" {
        Some(Literal::Nil)
    } else if name == "true" {
        Some(Literal::Bool(true))
    } else if name == "false" {
        Some(Literal::Bool(false))
    } else if name == "blank" {
        Some(Literal::Blank)
    } else if name == "empty" {
        Some(Literal::Empty)
    } else {
        None
    }
}

fn is_joining(name: &str) -> bool
    ensures { result ≡ is_joining name.now }
{
    name == "and" || name == "or" || name == "contains"
}

pub(crate) fn follow_of<'a>(tokens: Tokens<'a>) -> Follow<'a>
    ensures { follow_is result ≡ follow_of (tokens_of tokens.entry) }
{
    match first(tokens) {
        Some(Token::Mark(Mark::Dot)) => match word_at(rest(tokens, 1)) {
            Some(name) => Follow::Name(name),
            None => Follow::Nothing,
        },
        Some(Token::Mark(Mark::OpenBracket)) => Follow::Bracket,
        _ => Follow::End,
    }
}

pub(crate) fn closes_bracket(tokens: Tokens) -> bool
    ensures { result ≡ closes_bracket (tokens_of tokens.entry) }
{
    matches!(first(tokens), Some(Token::Mark(Mark::CloseBracket)))
}

pub(crate) fn closes_range(tokens: Tokens) -> bool
    ensures { result ≡ closes_range (tokens_of tokens.entry) }
{
    matches!(first(tokens), Some(Token::Mark(Mark::CloseRange)))
}

pub(crate) fn goes_to(tokens: Tokens) -> bool
    ensures { result ≡ goes_to (tokens_of tokens.entry) }
{
    matches!(first(tokens), Some(Token::Mark(Mark::To)))
}

pub(crate) fn is_comma(tokens: Tokens) -> bool
    ensures { result ≡ is_comma (tokens_of tokens.entry) }
{
    matches!(first(tokens), Some(Token::Mark(Mark::Comma)))
}

pub(crate) fn is_bar(tokens: Tokens) -> bool
    ensures { result ≡ is_bar (tokens_of tokens.entry) }
{
    matches!(first(tokens), Some(Token::Mark(Mark::Bar)))
}

pub(crate) fn is_colon(tokens: Tokens) -> bool
    ensures { result ≡ is_colon (tokens_of tokens.entry) }
{
    matches!(first(tokens), Some(Token::Mark(Mark::Colon)))
}

pub(crate) fn is_assign(tokens: Tokens) -> bool
    ensures { result ≡ is_assign (tokens_of tokens.entry) }
{
    matches!(first(tokens), Some(Token::Mark(Mark::Assign)))
}

/// The word at the front.
pub(crate) fn word_at<'a>(tokens: Tokens<'a>) -> Option<&'a str>
    ensures { text_of result ≡ word_at (tokens_of tokens.entry) }
{
    match first(tokens) {
        Some(Token::Word(name)) => Some(name),
        _ => None,
    }
}

/// The comparison at the front.
pub(crate) fn comparison(tokens: Tokens) -> Option<Comparison>
    ensures { result ≡ comparison (tokens_of tokens.entry) }
{
    match first(tokens) {
        Some(Token::Mark(Mark::Compare(how))) => Some(how),
        Some(Token::Word(name)) if name == "contains" => Some(Comparison::Contains),
        _ => None,
    }
}

/// The joint at the front.
pub(crate) fn joint(tokens: Tokens) -> Option<Joint>
    ensures { result ≡ joint (tokens_of tokens.entry) }
{
    match first(tokens) {
        Some(Token::Word(name)) => joint_of(name),
        _ => None,
    }
}

fn joint_of(name: &str) -> Option<Joint>
    ensures { result ≡ joint_of name.now }
{
    if name == "and" {
        Some(Joint::And)
    } else if name == "or" {
        Some(Joint::Or)
    } else {
        None
    }
}

// Whether a word names no variable.
fn is_reserved(name: &str) -> bool
    ensures { result ≡ is_reserved name.now }
{
    word_literal(name).is_some() || is_joining(name)
}

/// The name of a variable at the front.
pub(crate) fn name_at<'a>(tokens: Tokens<'a>) -> Option<&'a str>
    ensures { text_of result ≡ name_at (tokens_of tokens.entry) }
{
    match word_at(tokens) {
        Some(name) => { if is_reserved(name) { None } else { Some(name) } }
        None => None,
    }
}

/// Whether `or` stands at the front.
pub(crate) fn is_or(tokens: Tokens) -> bool
    ensures { result ≡ is_word (codes "or") (tokens_of tokens.entry) }
{
    match word_at(tokens) {
        Some(name) => name == "or",
        None => false,
    }
}

/// Whether `in` stands at the front.
pub(crate) fn is_in(tokens: Tokens) -> bool
    ensures { result ≡ is_word (codes "in") (tokens_of tokens.entry) }
{
    match word_at(tokens) {
        Some(name) => name == "in",
        None => false,
    }
}
