// The tokens of a text, of which only the places are kept.
ghost use Rattle.std.specs.Prelude.{◌≡◌, ◌-◌, drop, IfOk, MatchOption, Some, None};
ghost use Rattle.liquid_grammar.specs.Tokens.{token_at, tokens};
ghost use Rattle.liquid_expr.specs.Token.{token_of};
ghost use Rattle.liquid_expr.specs.Tokens.{token_in, tokens_of, count, begun, ArePlaces, or_large};

use crate::token::{Token, after, begins_white, is_large, token_at};
use site_base::Memory;
use std::alloc::Global;

// A place in a longer text has no u32.
const MOST_BYTES: usize = u32::MAX as usize;

/// Tokens of a text, one after another. Only the places where they start are kept, since a token takes six times the room; what
/// a token says is read again where it is looked at.
#[derive(Clone, Copy)]
pub(crate) struct Tokens<'a> {
    pub text: &'a str,
    pub places: &'a [u32],
}

/// The places where tokens start, and whether a whole number among these is no i64.
#[derive(Drop)]
pub(crate) struct Places {
    pub list: Vec<u32>,
    pub has_large: bool,
}

/// The places of a text's tokens, or None where something in it is no token.
pub(crate) fn token_places(alloc: Global, text: &str) -> Result<Option<Places>, Memory>
    ensures { IfOk result (λ found. MatchOption found (tokens text.now ≡ None) (λ places. ArePlaces text.now places.list.items places.has_large)) }
{
    if text.len() > MOST_BYTES {
        return Err(Memory);
    }
    let mut list = Vec::new(alloc);
    let mut has_large = false;
    let mut rest = text;
    while !rest.is_empty() {
        if begins_white(rest) {
            rest = after(rest, 1);
        } else {
            match token_at(rest) {
                Some((token, len)) => {
                    list.push((text.len() - rest.len()) as u32)?;
                    has_large = or_large(has_large, &token);
                    rest = after(rest, len);
                }
                None => return Ok(None),
            }
        }
    }
    Ok(Some(Places { list, has_large }))
}

// Whether something before was too large, or this token is.
fn or_large(before: bool, token: &Token) -> bool
    ensures { result ≡ or_large before (token_of token.now) }
{
    before || is_large(token)
}

// What stands from a place on. No token stands where no character starts.
fn text_from<'a>(text: &'a str, place: usize) -> &'a str
    ensures { token_at result.now ≡ token_at (drop place text.now) }
{
    if text.is_char_boundary(place) {
        &text[place..]
    } else {
        ""
    }
}

// The token at a place.
fn token_in<'a>(text: &'a str, place: u32) -> Token<'a>
    ensures { token_of result ≡ token_in text.now place }
{
    let rest = text_from(text, place as usize);
    if rest.is_empty() {
        return Token::Large;
    }
    match token_at(rest) {
        Some((token, _)) => token,
        None => Token::Large,
    }
}

/// The token at the front.
pub(crate) fn first<'a>(tokens: Tokens<'a>) -> Option<Token<'a>>
    ensures { tokens_of tokens.entry ≡ begun result (drop 1 (tokens_of tokens.entry)) }
{
    match tokens.places {
        [place, ..] => Some(token_in(tokens.text, *place)),
        [] => None,
    }
}

// What follows the first places.
fn places_behind<'a>(places: &'a [u32], len: usize) -> &'a [u32]
    ensures { result.now ≡ drop len places.now }
{
    if len <= places.len() {
        &places[len..]
    } else {
        &[]
    }
}

/// What follows the first tokens.
pub(crate) fn rest<'a>(tokens: Tokens<'a>, len: usize) -> Tokens<'a>
    ensures seen { tokens_of result ≡ drop len (tokens_of tokens.entry) }
    ensures count { count result ≡ count tokens.entry - len }
{
    Tokens {
        text: tokens.text,
        places: places_behind(tokens.places, len),
    }
}
