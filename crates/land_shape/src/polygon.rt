//! Polygons: the word EMPTY, or a body.

ghost use Rattle.std.specs.Prelude.{◌≡◌, IfOk, MatchOption, Some, None};
ghost use Rattle.std.specs.Option.{option_map};
ghost use Rattle.land_shape.specs.Reader.{split_head, split_tag, is_only_empty_word, polygon_of};
ghost use Rattle.land_shape.specs.Reader.{written_polygon};

use crate::body::{WrittenRing, body_of};
use crate::tokens::Token;
use crate::words::{is_empty_word, is_keyword, is_tag, is_tagged_keyword};
use std::alloc::{AllocError, Global};

/// A polygon after its head.
#[derive(Drop)]
pub(crate) enum WrittenPolygon<'a> {
    Empty,
    Body {
        tagged: bool,
        rings: Vec<WrittenRing<'a>>,
    },
}

/// Returns whether the first token is a tag, and the remainder without it.
fn split_tag<'b, 'a>(tokens: &'b [Token<'a>]) -> (bool, &'b [Token<'a>])
    ensures tagged { result.0 ≡ (split_tag tokens.now).0 }
    ensures rest { result.1.now ≡ (split_tag tokens.now).1 }
{
    if let Some((Token::Word(word), rest)) = tokens.split_first() {
        if is_tag(word.bytes()) {
            return (true, rest);
        }
    }
    (false, tokens)
}

/// Returns whether the head has a tag, and the tokens after the head. `None` if the first token is not the
/// keyword.
fn split_head<'b, 'a>(tokens: &'b [Token<'a>]) -> Option<(bool, &'b [Token<'a>])>
    ensures { MatchOption result (split_head tokens.now ≡ None)
        (λ r. split_head tokens.now ≡ Some (r.0, r.1.now)) }
{
    let Some((Token::Word(word), rest)) = tokens.split_first() else {
        return None;
    };
    if is_tagged_keyword(word.bytes()) {
        return Some((true, rest));
    }
    if !is_keyword(word.bytes()) {
        return None;
    }
    Some(split_tag(rest))
}

/// Checks if the tokens are only the word EMPTY.
fn is_only_empty_word(tokens: &[Token<'_>]) -> bool
    ensures { result ≡ is_only_empty_word tokens.now }
{
    if let Some((Token::Word(word), rest)) = tokens.split_first() {
        return rest.is_empty() && is_empty_word(word.bytes());
    }
    false
}

/// Returns the polygon of a whole text, or `None` if it is not one.
pub(crate) fn polygon_of<'a>(
    alloc: Global,
    tokens: &[Token<'a>],
) -> Result<Option<WrittenPolygon<'a>>, AllocError>
    ensures { IfOk result (λ polygon. option_map written_polygon polygon ≡ polygon_of tokens.now) }
{
    let Some((tagged, rest)) = split_head(tokens) else {
        return Ok(None);
    };
    if is_only_empty_word(rest) {
        return Ok(Some(WrittenPolygon::Empty));
    }
    match body_of(alloc, rest)? {
        Some(rings) => Ok(Some(WrittenPolygon::Body { tagged, rings })),
        None => Ok(None),
    }
}
