//! The body of a polygon: its rings, as the words of their points.

ghost use Rattle.std.specs.Prelude.{◌≡◌, IfOk, OnOk, if◌then◌else◌};
ghost use Rattle.std.specs.Option.{option_map};
ghost use Rattle.land_shape.specs.Reader.{progress_of, after_token, start_of_body, with_point, with_ring};
ghost use Rattle.land_shape.specs.Reader.{is_point};
ghost use Rattle.land_shape.specs.Reader.{body_of};

use crate::tokens::{Token, Word};
use std::alloc::{AllocError, Global};
use std::marker::Model;
use std::mem;

/// The words of a point. Contracts see it as a list of words.
#[derive(Drop)]
pub(crate) struct WrittenPoint<'a> {
    words: Vec<Word<'a>>,
}

impl<'a> Model for WrittenPoint<'a> {
    ghost use Rattle.land_shape.specs.Grammar.{Words};

    ghost Value = { Words };

    ghost view = { λ p. p.words.items };
}

impl<'a> WrittenPoint<'a> {
    pub(crate) fn words(&self) -> &[Word<'a>]
        ensures { result.now ≡ self.now }
    {
        &self.words
    }
}

/// The points of a ring. Contracts see it as a list of points.
#[derive(Drop)]
pub(crate) struct WrittenRing<'a> {
    points: Vec<WrittenPoint<'a>>,
}

impl<'a> Model for WrittenRing<'a> {
    ghost use Rattle.land_shape.specs.Grammar.{Points};

    ghost Value = { Points };

    ghost view = { λ r. r.points.items };
}

impl<'a> WrittenRing<'a> {
    pub(crate) fn points(&self) -> &[WrittenPoint<'a>]
        ensures { result.now ≡ self.now }
    {
        &self.points
    }
}

/// The position of the reader in a body.
#[derive(Clone, Copy, PartialEq, Eq)]
pub(crate) enum At {
    BeforeBody,
    BeforeRing,
    InPoint,
    AfterRing,
    AfterBody,
}

/// The state of reading a body: the complete rings, the points of the current ring, the words of the current
/// point.
#[derive(Drop)]
pub(crate) struct Progress<'a> {
    at: At,
    rings: Vec<WrittenRing<'a>>,
    points: Vec<WrittenPoint<'a>>,
    words: Vec<Word<'a>>,
}

impl<'a> Progress<'a> {
    fn new(alloc: Global) -> Progress<'a>
        ensures { progress_of result ≡ start_of_body }
    {
        Progress {
            at: At::BeforeBody,
            rings: Vec::new(alloc),
            points: Vec::new(alloc),
            words: Vec::new(alloc),
        }
    }

    /// Checks if the current words are a point.
    fn has_point(&self) -> bool
        ensures { result ≡ is_point (progress_of self.now).words }
    {
        2 <= self.words.len() && self.words.len() <= 4
    }

    /// Completes the current point.
    fn end_point(&mut self, alloc: Global) -> Result<(), AllocError>
        ensures { OnOk result (progress_of self.new ≡ with_point (progress_of self.old)) }
    {
        let words = mem::replace(&mut self.words, Vec::new(alloc));
        self.points.push(WrittenPoint { words })?;
        Ok(())
    }

    /// Completes the current ring.
    fn end_ring(&mut self, alloc: Global) -> Result<(), AllocError>
        ensures { OnOk result (progress_of self.new ≡ with_ring (progress_of self.old)) }
    {
        let points = mem::replace(&mut self.points, Vec::new(alloc));
        self.rings.push(WrittenRing { points })?;
        self.at = At::AfterRing;
        Ok(())
    }

    /// Reads one more token. Returns false if a body cannot continue with it.
    fn take(&mut self, alloc: Global, token: &Token<'a>) -> Result<bool, AllocError>
        ensures { IfOk result (λ goes_on. after_token (progress_of self.old) token.now
            ≡ (if goes_on then Some (progress_of self.new) else None)) }
    {
        match (self.at, token) {
            (At::BeforeBody, Token::Open) => self.at = At::BeforeRing,
            (At::BeforeRing, Token::Open) => self.at = At::InPoint,
            (At::InPoint, Token::Word(word)) => self.words.push(word.copy())?,
            (At::InPoint, Token::Comma) if self.has_point() => self.end_point(alloc)?,
            (At::InPoint, Token::Close) if self.has_point() => {
                self.end_point(alloc)?;
                self.end_ring(alloc)?;
            }
            (At::AfterRing, Token::Comma) => self.at = At::BeforeRing,
            (At::AfterRing, Token::Close) => self.at = At::AfterBody,
            _ => return Ok(false),
        }
        Ok(true)
    }
}

/// Returns the rings of a body, or `None` if the tokens are not a body.
pub(crate) fn body_of<'a>(
    alloc: Global,
    tokens: &[Token<'a>],
) -> Result<Option<Vec<WrittenRing<'a>>>, AllocError>
    ensures { IfOk result (λ body. option_map (λ rings. rings.items) body ≡ body_of tokens.now) }
{
    let mut progress = Progress::new(alloc);
    for token in tokens {
        if !progress.take(alloc, token)? {
            return Ok(None);
        }
    }
    if progress.at != At::AfterBody {
        return Ok(None);
    }
    Ok(Some(progress.rings))
}
