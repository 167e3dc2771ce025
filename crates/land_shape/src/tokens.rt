//! The tokens of an outline's text.

ghost use Rattle.std.specs.Prelude.{◌≡◌, ◌++◌, ◌∷◌, IfOk, OnOk, List};
ghost use Rattle.land_shape.specs.Tokens.{is_word_byte, mark_of, word_of, tokens_of};

use std::alloc::{AllocError, Global};
use std::marker::Model;

/// A word of a text. Contracts see it as its bytes.
#[derive(Drop)]
pub(crate) struct Word<'a> {
    bytes: &'a [u8],
}

impl<'a> Model for Word<'a> {
    ghost use Rattle.std.specs.Prelude.{ℕ, List};

    ghost Value = { List ℕ };

    ghost view = { λ w. w.bytes.now };
}

impl<'a> Word<'a> {
    pub(crate) fn bytes(&self) -> &'a [u8]
        ensures { result.now ≡ self.now }
    {
        self.bytes
    }

    /// Returns a copy of the word. Allocates nothing.
    pub(crate) fn copy(&self) -> Word<'a>
        ensures { result ≡ self.now }
    {
        Word { bytes: self.bytes }
    }
}

/// A parenthesis, a comma or a word.
#[derive(Drop)]
pub(crate) enum Token<'a> {
    Open,
    Close,
    Comma,
    Word(Word<'a>),
}

/// Checks if a byte can be part of a word: not a parenthesis, comma or white space.
fn is_word_byte(byte: u8) -> bool
    ensures { result ≡ is_word_byte byte }
{
    !matches!(byte, b'(' | b')' | b',' | b' ' | b'\t' | b'\n' | b'\r')
}

/// Appends the word, if it is not empty.
fn push_word<'a>(tokens: &mut Vec<Token<'a>>, bytes: &'a [u8]) -> Result<(), AllocError>
    ensures { OnOk result (tokens.new.items ≡ tokens.old.items ++ word_of bytes.now) }
{
    if !bytes.is_empty() {
        tokens.push(Token::Word(Word { bytes }))?;
    }
    Ok(())
}

/// Appends the token of a byte outside a word, if it is one.
fn push_mark(tokens: &mut Vec<Token<'_>>, byte: u8) -> Result<(), AllocError>
    ensures { OnOk result (tokens.new.items ≡ tokens.old.items ++ mark_of byte) }
{
    match byte {
        b'(' => tokens.push(Token::Open)?,
        b')' => tokens.push(Token::Close)?,
        b',' => tokens.push(Token::Comma)?,
        _ => {}
    }
    Ok(())
}

/// Returns the tokens of a text, in order.
pub(crate) fn tokens_of<'a>(alloc: Global, text: &'a str) -> Result<Vec<Token<'a>>, AllocError>
    ensures { IfOk result (λ tokens. tokens.items ≡ tokens_of text.now) }
{
    let bytes = text.as_bytes();
    let mut tokens = Vec::new(alloc);
    let mut start = 0;
    for (i, byte) in bytes.iter().enumerate() {
        if !is_word_byte(*byte) {
            push_word(&mut tokens, &bytes[start..i])?;
            push_mark(&mut tokens, *byte)?;
            start = i + 1;
        }
    }
    push_word(&mut tokens, &bytes[start..])?;
    Ok(tokens)
}
