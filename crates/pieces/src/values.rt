// A value by its parts, as the rules look at it.

ghost use Rattle.std.specs.Prelude.{◌≡◌};
ghost use Rattle.nodes.specs.Table.{as_lang};
ghost use Rattle.pieces.specs.Pieces.{Few};
ghost use Rattle.pieces.specs.Values.{Split, BodyOf, is_lump_by, Paired, Looks};

use nodes::kinds::{Language, Shape, shape_of};
use nodes::words::{L, ML_CONS, MS, SCHEME_CONS};
use writing::spans::skip;

// A value by its form, or a term that is none. Its parts are words.
#[derive(Clone, Copy)]
pub enum Value<'a> {
    Number(u32),
    // in ML the type of its variable, and the body
    Lambda(&'a [u32]),
    // in ML the type of the elements
    Nil(&'a [u32]),
    // the head, and the tail
    Cons(&'a [u32]),
    // ms at an owner's L, by the word of the L
    Lump(u32, &'a [u32]),
    Other,
}

// The words of the first node, and the words after it.
#[inline(always)]
pub fn split(words: &[u32]) -> (&[u32], &[u32])
    requires { Few words.now }
    ensures { Split words.now result.0.now result.1.now }
{
    words.split_at(skip(words, 1))
}

// Whether the words start with ms at an owner's L.
#[inline(always)]
pub fn is_lump(words: &[u32]) -> bool
    ensures { result ≡ is_lump_by words.now }
{
    matches!(words, [MS, owner, ..] if owner % 256 == L)
}

// The body of a lambda of a language, by its parts.
#[inline(always)]
pub fn body_of(language: Language, parts: &[u32]) -> &[u32]
    requires { Few parts.now }
    ensures { BodyOf (as_lang language) parts.now result.now }
{
    match language {
        Language::Ml => split(parts).1,
        Language::Scheme => parts,
    }
}

// A cons or a lump: what is told by whole words.
#[inline(always)]
fn pair_of(words: &[u32]) -> Value<'_>
    ensures { Paired words.now result }
{
    match words {
        [ML_CONS | SCHEME_CONS, parts @ ..] => Value::Cons(parts),
        [_, owner, value @ ..] if is_lump(words) => Value::Lump(*owner, value),
        _ => Value::Other,
    }
}

// What the words show, of whichever language they are: the form that they have, with its parts. It steps over none of them.
#[inline(always)]
pub fn value_of(words: &[u32]) -> Value<'_>
    ensures { Looks words.now result }
{
    let [word, parts @ ..] = words else {
        return Value::Other;
    };
    // Taken out first: in a default arm beside patterns of a Some the proof is not told which shapes are ruled out.
    let Some(shape) = shape_of(*word) else {
        return pair_of(words);
    };
    match shape {
        Shape::Number => Value::Number(word / 256),
        Shape::Lambda => Value::Lambda(parts),
        Shape::Nil => Value::Nil(parts),
        _ => pair_of(words),
    }
}
