// The typing at a term that has no part which is a term.

ghost use Rattle.calculus.specs.Trees.{ml, sc};
ghost use Rattle.typing.specs.Answers.{inferred, formed};
ghost use Rattle.typing.specs.Infers.{Leaf, VariableEnds, Infers};

use crate::rules::binder;
use crate::{Fault, Typed};
use nodes::kinds::{Language, Shape};
use types::{Types, type_end};

// The ML term at `at`, whose word has the shape, inside the lambda at `scope`. A word of no kind has none: it is a
// fault, as a word of a type is.
#[inline(never)]
pub fn leaf(types: Types, shape: Option<Shape>, scope: usize, at: usize) -> Result<Typed, Fault>
    requires { Leaf types.words.now at shape }
    ensures infers { Infers ml types.entry.words.now at scope types.entry.link.now types.entry.link.now (inferred result) }
    ensures passes { VariableEnds shape at (inferred result) }
{
    let Some(shape) = shape else {
        return Err(Fault { at });
    };
    match shape {
        Shape::Variable => {
            let lambda = binder(types, Language::Ml, scope, at)?;
            Ok(Typed {
                reference: lambda + 1,
                end: at + 1,
            })
        }
        Shape::Number => Ok(Typed {
            reference: at,
            end: at + 1,
        }),
        Shape::Nil => Ok(Typed {
            reference: at,
            end: type_end(types.words, at + 1),
        }),
        Shape::Wrong => Ok(Typed {
            reference: at + 1,
            end: type_end(types.words, at + 1),
        }),
        _ => Err(Fault { at }),
    }
}

// The same of a Scheme term. Not one function with `leaf`: a Scheme term has no type to answer with.
#[inline(never)]
pub fn scheme_leaf(
    types: Types,
    shape: Option<Shape>,
    scope: usize,
    at: usize,
) -> Result<usize, Fault>
    requires { Leaf types.words.now at shape }
    ensures infers { Infers sc types.entry.words.now at scope types.entry.link.now types.entry.link.now (formed result) }
    ensures passes { VariableEnds shape at (formed result) }
{
    let Some(shape) = shape else {
        return Err(Fault { at });
    };
    match shape {
        Shape::Variable => {
            binder(types, Language::Scheme, scope, at)?;
            Ok(at + 1)
        }
        Shape::Number | Shape::Nil | Shape::Wrong => Ok(at + 1),
        _ => Err(Fault { at }),
    }
}
