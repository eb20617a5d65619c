// The typing in one pass: ML inference and Scheme well-formedness, which call each other at every boundary. A term is told by its place among the
// words of the file. While the body of a lambda is inferred, the lambda's link is the place of the next lambda around it, or 0; after that an ML
// lambda's is the type of the body.

#![tactic(auto)]

pub mod leaves;
pub mod rules;

ghost use Rattle.std.specs.Prelude.{◌≡◌, ◌<◌, length};
ghost use Rattle.calculus.specs.Trees.{ml, sc};
ghost use Rattle.nodes.specs.declared.refusals.Refusal.TheVariants.{Untyped};
ghost use Rattle.types.specs.Links.{LinkTo};
ghost use Rattle.typing.specs.Answers.{inferred, formed};
ghost use Rattle.typing.specs.Infers.{Function, Begins, Infers};

use leaves::{leaf, scheme_leaf};
use nodes::kinds::Shape;
use nodes::refusals::Refusal;
use rules::{at_ms, at_sm, conclusion, result_1, result_2, result_3};
use types::{Types, shape_at, type_end};

// The type of an ML term, as a reference, and the place past the term.
#[derive(Clone, Copy)]
pub struct Typed {
    pub reference: usize,
    pub end: usize,
}

// A term that has no type, or is not well formed, by the place of its fault. A type of its own, as `?` picks the refusal by it.
#[derive(Clone, Copy)]
pub struct Fault {
    pub at: usize,
}

// A term that has a fault is refused there.
impl From<Fault> for Refusal {
    ghost from_gives = { λ f r. r ≡ Untyped f.at };

    fn from(fault: Fault) -> Refusal {
        Refusal::Untyped(fault.at)
    }
}

// A place of a file as a link. A link has two bytes of fixed memory, so that 0 is no reference in it.
fn link_to(p: usize) -> u16
    ensures { LinkTo p result }
{
    u16::try_from(p).unwrap_or(0)
}

// The ML lambda at `at`, by its body.
fn function(at: usize, link: &mut [u16], body: Typed) -> Typed
    requires { at < length link.old }
    ensures { Function at body link.old link.new result }
{
    link[at] = link_to(body.reference);
    Typed {
        reference: at,
        end: body.end,
    }
}

// The type of the ML term that starts at the place `at`, inside the lambda at `scope`.
#[cycle(infer_well_formed)]
pub fn infer(words: &[u32], at: usize, link: &mut [u16], scope: usize) -> Result<Typed, Fault>
    requires { Begins words.now at link.old }
    ensures { Infers ml words.now at scope link.old link.new (inferred result) }
{
    let Some(shape) = shape_at(words, at) else {
        return Err(Fault { at });
    };
    match shape {
        Shape::Lambda => {
            let start = type_end(words, at + 1);
            link[at] = link_to(scope);
            let body = infer(words, start, link, at)?;
            Ok(function(at, link, body))
        }
        Shape::Operator1(operator) => {
            let part = infer(words, at + 1, link, scope)?;
            let found = result_1(Types { words, link }, operator, at, part.reference);
            conclusion(at, found, part.end)
        }
        Shape::Operator2(operator) => {
            let first = infer(words, at + 1, link, scope)?;
            let second = infer(words, first.end, link, scope)?;
            let types = Types { words, link };
            let found = result_2(types, operator, first.reference, second.reference);
            conclusion(at, found, second.end)
        }
        Shape::If0 => {
            let test = infer(words, at + 1, link, scope)?;
            let first = infer(words, test.end, link, scope)?;
            let second = infer(words, first.end, link, scope)?;
            let types = Types { words, link };
            let found = result_3(types, test.reference, first.reference, second.reference);
            conclusion(at, found, second.end)
        }
        Shape::Boundary => at_ms(at, well_formed(words, type_end(words, at + 1), link, scope)),
        _ => leaf(Types { words, link }, Some(shape), scope, at),
    }
}

// The place past the Scheme term that starts at the place `at`, inside the lambda at `scope`, if it is well formed. Not one function with `infer`:
// a Scheme term has no type to answer with.
#[cycle(infer_well_formed)]
fn well_formed(words: &[u32], at: usize, link: &mut [u16], scope: usize) -> Result<usize, Fault>
    requires { Begins words.now at link.old }
    ensures { Infers sc words.now at scope link.old link.new (formed result) }
{
    let Some(shape) = shape_at(words, at) else {
        return Err(Fault { at });
    };
    match shape {
        Shape::Lambda => {
            link[at] = link_to(scope);
            well_formed(words, at + 1, link, at)
        }
        Shape::Operator1(_) => well_formed(words, at + 1, link, scope),
        Shape::Operator2(_) => {
            let second = well_formed(words, at + 1, link, scope)?;
            well_formed(words, second, link, scope)
        }
        Shape::If0 => {
            let second = well_formed(words, at + 1, link, scope)?;
            let third = well_formed(words, second, link, scope)?;
            well_formed(words, third, link, scope)
        }
        Shape::Boundary => {
            let start = type_end(words, at + 1);
            let one = infer(words, start, link, scope);
            at_sm(Types { words, link }, at, one)
        }
        _ => scheme_leaf(Types { words, link }, Some(shape), scope, at),
    }
}
