// The rules of ms and sm: a value of one language is brought into the other.

#![tactic(auto)]

ghost use Rattle.calculus.specs.Trees.{N};
ghost use Rattle.pieces.specs.Pieces.{Few, BecameIn};
ghost use Rattle.conversions.specs.Chosen.{Misfit, AtType, AtLump, AtList, AtFunction, OfBoundary};

use nodes::kinds::{Language, Shape, shape_of};
use nodes::words::{ML_NIL, SCHEME_NIL};
use pieces::became::{Became, Piece, number_in};
use pieces::codes::Wrong;
use pieces::values::{Value, split, value_of};

// A value that has not the type: a wrong in ML.
fn misfit(into: Language, wrong: Wrong, at: &[u32]) -> Became<'_>
    requires { Few at.now }
    ensures placed { BecameIn result }
    ensures told { Misfit into wrong at.now result }
{
    match into {
        Language::Ml => Became::Becomes(Piece::Led(wrong.word(into), at)),
        Language::Scheme => Became::Nothing,
    }
}

// At the type N.
fn at_number<'a>(into: Language, at: &'a [u32], value: &[u32]) -> Became<'a>
    requires { Few at.now × Few value.now }
    ensures placed { BecameIn result }
    ensures told { AtType into at.now value.now result N }
{
    match value_of(value) {
        Value::Number(n) => number_in(into, n),
        _ => misfit(into, Wrong::NoNumber, at),
    }
}

// At an owner's L: nothing is opened on its way into ML, and on its way out only what that same owner has sealed.
fn at_lump(into: Language, owner: u32, value: &[u32]) -> Became<'_>
    requires { Few value.now }
    ensures placed { BecameIn result }
    ensures told { AtLump into owner value.now result }
{
    match into {
        Language::Ml => Became::Nothing,
        Language::Scheme => match value_of(value) {
            Value::Lump(sealed, inside) if sealed == owner => Became::Becomes(Piece::Part(inside)),
            _ => Became::Nothing,
        },
    }
}

// At a type {t}, whose own words are those of the element's type.
fn at_list<'a>(into: Language, at: &'a [u32], element: &'a [u32], value: &'a [u32]) -> Became<'a>
    requires { Few at.now × Few element.now × Few value.now }
    ensures placed { BecameIn result }
    ensures told { AtList into at.now element.now value.now result }
{
    match value_of(value) {
        Value::Nil(_) => match into {
            Language::Ml => Became::Becomes(Piece::Led(ML_NIL, element)),
            Language::Scheme => Became::Becomes(Piece::Word(SCHEME_NIL)),
        },
        Value::Cons(parts) => {
            let (head, tail) = split(parts);
            Became::Becomes(Piece::Cons {
                into,
                element,
                head,
                tail,
            })
        }
        _ => misfit(into, Wrong::NoList, at),
    }
}

// At a type t to u.
fn at_function<'a>(into: Language, at: &'a [u32], parts: &'a [u32], value: &'a [u32]) -> Became<'a>
    requires { Few at.now × Few parts.now × Few value.now }
    ensures placed { BecameIn result }
    ensures told { AtFunction into at.now parts.now value.now result }
{
    match value_of(value) {
        Value::Lambda(_) => {
            let (from, to) = split(parts);
            Became::Becomes(Piece::Function {
                into,
                from,
                to,
                lambda: value,
            })
        }
        _ => misfit(into, Wrong::NoFunction, at),
    }
}

// ms or sm of a value at a type.
#[inline]
pub fn converted<'a>(into: Language, at: &'a [u32], value: &'a [u32]) -> Became<'a>
    requires { Few at.now × Few value.now }
    ensures placed { BecameIn result }
    ensures told { OfBoundary into at.now value.now result }
{
    let [word, parts @ ..] = at else {
        return Became::Nothing;
    };
    // Taken out first: in a default arm beside patterns of a Some the proof is not told which shapes are ruled out.
    let Some(shape) = shape_of(*word) else {
        return Became::Nothing;
    };
    match shape {
        Shape::Numbers => at_number(into, at, value),
        Shape::Lump => at_lump(into, *word, value),
        Shape::List => at_list(into, at, parts, value),
        Shape::Function => at_function(into, at, parts, value),
        _ => Became::Nothing,
    }
}
