// The rules of the operators of one part.

#![tactic(auto)]

ghost use Rattle.pieces.specs.Pieces.{Few, BecameIn};
ghost use Rattle.pieces.specs.Values.{Small};
ghost use Rattle.unary.specs.Chosen.{OfHead, OfTail, OfFix, OfNull, OfTest, Tested, OfOne};

use nodes::kinds::{Language, Operator1};
use nodes::words::LIST;
use pieces::became::{Became, Piece, amiss, number_in};
use pieces::codes::Wrong;
use pieces::values::{Value, body_of, split, value_of};

// hd. The wrong that hd of nil becomes has, in ML, the type of its elements.
fn head(language: Language, list: Value) -> Became
    requires { Small list }
    ensures placed { BecameIn result }
    ensures told { OfHead language list.entry result }
{
    match list {
        Value::Cons(parts) => Became::Becomes(Piece::Part(split(parts).0)),
        Value::Nil(element) => Became::Becomes(Piece::Led(Wrong::OfNil.word(language), element)),
        _ => amiss(language, Wrong::NoList.code()),
    }
}

// tl. The wrong that tl of nil becomes has, in ML, the type of the list.
fn tail(language: Language, list: Value) -> Became
    requires { Small list }
    ensures placed { BecameIn result }
    ensures told { OfTail language list.entry result }
{
    match list {
        Value::Cons(parts) => Became::Becomes(Piece::Part(split(parts).1)),
        Value::Nil(element) => match language {
            Language::Ml => Became::Becomes(Piece::Led2(
                Wrong::OfNil.word(language),
                LIST,
                element,
            )),
            Language::Scheme => amiss(language, Wrong::OfNil.code()),
        },
        _ => amiss(language, Wrong::NoList.code()),
    }
}

// fix: the lambda's body with the whole node for the variable.
#[inline(always)]
fn of_fix<'a>(node: &'a [u32], value: Value<'a>) -> Became<'a>
    requires { Few node.now × Small value }
    ensures placed { BecameIn result }
    ensures told { OfFix node.now value.entry result }
{
    match value {
        Value::Lambda(parts) => Became::Becomes(Piece::Substituted {
            language: Language::Ml,
            body: body_of(Language::Ml, parts),
            value: node,
        }),
        _ => Became::Nothing,
    }
}

// null? of ML: 0 for yes, 1 for no.
fn of_null(list: Value) -> Became<'static>
    ensures placed { BecameIn result }
    ensures told { OfNull list.entry result }
{
    match list {
        Value::Nil(_) => number_in(Language::Ml, 0),
        Value::Cons(_) => number_in(Language::Ml, 1),
        _ => Became::Nothing,
    }
}

// Whether a test of Scheme holds of a value, by the test's number: of a function 0, of a list 1, of nil 2, of a number 3.
// The number is the word's operand, as the calculus's test_of takes it: an operand over 3 is a number's test too.
fn holds(test: u32, value: Value) -> bool
    ensures { OfTest test value.entry result }
{
    match test {
        0 => matches!(value, Value::Lambda(_)),
        1 => matches!(value, Value::Nil(_) | Value::Cons(_)),
        2 => matches!(value, Value::Nil(_)),
        _ => matches!(value, Value::Number(_)),
    }
}

// A test of Scheme becomes 0 for yes, 1 for no.
fn of_test(test: u32, value: Value) -> Became<'static>
    ensures placed { BecameIn result }
    ensures told { Tested test value.entry result }
{
    let fails = !holds(test, value);
    number_in(Language::Scheme, u32::from(fails))
}

// An operator of one part.
#[inline(always)]
pub fn contract_1(language: Language, operator: Operator1, node: &[u32]) -> Became<'_>
    requires { Few node.now }
    ensures placed { BecameIn result }
    ensures told { OfOne language operator node.now result }
{
    let [word, part @ ..] = node else {
        return Became::Nothing;
    };
    let value = value_of(part);
    match operator {
        Operator1::Hd => head(language, value),
        Operator1::Tl => tail(language, value),
        Operator1::Fix => of_fix(node, value),
        Operator1::Null => of_null(value),
        Operator1::Test => of_test(word / 256, value),
    }
}
