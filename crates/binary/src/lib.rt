// The rules of the operators of two parts, and of if0.

#![tactic(auto)]

ghost use Rattle.std.specs.Prelude.{◌≤◌};
ghost use Rattle.calculus.specs.Words.{largest};
ghost use Rattle.pieces.specs.Pieces.{Few, BecameIn};
ghost use Rattle.binary.specs.Chosen.{Sum, BothNumbers, OfApply, OfTwo, OfIf};

use nodes::kinds::{LARGEST, Language, Operator2};
use nodes::words::N;
use pieces::became::{Became, Piece, amiss, number_in};
use pieces::codes::Wrong;
use pieces::values::{Value, body_of, value_of};

// The words of the type of numbers.
const NUMBERS: &[u32] = &[N];

// The sum of two numbers. In ML a wrong has a type.
fn sum(language: Language, a: u32, b: u32) -> Became<'static>
    requires { (a ≤ largest) × (b ≤ largest) }
    ensures placed { BecameIn result }
    ensures told { Sum language a b result }
{
    if a + b <= LARGEST {
        return number_in(language, a + b);
    }
    match language {
        Language::Ml => Became::Becomes(Piece::Led(Wrong::Over.word(language), NUMBERS)),
        Language::Scheme => amiss(language, Wrong::Over.code()),
    }
}

// Both numbers, if both parts are numbers.
#[inline(always)]
fn numbers(first: &[u32], second: &[u32]) -> Option<(u32, u32)>
    requires { Few first.now × Few second.now }
    ensures { BothNumbers first.now second.now result }
{
    match (value_of(first), value_of(second)) {
        (Value::Number(a), Value::Number(b)) => Some((a, b)),
        _ => None,
    }
}

// Application of a function to an argument.
#[inline(always)]
fn of_apply<'a>(language: Language, function: &'a [u32], argument: &'a [u32]) -> Became<'a>
    requires { Few function.now × Few argument.now }
    ensures placed { BecameIn result }
    ensures told { OfApply language function.now argument.now result }
{
    match value_of(function) {
        Value::Lambda(parts) => Became::Becomes(Piece::Substituted {
            language,
            body: body_of(language, parts),
            value: argument,
        }),
        _ => amiss(language, Wrong::NoFunction.code()),
    }
}

// An operator of two parts.
#[inline(always)]
pub fn contract_2<'a>(
    language: Language,
    operator: Operator2,
    first: &'a [u32],
    second: &'a [u32],
) -> Became<'a>
    requires { Few first.now × Few second.now }
    ensures placed { BecameIn result }
    ensures told { OfTwo language operator first.now second.now result }
{
    match operator {
        Operator2::Apply => of_apply(language, first, second),
        Operator2::Cons => Became::Nothing,
        Operator2::Add | Operator2::Subtract => {
            let Some((a, b)) = numbers(first, second) else {
                return amiss(language, Wrong::NoNumber.code());
            };
            match operator {
                Operator2::Add => sum(language, a, b),
                _ => number_in(language, a.saturating_sub(b)),
            }
        }
    }
}

// if0, by its test.
#[inline(always)]
pub fn of_if<'a>(
    language: Language,
    test: &[u32],
    second: &'a [u32],
    third: &'a [u32],
) -> Became<'a>
    requires { Few test.now × Few second.now × Few third.now }
    ensures placed { BecameIn result }
    ensures told { OfIf language test.now second.now third.now result }
{
    match value_of(test) {
        Value::Number(0) => Became::Becomes(Piece::Part(second)),
        Value::Number(_) => Became::Becomes(Piece::Part(third)),
        _ => amiss(language, Wrong::NoNumber.code()),
    }
}
