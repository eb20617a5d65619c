// The rules of the typing: of ML on references to types, of Scheme on none.

ghost use Rattle.std.specs.Prelude.{◌≡◌, List, ℕ, ◌<◌, length};
ghost use Rattle.std.specs.Option.{option_and};
ghost use Rattle.calculus.specs.Trees.{ml, sc, FIX, APP, CONS};
ghost use Rattle.nodes.specs.Table.{as_lang};
ghost use Rattle.typing.specs.Answers.{inferred, formed, conclusion, Crossed};
ghost use Rattle.typing.specs.Operators.{ArgumentEnd, element_of, number_of, as_op2, IfSame, Finds1, Finds2, Result1, Result3};
ghost use Rattle.typing.specs.Variables.{LambdaOf, Variable};

use crate::{Fault, Typed};
use nodes::kinds::{Language, Operator1, Operator2, Sort, row_at};
use types::{Former, Types, former_at, type_end};

// The answer for the node at `at`, which ends before `end`, by the reference to its type.
pub fn conclusion(at: usize, found: Option<usize>, end: usize) -> Result<Typed, Fault>
    ensures { inferred result ≡ conclusion at found end }
{
    let reference = found.ok_or(Fault { at })?;
    Ok(Typed { reference, end })
}

// From the lambda at `scope` outwards, the one with so many others between, if it is of the language.
fn lambda_of(types: Types, language: Language, scope: usize, between: usize) -> Option<usize>
    ensures { LambdaOf (as_lang language) types.entry.words.now types.entry.link.now scope between result }
{
    if scope == 0 || types.words.len() <= scope {
        return None;
    }
    if 0 < between {
        let out = usize::from(types.link[scope]);
        return lambda_of(types, language, out, between - 1);
    }
    let row = row_at(types.words[scope])?;
    row.is_of(Sort::Term(language)).then_some(scope)
}

// The lambda of the variable at `at`, of the language, inside the lambda at `scope`.
pub fn binder(types: Types, language: Language, scope: usize, at: usize) -> Result<usize, Fault>
    requires { at < length types.words.now }
    ensures { Variable (as_lang language) types.entry.words.now types.entry.link.now scope at result }
{
    let between = (types.words[at] / 256) as usize;
    lambda_of(types, language, scope, between).ok_or(Fault { at })
}

// The place past the argument type, where t means a function type.
fn argument_end(words: &[u32], t: usize) -> Option<usize>
    ensures { ArgumentEnd words.now t result }
{
    let Former::Function = former_at(words, t)? else {
        return None;
    };
    Some(type_end(words, t + 1))
}

// The element type, where t means a list type.
fn element(words: &[u32], t: usize) -> Option<usize>
    ensures { result ≡ element_of words.now t }
{
    let Former::List = former_at(words, t)? else {
        return None;
    };
    Some(t + 1)
}

// t, where it means N.
fn number(words: &[u32], t: usize) -> Option<usize>
    ensures { result ≡ number_of words.now t }
{
    let Former::Numbers = former_at(words, t)? else {
        return None;
    };
    Some(t)
}

// r, where p and q mean one type.
fn if_same(types: Types, p: usize, q: usize, r: usize) -> Option<usize>
    ensures { IfSame types.entry.words.now types.entry.link.now p q r result }
{
    types.same(p, q).then_some(r)
}

// fix of a t.
fn fix_type(types: Types, t: usize) -> Option<usize>
    ensures { Finds1 FIX types.entry.words.now types.entry.link.now t result }
{
    let end = argument_end(types.words, t)?;
    let argument = t + 1;
    let result = types.codomain(t, end);
    if_same(types, argument, result, argument)
}

// A t applied to a u.
fn application_type(types: Types, t: usize, u: usize) -> Option<usize>
    ensures { Finds2 APP types.entry.words.now types.entry.link.now t u result }
{
    let end = argument_end(types.words, t)?;
    let argument = t + 1;
    let result = types.codomain(t, end);
    if_same(types, argument, u, result)
}

// cons of a t and a u.
fn cons_type(types: Types, t: usize, u: usize) -> Option<usize>
    ensures { Finds2 CONS types.entry.words.now types.entry.link.now t u result }
{
    let e = element(types.words, u)?;
    if_same(types, e, t, u)
}

// The operator of one part, which stands at `at`, of a t. Scheme's tests are no operator of ML.
pub fn result_1(types: Types, operator: Operator1, at: usize, t: usize) -> Option<usize>
    ensures { Result1 operator types.entry.words.now types.entry.link.now at t result }
{
    match operator {
        Operator1::Fix => fix_type(types, t),
        Operator1::Hd => element(types.words, t),
        Operator1::Tl => {
            element(types.words, t)?;
            Some(t)
        }
        Operator1::Null => {
            element(types.words, t)?;
            Some(at)
        }
        Operator1::Test => None,
    }
}

// add, and subtract, of a t and a u.
fn sum_type(words: &[u32], t: usize, u: usize) -> Option<usize>
    ensures { result ≡ option_and (number_of words.now u) (number_of words.now t) }
{
    number(words, u)?;
    number(words, t)
}

// The operator of two parts of a t and a u.
pub fn result_2(types: Types, operator: Operator2, t: usize, u: usize) -> Option<usize>
    ensures { Finds2 (as_op2 operator) types.entry.words.now types.entry.link.now t u result }
{
    match operator {
        Operator2::Apply => application_type(types, t, u),
        Operator2::Add => sum_type(types.words, t, u),
        Operator2::Subtract => sum_type(types.words, t, u),
        Operator2::Cons => cons_type(types, t, u),
    }
}

// if0 of a t, a u and a v.
pub fn result_3(types: Types, t: usize, u: usize, v: usize) -> Option<usize>
    ensures { Result3 types.entry.words.now types.entry.link.now t u v result }
{
    number(types.words, t)?;
    if_same(types, u, v, u)
}

// ms, which stands at `at` with its type behind it, of a Scheme term. It takes the answer for the term as it is, a fault too: its contract says both
// cases of the rule.
pub fn at_ms(at: usize, one: Result<usize, Fault>) -> Result<Typed, Fault>
    requires { at < 4096 }
    ensures { (w ls : List ℕ) → Crossed ml w ls at (formed one) (inferred result) }
{
    let end = one?;
    Ok(Typed {
        reference: at + 1,
        end,
    })
}

// sm, which stands at `at` with its type behind it, of an ML term. It takes that term's answer as `at_ms` does.
pub fn at_sm(types: Types, at: usize, one: Result<Typed, Fault>) -> Result<usize, Fault>
    requires { at < length types.words.now }
    ensures { Crossed sc types.entry.words.now types.entry.link.now at (inferred one) (formed result) }
{
    let typed = one?;
    if !types.same(at + 1, typed.reference) {
        return Err(Fault { at });
    }
    Ok(typed.end)
}
