// What a node becomes, put on a writer.

#![tactic(auto)]

ghost use Rattle.std.specs.Prelude.{[], ◌∷◌, ◌++◌, ◌+◌, ◌*◌, ◌<◌, ◌≤◌, length};
ghost use Rattle.pieces.specs.declared.became.Piece.TheVariants.{Substituted};
ghost use Rattle.pieces.specs.Pieces.{Few, Placed, cons_words, lambda_words, function_words, Writes};
ghost use Rattle.writing.specs.Given.{most_words, most_piece, most_place};
ghost use Rattle.writing.specs.Puts.{Puts};

use crate::became::Piece;
use nodes::kinds::Language;
use nodes::words::{LIST, ML_LAMBDA, SCHEME_LAMBDA};
use words::{application, boundary, cons, number, other, variable};
use writing::Writer;
use writing::substitution::substitute;

pub mod became;
pub mod codes;
pub mod numbers;
pub mod values;
pub mod words;

// A word, and after it a part.
fn lead(w: u32, part: &[u32], target: &mut Writer<u32>)
    requires { Few part.now × (target.old.at ≤ 2 * most_place) }
    ensures put { Puts target.old (w ∷ part.now) target.new }
    ensures bound { (target.old.at ≤ target.new.at) × (target.new.at ≤ target.old.at + 1 + most_words) }
{
    target.put(w);
    target.extend(part);
}

// Two words, and after them a part.
fn lead_two(w: u32, v: u32, part: &[u32], target: &mut Writer<u32>)
    requires { Few part.now × (target.old.at < 2 * most_place) }
    ensures put { Puts target.old (w ∷ v ∷ part.now) target.new }
    ensures bound { (target.old.at ≤ target.new.at) × (target.new.at ≤ target.old.at + 2 + most_words) }
{
    target.put(w);
    lead(v, part, target);
}

// The cons of a head and a tail, each brought into the language at its type.
fn put_cons(into: Language, element: &[u32], head: &[u32], tail: &[u32], target: &mut Writer<u32>)
    requires { Few element.now × Few head.now × Few tail.now × (target.old.at ≤ most_place) }
    ensures put { Puts target.old (cons_words into element.now head.now tail.now) target.new }
    ensures bound { (target.old.at ≤ target.new.at) × (target.new.at ≤ target.old.at + 8 * most_words) }
{
    target.put(cons(into));
    lead(boundary(into), element, target);
    target.extend(head);
    lead_two(boundary(into), LIST, element, target);
    target.extend(tail);
}

// A lambda, up to its body: in ML the type of its variable stands there.
fn put_lambda(language: Language, from: &[u32], target: &mut Writer<u32>)
    requires { Few from.now × (target.old.at ≤ most_place) }
    ensures put { Puts target.old (lambda_words language from.now) target.new }
    ensures bound { (target.old.at ≤ target.new.at) × (target.new.at ≤ target.old.at + 1 + most_words) }
{
    match language {
        Language::Ml => lead(ML_LAMBDA, from, target),
        Language::Scheme => target.put(SCHEME_LAMBDA),
    }
}

// The lambda that stands for another language's lambda.
fn put_function(into: Language, from: &[u32], to: &[u32], lambda: &[u32], target: &mut Writer<u32>)
    requires { Few from.now × Few to.now × Few lambda.now × (target.old.at ≤ most_place) }
    ensures put { Puts target.old (function_words into from.now to.now lambda.now) target.new }
    ensures bound { (target.old.at ≤ target.new.at) × (target.new.at ≤ target.old.at + 8 * most_words) }
{
    put_lambda(into, from, target);
    lead(boundary(into), to, target);
    lead(application(other(into)), lambda, target);
    lead(boundary(other(into)), from, target);
    target.put(variable(into));
}

// A body with a value for the language's variable.
fn substituted(language: Language, body: &[u32], value: &[u32], target: &mut Writer<u32>)
    requires { Few body.now × Few value.now × (target.old.at ≤ most_place) }
    ensures writes { Writes (Substituted language body.entry value.entry) target.old target.new }
    ensures bound { (target.old.at ≤ target.new.at) × (target.new.at ≤ target.old.at + most_piece) }
{
    substitute(body, 1, variable(language), value, target);
}

// The piece that a node becomes.
pub fn write(piece: Piece, target: &mut Writer<u32>)
    requires { Placed piece × (target.old.at ≤ most_place) }
    ensures writes { Writes piece.entry target.old target.new }
    ensures bound { (target.old.at ≤ target.new.at) × (target.new.at ≤ target.old.at + most_piece) }
{
    match piece {
        Piece::Word(word) => target.put(word),
        Piece::Number(language, n) => target.put(number(language, n)),
        Piece::Part(part) => target.extend(part),
        Piece::Led(word, part) => lead(word, part, target),
        Piece::Led2(word, next, part) => lead_two(word, next, part, target),
        Piece::Cons {
            into,
            element,
            head,
            tail,
        } => put_cons(into, element, head, tail, target),
        Piece::Function {
            into,
            from,
            to,
            lambda,
        } => put_function(into, from, to, lambda, target),
        Piece::Substituted {
            language,
            body,
            value,
        } => substituted(language, body, value, target),
    }
}
