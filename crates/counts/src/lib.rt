// What a run counts: the steps that it makes, and how many of them are calls, conversions and others.

#![tactic(auto)]

ghost use Rattle.std.specs.Prelude.{◌≡◌, ◌<◌};
ghost use Rattle.calculus.specs.Classes.{word_class};
ghost use Rattle.calculus.specs.Counting.{AddsUp};
ghost use Rattle.counts.specs.Counting.{class_of, counts_of, counted};

use nodes::kinds::{Operator1, Operator2, Shape, shape_of};

// What a step is counted as.
#[derive(Clone, Copy)]
pub enum Class {
    Call,
    Conversion,
    Other,
}

// The steps made, and the three into which they fall.
#[derive(Clone, Copy, Default)]
pub struct Counts {
    pub steps: u32,
    pub calls: u32,
    pub conversions: u32,
    pub others: u32,
}

// "A step on an application or a fix is a call. A step on an ms or sm word is a conversion. All other steps .. are others": by the word of the
// node that a step reduces.
#[tactic(auto, using(crate::proofs::Shapes::class_found))]
pub fn word_class(word: u32) -> Class
    ensures { class_of result ≡ word_class word }
{
    match shape_of(word) {
        Some(Shape::Operator2(Operator2::Apply) | Shape::Operator1(Operator1::Fix)) => Class::Call,
        Some(Shape::Boundary) => Class::Conversion,
        _ => Class::Other,
    }
}

// One step more, of a class, where the limit is not reached. No sum wraps, because the three add up to the steps.
pub fn counted(class: Class, made: Counts, limit: u32) -> Counts
    requires { (made.steps < limit) × AddsUp (counts_of made) }
    ensures { result ≡ counted (class_of class) made }
{
    let made = Counts {
        steps: made.steps + 1,
        ..made
    };
    match class {
        Class::Call => Counts {
            calls: made.calls + 1,
            ..made
        },
        Class::Conversion => Counts {
            conversions: made.conversions + 1,
            ..made
        },
        Class::Other => Counts {
            others: made.others + 1,
            ..made
        },
    }
}
