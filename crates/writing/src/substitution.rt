// Substitution on words: a variable's word is replaced by the words of a value, and nothing else changes.

ghost use Rattle.std.specs.Prelude.{◌≡◌, ◌+◌, ◌*◌, ◌%◌, ◌≤◌, ◌↔◌, Some, IsTrue, length};
ghost use Rattle.nodes.specs.Table.{shape_of};
ghost use Rattle.nodes.specs.declared.kinds.Shape.TheVariants.{Lambda};
ghost use Rattle.writing.specs.Given.{most_words};
ghost use Rattle.writing.specs.Substituted.{SubstitutionFits, Substituted};

use crate::Writer;
use nodes::kinds::{Shape, part_count, shape_of};

// Whether a word is a lambda's.
fn is_lambda(w: u32) -> bool
    ensures { IsTrue result ↔ (shape_of (w % 256) ≡ Some Lambda) }
{
    matches!(shape_of(w), Some(Shape::Lambda))
}

// The first nodes of the words, so many as are due, with the value for the variable whose word is x. It answers how many words they have. The
// words and the value may have 2^20 words each. Inside a lambda of either language the variable's word is another. Where nothing is due after the
// lambda, the loop goes on with its parts; only at other lambdas the function calls itself. Where there are fewer words than nodes due, it stops.
pub fn substitute(
    words: &[u32],
    due: usize,
    x: u32,
    value: &[u32],
    target: &mut Writer<u32>,
) -> usize
    requires { SubstitutionFits words.now x value.now target.old.at }
    ensures within { result ≤ length words.now }
    ensures bound { (target.old.at ≤ target.new.at) × (target.new.at ≤ target.old.at + most_words * result) }
    ensures same { target.new.buffer.ghost_name ≡ target.old.buffer.ghost_name }
    ensures is { Substituted words.now due x value.now target.old result target.new }
{
    let mut rest = words;
    let mut left = due;
    let mut y = x;
    while 0 < left && left <= rest.len() {
        let w = rest[0];
        rest = &rest[1..];
        left -= 1;
        if w == y {
            target.extend(value);
            continue;
        }
        target.put(w);
        let parts = part_count(w);
        if !is_lambda(w) {
            left += parts;
        } else if left == 0 {
            left = parts;
            y += 256;
        } else {
            let read = substitute(rest, parts, y + 256, value, target);
            rest = &rest[read..];
        }
    }
    words.len() - rest.len()
}
