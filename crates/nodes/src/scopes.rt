// Refusal 5: each variable has a lambda of its language, as many lambdas out as it says.

ghost use Rattle.std.specs.Prelude.{◌≡◌, ◌+◌, ◌^◌, [], ◌∷◌, ◌≤◌, ◌<◌, OnOk, length, take, replicate};
ghost use Rattle.calculus.specs.Reading.{later, walk};
ghost use Rattle.calculus.specs.Scope.{is_free, inside, scope_due};
ghost use Rattle.nodes.specs.Walks.{walked};
ghost use Rattle.nodes.specs.Languages.{lambdas};

use crate::kinds::{Language, Shape, Sort, part_count, row_at};
use crate::refusals::Refusal;
use arrayvec::ArrayVec;

// The languages of the lambdas around a word, the innermost last. A term of a file has at most 4,096 words.
type Scope = ArrayVec<Language, 4096>;

// A word is a variable without a lambda of its language there.
fn is_free(w: u32, around: &[Language]) -> bool
    ensures { result ≡ is_free (lambdas around.now) w }
{
    let Some(row) = row_at(w) else {
        return false;
    };
    let Shape::Variable = row.shape else {
        return false;
    };
    let n = (w / 256) as usize;
    around.len() <= n || !row.is_of(Sort::Term(around[around.len() - 1 - n]))
}

// Notes a lambda in the scope.
fn enter(w: u32, scope: &mut Scope)
    requires { length scope.old.items < 4096 }
    ensures inside { lambdas scope.new.items ≡ inside (lambdas scope.old.items) w }
    ensures kept { take (length scope.old.items) scope.new.items ≡ scope.old.items }
    ensures most { length scope.new.items ≤ length scope.old.items + 1 }
{
    let Some(row) = row_at(w) else {
        return;
    };
    let Shape::Lambda = row.shape else {
        return;
    };
    let Sort::Term(language) = row.sort else {
        return;
    };
    scope.push(language);
}

// Walks over the variables of so many nodes, all of them inside the lambdas of the scope. `at` words are gone by: it answers how many are gone by
// then.
fn variables(words: &[u32], at: usize, due: usize, scope: &mut Scope) -> Result<usize, Refusal>
    requires fits { at + length words.now < 2 ^ 63 }
    requires room { length scope.old.items + length words.now ≤ 4096 }
    ensures value { walked result ≡ later at (walk scope_due words.now (replicate due (lambdas scope.old.items))) }
    ensures kept { OnOk result (scope.new.items ≡ scope.old.items) }
{
    if due == 0 {
        return Ok(at);
    }
    let Some((&w, rest)) = words.split_first() else {
        return Err(Refusal::Word(at));
    };
    if is_free(w, scope) {
        return Err(Refusal::Variable(at));
    }
    let depth = scope.len();
    enter(w, scope);
    let end = variables(rest, at + 1, part_count(w), scope)?;
    scope.truncate(depth);
    variables(&words[end - at..], end, due - 1, scope)
}

// Refusal 5 over the whole term, whose words stand at a place of the file. For the rooms above.
pub fn scoped(terms: &[u32], at: usize) -> Result<usize, Refusal>
    requires { (length terms.now ≤ 4096) × (at ≤ 4096) }
    ensures { walked result ≡ later at (walk scope_due terms.now ([] ∷ [])) }
{
    variables(terms, at, 1, &mut Scope::new())
}
