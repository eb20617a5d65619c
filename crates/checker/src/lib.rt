// The check of a recipe: refusals 1 to 7 in their order, or accepted.

#![tactic(auto)]

ghost use Rattle.std.specs.Prelude.{◌≡◌, ◌+◌, length};
ghost use Rattle.calculus.specs.File.{padded};
ghost use Rattle.calculus.specs.File as calculus;
ghost use Rattle.file.specs.Opening.{opened, kept};
ghost use Rattle.checker.specs.Checks.{TermAt, checked, accepting, judging, admitting, Decides};

use file::{Recipe, open};
use nodes::refusals::Refusal;
use nodes::scopes::scoped;
use nodes::walks::ordered;
use types::Types;
use typing::infer;

// Refusals 6 and 7 of a file's words, whose declared type stands at 4 and whose term starts at `start`: 6 at the term's fault, 7 at the first
// declared word that differs from the type found. The links are fixed memory, in which 0 is none; and the term
// is inside no lambda, which 0 says too.
fn typed(words: &[u32], start: usize) -> Result<(), Refusal>
    requires { TermAt words.now start }
    ensures { Decides words.now start result }
{
    let mut links = [0; 4096];
    let link = &mut links[..words.len()];
    let found = infer(words, start, link, 0)?;
    Types { words, link }.compare(4, found.reference)?;
    Ok(())
}

// Refusals 3 to 7 of words whose declared type, of n words, stands at 4, and whose term stands behind it; what stands before 4 does not
// matter. For the rooms above.
pub fn judge(words: &[u32], n: usize) -> Result<(), Refusal>
    requires { TermAt words.now (4 + n) }
    ensures { checked result ≡ accepting (judging words.now n) }
{
    let start = 4 + n;
    ordered(&words[4..start], &words[start..])?;
    scoped(&words[start..], start)?;
    typed(words, start)
}

// Opens a file and judges it. The buffer is left as `open` leaves it. For the rooms above.
pub fn admit(file: &[u8], all: &mut [u32]) -> Result<Recipe, Refusal>
    requires { length all.old ≡ 4096 }
    ensures answer { opened result ≡ admitting file.now }
    ensures buffer { all.new ≡ padded 4096 (kept file.now) }
{
    let recipe = open(file, all)?;
    judge(&all[..recipe.count], recipe.type_count)?;
    Ok(recipe)
}

// The check of a file: every file, accepted or refused.
pub fn check(file: &[u8]) -> Result<(), Refusal>
    ensures { checked result ≡ accepting (calculus.check file.now) }
{
    let mut all = [0; 4096];
    admit(file, &mut all)?;
    Ok(())
}
