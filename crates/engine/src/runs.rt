// A run of a file: read, checked, and reduced to an end. The limit and the two buffers are parameters of their own here and in the operations
// above, as the public signatures and C's fix them.

ghost use Rattle.std.specs.Prelude.{◌≤◌, length};
ghost use Rattle.engine.specs.Lent.{lent, returned};
ghost use Rattle.engine.specs.Answered.{Answered, Runs, Begun};
ghost use Rattle.nodes.specs.Refusals.{refusal};

use crate::buffers::keep;
use crate::reductions::reduce;
use checker::admit;
use ends::Report;
use nodes::refusals::Refusal;
use writing::copy;

// A refusal: both buffers all zero.
fn refused(r: Refusal, first: &mut [u32], second: &mut [u32]) -> Result<Report, Refusal>
    ensures { Answered (refusal r) result first.old second.old first.new second.new }
{
    keep(first, second, 0);
    Err(r)
}

// Refusal 8, or a run of the term that the words are, where the check accepted it. For the operations that come after a check.
pub fn begin(
    terms: &[u32],
    limit: u32,
    first: &mut [u32],
    second: &mut [u32],
) -> Result<Report, Refusal>
    requires { length terms.now ≤ 4096 }
    ensures { Begun limit terms.now result first.old second.old first.new second.new }
{
    let count = terms.len();
    if ends::capacity(first.len(), second.len()) < count {
        return refused(Refusal::Capacity, first, second);
    }
    copy(terms, &mut first[..count]);
    Ok(reduce(first, second, count, limit))
}

// A run of a file in two lent buffers, for every file, every limit and every pair of buffers, whatever they held.
pub fn run(
    file: &[u8],
    limit: u32,
    first: &mut [u32],
    second: &mut [u32],
) -> Result<Report, Refusal>
    ensures { Runs
        (lent file.now limit first.old second.old)
        (returned result first.new second.new) }
{
    let mut all = [0u32; 4096];
    match admit(file, &mut all) {
        Ok(recipe) => {
            let term = &all[4 + recipe.type_count..recipe.count];
            begin(term, limit, first, second)
        }
        Err(refusal) => refused(refusal, first, second),
    }
}
