// The demands of saving, as contracts of code that calls it.

#![tactic(auto)]

ghost use Rattle.std.specs.Prelude.{◌≡◌};
ghost use Rattle.engine.specs.Lent.{lent, returned};
ghost use Rattle.demands_of_saves.specs.Saved.{handed, SavedOnce, left_of, SaveRuns};

use ends::Report;
use engine::runs::run;
use nodes::refusals::Refusal;
use saving::{Unsaved, save};

// Demands 1 and 2 of saving: of these words and this buffer.
pub fn save_once(types: &[u32], terms: &[u32], out: &mut [u8]) -> Result<usize, Unsaved>
    ensures { SavedOnce (handed types.now terms.now out.old) result out.new }
{
    save(types, terms, out)
}

// The words that a run left, counted: none where it was refused.
fn left(answer: Result<Report, Refusal>) -> usize
    ensures { result ≡ left_of answer }
{
    answer.map_or(0, |report| report.left)
}

// The answers of a run, of the save of what it left, of the run of the file saved, and of one run.
#[derive(Clone, Copy)]
pub struct SavedAnswers {
    pub earlier: Result<Report, Refusal>,
    pub saved: Result<usize, Unsaved>,
    pub later: Result<Report, Refusal>,
    pub whole: Result<Report, Refusal>,
}

// The law of saving: this file is run, what is left is saved with these words as its declared type, the file saved is run in the same buffers; and
// this file is run in others.
pub fn run_save_run(
    file: &[u8],
    types: &[u32],
    limit: u32,
    first: &mut [u32],
    second: &mut [u32],
    out: &mut [u8],
    again: u32,
    limit_2: u32,
    first_2: &mut [u32],
    second_2: &mut [u32],
) -> SavedAnswers
    ensures { SaveRuns
        (lent file.now limit first.old second.old)
        types.now result.earlier result.saved out.new again
        (returned result.later first.new second.new)
        (lent file.now limit_2 first_2.old second_2.old)
        (returned result.whole first_2.new second_2.new) }
{
    let earlier = run(file, limit, first, second);
    let count = left(earlier);
    let saved = save(types, &first[..count], out);
    let written = saved.unwrap_or(0);
    let later = run(&out[..written], again, first, second);
    let whole = run(file, limit_2, first_2, second_2);
    SavedAnswers {
        earlier,
        saved,
        later,
        whole,
    }
}
