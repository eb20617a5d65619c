// A run for a C program. A place is at most 4,096, the words left are at most 16,384, and those wanted at most their square.

ghost use Rattle.std.specs.Prelude.{◌≡◌, ◌≤◌};
ghost use Rattle.engine.specs.Lent.{lent};
ghost use Rattle.exports.specs.Numbers.{refused_numbers, ended_numbers, numbers_of, first_of, second_of};

use ends::Report;
use engine::runs::run;
use nodes::refusals::Numbers;

// Numbers beside one another and no Result, for the C interface: a refusal of 0 is none.
#[repr(C)]
#[derive(Clone, Copy, Default)]
pub struct RecipeRun {
    pub refusal: u32,
    pub place: u32,
    pub end: u32,
    pub code: u32,
    pub steps: u32,
    pub left: u32,
    pub wanted: u32,
    pub calls: u32,
    pub conversions: u32,
    pub others: u32,
}

// A refusal of this number and place.
pub fn refused(told: Numbers) -> RecipeRun
    requires { told.place ≤ 4096 }
    ensures { result ≡ refused_numbers told.number told.place }
{
    RecipeRun {
        refusal: told.number,
        place: told.place as u32,
        ..RecipeRun::default()
    }
}

// A run that ended.
pub fn ended(x: Report) -> RecipeRun
    requires { (x.left ≤ 16384) × (x.wanted ≤ 268435456) }
    ensures { result ≡ ended_numbers x }
{
    RecipeRun {
        refusal: 0,
        place: 0,
        end: x.end.into(),
        code: x.code,
        steps: x.made.steps,
        left: x.left as u32,
        wanted: x.wanted as u32,
        calls: x.made.calls,
        conversions: x.made.conversions,
        others: x.made.others,
    }
}

// A run of a file, for every file, every limit and every pair of buffers.
pub fn recipe_run(file: &[u8], limit: u32, first: &mut [u32], second: &mut [u32]) -> RecipeRun
    ensures answer { result ≡ numbers_of (lent file.now limit first.old second.old) }
    ensures first { first.new ≡ first_of (lent file.now limit first.old second.old) }
    ensures second { second.new ≡ second_of (lent file.now limit first.old second.old) }
{
    match run(file, limit, first, second) {
        Ok(x) => ended(x),
        Err(r) => refused(r.into()),
    }
}
