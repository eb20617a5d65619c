// The price of a can: a run of a recipe of type {N}, with each charge and the total where it ends as a value.

#![tactic(auto)]

pub mod items;

ghost use Rattle.std.specs.Prelude.{◌≡◌, ◌≤◌, length};
ghost use Rattle.engine.specs.Lent.{lent};
ghost use Rattle.pricing.specs.Refusals.{refusal};
ghost use Rattle.pricing.specs.Answered.{Answered, Pricing, returned};
ghost use Rattle.pricing.specs.Parts.{Declares, Bills, Recipes, Costs};

use charges::{Charges, Prices, charged, within};
use checker::admit;
use ends::{End, Report};
use engine::buffers::keep;
use engine::runs::begin;
use nodes::refusals::{Numbers, Refusal, plain};
use nodes::words::{LIST, N};

// Why a can has no price: a price is over 1,000,000, the recipe is refused, its declared type is not {N}, or it has more than nine items.
#[derive(Clone, Copy)]
pub enum Unpriced {
    Prices,
    Recipe(Refusal),
    Declared,
    Items,
}

// A recipe that is refused has no price.
impl From<Refusal> for Unpriced {
    ghost use Rattle.std.specs.Prelude.{◌≡◌};
    ghost use Rattle.pricing.specs.declared.Unpriced.TheVariants.{Recipe};

    ghost from_gives = { λ r u. u ≡ Recipe r };

    fn from(refusal: Refusal) -> Unpriced {
        Unpriced::Recipe(refusal)
    }
}

// A refusal's number, and its place in the file.
impl From<Unpriced> for Numbers {
    ghost use Rattle.std.specs.Prelude.{◌≡◌};
    ghost use Rattle.pricing.specs.Refusals.{numbered};

    ghost from_gives = { λ u n. n ≡ numbered u };

    fn from(u: Unpriced) -> Numbers {
        match u {
            Unpriced::Prices => plain(11),
            Unpriced::Recipe(r) => r.into(),
            Unpriced::Declared => plain(9),
            Unpriced::Items => plain(10),
        }
    }
}

// The report of a run, and what it costs. The charges are 0 where it ends otherwise than as a value, and no Option: the bill of such a run has nine
// charges, too, as C gets them.
#[derive(Clone, Copy)]
pub struct Priced {
    pub report: Report,
    pub charges: Charges,
}

// A refusal of pricing's own, or of what comes before the run: both buffers all zero.
fn refused(why: Unpriced, first: &mut [u32], second: &mut [u32]) -> Result<Priced, Unpriced>
    ensures { Answered (refusal why) result first.old second.old first.new second.new }
{
    keep(first, second, 0);
    Err(why)
}

// Whether the words of a declared type are those of {N}.
fn is_numbers(types: &[u32]) -> bool
    ensures { Declares types.now result }
{
    types == [LIST, N].as_slice()
}

// What a run costs that left these words: at a value refusal 10, or each charge and the total.
fn cost(prices: Prices, report: Report, left: &[u32]) -> Result<Priced, Unpriced>
    requires { length left.now ≤ 16384 }
    ensures { Costs prices report left.now result }
{
    match report.end {
        End::Value => {
            let found = items::read(left);
            if 9 < found.count {
                return Err(Unpriced::Items);
            }
            Ok(Priced {
                report,
                charges: charged(prices, found.pulses),
            })
        }
        End::Spent | End::Error | End::Full => Ok(Priced {
            report,
            charges: Charges::default(),
        }),
    }
}

// Refusal 9 or 8, or the run of an accepted recipe, with what it costs: by the words of its declared type and of its term.
fn bill(
    prices: Prices,
    types: &[u32],
    terms: &[u32],
    limit: u32,
    first: &mut [u32],
    second: &mut [u32],
) -> Result<Priced, Unpriced>
    requires { Recipes types.now terms.now }
    ensures { Bills prices limit types.now terms.now first.old second.old result first.new second.new }
{
    if !is_numbers(types) {
        return refused(Unpriced::Declared, first, second);
    }
    let report = begin(terms, limit, first, second)?;
    match cost(prices, report, &first[..report.left]) {
        Ok(priced) => Ok(priced),
        Err(why) => refused(why, first, second),
    }
}

// The price of a can: for every table, every file, every limit and every pair of buffers, whatever they held. Where there is none, the buffers are 0.
pub fn price(
    prices: Prices,
    file: &[u8],
    limit: u32,
    first: &mut [u32],
    second: &mut [u32],
) -> Result<Priced, Unpriced>
    ensures { Pricing prices
        (lent file.now limit first.old second.old)
        (returned result first.new second.new) }
{
    if !within(prices) {
        return refused(Unpriced::Prices, first, second);
    }
    let mut all = [0; 4096];
    match admit(file, &mut all) {
        Ok(recipe) => {
            let words = &all[..recipe.count];
            let start = 4 + recipe.type_count;
            bill(
                prices,
                &words[4..start],
                &words[start..],
                limit,
                first,
                second,
            )
        }
        Err(refusal) => refused(refusal.into(), first, second),
    }
}
