// The price of a can for a C program.

ghost use Rattle.std.specs.Prelude.{◌≡◌, ◌≤◌};
ghost use Rattle.engine.specs.Lent.{lent};
ghost use Rattle.pricing.specs.Answered.{no_charges};
ghost use Rattle.exports.specs.Numbers.{refused_numbers, ended_numbers, packed_numbers, priced_numbers_of, priced_first_of, priced_second_of};

use crate::runs::{RecipeRun, ended, refused};
use charges::Charges;
use nodes::refusals::Numbers;
use pricing::{Priced, price};

// Numbers beside one another and no Result, for the C interface: a refusal of 0 is none.
#[repr(C)]
#[derive(Clone, Copy)]
pub struct RecipePriced {
    pub run: RecipeRun,
    pub total: u64,
    pub charge: [u64; 9],
}

// A run's numbers, and what it costs.
pub fn packed(run: RecipeRun, charges: Charges) -> RecipePriced
    ensures { result ≡ packed_numbers run charges }
{
    let charge = charges.charge;
    RecipePriced {
        run,
        total: charges.total,
        charge,
    }
}

// A run that ended, with what it costs.
pub(crate) fn priced(x: Priced) -> RecipePriced
    requires { (x.report.left ≤ 16384) × (x.report.wanted ≤ 268435456) }
    ensures { result ≡ packed_numbers (ended_numbers x.report) x.charges }
{
    packed(ended(x.report), x.charges)
}

// A refusal of this number and place, without a charge.
pub(crate) fn unpriced(told: Numbers) -> RecipePriced
    requires { told.place ≤ 4096 }
    ensures { result ≡ packed_numbers (refused_numbers told.number told.place) no_charges }
{
    packed(refused(told), Charges::default())
}

// The price of a can, for every table, every file, every limit and every pair of buffers.
pub fn recipe_price(
    prices: &[[u32; 3]; 9],
    file: &[u8],
    limit: u32,
    first: &mut [u32],
    second: &mut [u32],
) -> RecipePriced
    ensures answer { result ≡ priced_numbers_of prices.now (lent file.now limit first.old second.old) }
    ensures first { first.new
        ≡ priced_first_of prices.now (lent file.now limit first.old second.old) }
    ensures second { second.new
        ≡ priced_second_of prices.now (lent file.now limit first.old second.old) }
{
    match price(*prices, file, limit, first, second) {
        Ok(x) => priced(x),
        Err(why) => unpriced(why.into()),
    }
}
