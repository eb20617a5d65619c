// What a can costs: bands, charges and their total, whatever the prices and however many the pulses.

#![tactic(auto)]

ghost use Rattle.std.specs.Prelude.{◌≡◌, ◌≤◌};
ghost use Rattle.charges.specs.Prices.{band, charge, charges, within, all_within};
ghost use Rattle.charges.specs.Charged.{charged, most_charge, Small};

use std::array;

// A price for each pump and band, in cents per 1,000 pulses.
pub type Prices = [[u32; 3]; 9];

// The largest price that is no refusal.
const MOST_CENTS: u32 = 1000000;

// Each charge and their total, in cents.
#[derive(Clone, Copy, Default)]
pub struct Charges {
    pub charge: [u64; 9],
    pub total: u64,
}

// "Band 0 is under 10,000 pulses, band 1 under 100,000, band 2 the rest."
fn band(pulses: u32) -> usize
    ensures value { result ≡ band pulses }
    ensures small { result ≤ 2 }
{
    if pulses < 10000 {
        0
    } else if pulses < 100000 {
        1
    } else {
        2
    }
}

// "A pump's charge is pulses × price ÷ 1,000, rounded up to a cent": in 64 bits, whatever both are.
fn charge(pulses: u32, cents: u32) -> u64
    ensures value { result ≡ charge pulses cents }
    ensures small { result ≤ most_charge }
{
    (u64::from(pulses) * u64::from(cents)).div_ceil(1000)
}

// Each charge. A pump without an item gives 0 pulses.
fn each_charge(prices: Prices, pulses: [u32; 9]) -> [u64; 9]
    ensures value { result ≡ charges prices pulses }
    ensures small { Small result }
{
    array::from_fn(|pump| charge(pulses[pump], prices[pump][band(pulses[pump])]))
}

// What a can costs whose pumps give these pulses. "The total is the sum of the charges."
#[tactic(auto, unfolding(crate::specs::Prices::total))]
pub fn charged(prices: Prices, pulses: [u32; 9]) -> Charges
    ensures { result ≡ charged prices pulses }
{
    let charge = each_charge(prices, pulses);
    Charges {
        charge,
        total: charge.iter().sum(),
    }
}

// Whether no price of a pump is over 1,000,000.
#[tactic(auto, unfolding(crate::specs::Prices::within))]
fn row_within(row: &[u32; 3]) -> bool
    ensures { result ≡ within row.now }
{
    row.iter().all(|&cents| cents <= MOST_CENTS)
}

// Whether no price is over 1,000,000.
#[tactic(auto, unfolding(crate::specs::Prices::all_within))]
pub fn within(prices: Prices) -> bool
    ensures { result ≡ all_within prices }
{
    prices.iter().all(row_within)
}
