// The demands of the price of a can and of its card, as contracts of code that calls them.

#![tactic(auto)]

ghost use Rattle.engine.specs.Lent.{lent};
ghost use Rattle.pricing.specs.Answered as pricing;
ghost use Rattle.card.specs.Answered.{card_lent, card_returned};
ghost use Rattle.demands_of_cans.specs.Priced.{PricedOnce, PricedTwice};
ghost use Rattle.demands_of_cans.specs.Carded.{CardedOnce, CardedTwice};

use card::{Carded, Uncarded, card};
use charges::Prices;
use pricing::{Priced, Unpriced, price};

// The answers of two calls of one operation.
#[derive(Clone, Copy)]
pub struct Pair<A> {
    pub earlier: A,
    pub later: A,
}

// Demands 1 and 2 of pricing: of these prices, this file, this limit and these buffers.
pub fn price_once(
    prices: Prices,
    file: &[u8],
    limit: u32,
    first: &mut [u32],
    second: &mut [u32],
) -> Result<Priced, Unpriced>
    ensures { PricedOnce prices
        (lent file.now limit first.old second.old)
        (pricing.returned result first.new second.new) }
{
    price(prices, file, limit, first, second)
}

// Demand 3's growth, for two pricings of this file.
pub fn price_twice(
    prices: Prices,
    file: &[u8],
    limit: u32,
    first: &mut [u32],
    second: &mut [u32],
    limit_2: u32,
    first_2: &mut [u32],
    second_2: &mut [u32],
) -> Pair<Result<Priced, Unpriced>>
    ensures { PricedTwice prices
        (lent file.now limit first.old second.old)
        (pricing.returned result.earlier first.new second.new)
        (lent file.now limit_2 first_2.old second_2.old)
        (pricing.returned result.later first_2.new second_2.new) }
{
    let earlier = price(prices, file, limit, first, second);
    let later = price(prices, file, limit_2, first_2, second_2);
    Pair { earlier, later }
}

// Demands 1 and 2 of the card: of these prices, this file, this limit and these three buffers.
pub fn card_once(
    prices: Prices,
    file: &[u8],
    limit: u32,
    first: &mut [u32],
    second: &mut [u32],
    text: &mut [u8],
) -> Result<Carded, Uncarded>
    ensures { CardedOnce prices
        (card_lent (lent file.now limit first.old second.old) text.old)
        (card_returned result first.new second.new text.new) }
{
    card(prices, file, limit, first, second, text)
}

// Demand 3's growth, for two cards of this file.
pub fn card_twice(
    prices: Prices,
    file: &[u8],
    limit: u32,
    first: &mut [u32],
    second: &mut [u32],
    text: &mut [u8],
    limit_2: u32,
    first_2: &mut [u32],
    second_2: &mut [u32],
    text_2: &mut [u8],
) -> Pair<Result<Carded, Uncarded>>
    ensures { CardedTwice prices
        (card_lent (lent file.now limit first.old second.old) text.old)
        (card_returned result.earlier first.new second.new text.new)
        (card_lent (lent file.now limit_2 first_2.old second_2.old) text_2.old)
        (card_returned result.later first_2.new second_2.new text_2.new) }
{
    let earlier = card(prices, file, limit, first, second, text);
    let later = card(prices, file, limit_2, first_2, second_2, text_2);
    Pair { earlier, later }
}
