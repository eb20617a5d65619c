// The batch card for a C program. A card has at most 410 bytes.

ghost use Rattle.std.specs.Prelude.{◌≡◌};
ghost use Rattle.engine.specs.Lent.{lent};
ghost use Rattle.card.specs.Answered.{card_lent};
ghost use Rattle.exports.specs.Numbers.{card_numbers_of, card_first_of, card_second_of, card_bytes_of};

use crate::prices::{RecipePriced, priced, unpriced};

// Numbers beside one another and no Result, for the C interface: a refusal of 0 is none.
#[repr(C)]
#[derive(Clone, Copy)]
pub struct RecipeCard {
    pub priced: RecipePriced,
    pub bytes: u32,
}

// The card of a can, for every table, every file, every limit and all three buffers.
pub fn recipe_card(
    prices: &[[u32; 3]; 9],
    file: &[u8],
    limit: u32,
    first: &mut [u32],
    second: &mut [u32],
    card: &mut [u8],
) -> RecipeCard
    ensures answer { result
        ≡ card_numbers_of prices.now
        (card_lent (lent file.now limit first.old second.old) card.old) }
    ensures first { first.new
        ≡ card_first_of prices.now
        (card_lent (lent file.now limit first.old second.old) card.old) }
    ensures second { second.new
        ≡ card_second_of prices.now
        (card_lent (lent file.now limit first.old second.old) card.old) }
    ensures card { card.new
        ≡ card_bytes_of prices.now
        (card_lent (lent file.now limit first.old second.old) card.old) }
{
    match card::card(*prices, file, limit, first, second, card) {
        Ok(x) => RecipeCard {
            priced: priced(x.priced),
            bytes: x.bytes as u32,
        },
        Err(why) => RecipeCard {
            priced: unpriced(why.into()),
            bytes: 0,
        },
    }
}
