// The functions that a C program calls, each one of exports under the same contract; include/recipe.h declares them.

#![tactic(auto)]

ghost use Rattle.std.specs.Prelude.{◌≡◌, length};
ghost use Rattle.calculus.specs.File.{check};
ghost use Rattle.calculus.specs.Reading.{node_at};
ghost use Rattle.checker.specs.Checks.{accepting};
ghost use Rattle.engine.specs.Lent.{lent};
ghost use Rattle.card.specs.Answered.{card_lent};
ghost use Rattle.exports.specs.Numbers.{check_number, numbers_of, first_of, second_of};
ghost use Rattle.exports.specs.Numbers.{priced_numbers_of, priced_first_of, priced_second_of};
ghost use Rattle.exports.specs.Numbers.{card_numbers_of, card_first_of, card_second_of, card_bytes_of};
ghost use Rattle.exports.specs.Numbers.{saved_numbers_of, saved_bytes_of};

use exports::cards::RecipeCard;
use exports::prices::RecipePriced;
use exports::runs::RecipeRun;
use exports::saves::RecipeSaved;

// The check of a file, for every file: 0 where it is accepted, else the refusal.
#[unsafe(no_mangle)]
pub extern "C" fn recipe_check(file: &[u8]) -> u64
    ensures { result ≡ check_number (accepting (check file.now)) }
{
    exports::recipe_check(file)
}

// A run of a file, for every file, every limit and every pair of buffers.
#[unsafe(no_mangle)]
pub extern "C" fn recipe_run(
    file: &[u8],
    limit: u32,
    first: &mut [u32],
    second: &mut [u32],
) -> RecipeRun
    ensures answer { result ≡ numbers_of (lent file.now limit first.old second.old) }
    ensures first { first.new ≡ first_of (lent file.now limit first.old second.old) }
    ensures second { second.new ≡ second_of (lent file.now limit first.old second.old) }
{
    exports::runs::recipe_run(file, limit, first, second)
}

// The price of a can, for every table, every file, every limit and every pair of buffers.
#[unsafe(no_mangle)]
pub extern "C" fn recipe_price(
    prices: &[[u32; 3]; 9],
    file: &[u8],
    limit: u32,
    first: &mut [u32],
    second: &mut [u32],
) -> RecipePriced
    ensures answer { result ≡ priced_numbers_of prices.now (lent file.now limit first.old second.old) }
    ensures first { first.new
        ≡ priced_first_of prices.now (lent file.now limit first.old second.old) }
    ensures second { second.new
        ≡ priced_second_of prices.now (lent file.now limit first.old second.old) }
{
    exports::prices::recipe_price(prices, file, limit, first, second)
}

// The card of a can, for every table, every file, every limit and all three buffers.
#[unsafe(no_mangle)]
pub extern "C" fn recipe_card(
    prices: &[[u32; 3]; 9],
    file: &[u8],
    limit: u32,
    first: &mut [u32],
    second: &mut [u32],
    card: &mut [u8],
) -> RecipeCard
    ensures answer { result
        ≡ card_numbers_of prices.now
        (card_lent (lent file.now limit first.old second.old) card.old) }
    ensures first { first.new
        ≡ card_first_of prices.now
        (card_lent (lent file.now limit first.old second.old) card.old) }
    ensures second { second.new
        ≡ card_second_of prices.now
        (card_lent (lent file.now limit first.old second.old) card.old) }
    ensures card { card.new
        ≡ card_bytes_of prices.now
        (card_lent (lent file.now limit first.old second.old) card.old) }
{
    exports::cards::recipe_card(prices, file, limit, first, second, card)
}

// A save of the words of a declared type and of a term, for all words and every buffer.
#[unsafe(no_mangle)]
pub extern "C" fn recipe_save(types: &[u32], terms: &[u32], out: &mut [u8]) -> RecipeSaved
    ensures answer { result ≡ saved_numbers_of types.now terms.now (length out.old) }
    ensures out { out.new ≡ saved_bytes_of types.now terms.now (length out.old) }
{
    exports::saves::recipe_save(types, terms, out)
}

// How many words the whole node at a place has, for all words and every place; 0 where none starts there.
#[unsafe(no_mangle)]
pub extern "C" fn recipe_node(words: &[u32], at: usize) -> usize
    ensures { result ≡ length (node_at words.now at) }
{
    exports::readers::recipe_node(words, at)
}

// The same without the short way. For the benchmark; include/recipe.h does not declare it.
#[unsafe(no_mangle)]
pub extern "C" fn recipe_node_walked(words: &[u32], at: usize) -> usize
    ensures { result ≡ length (node_at words.now at) }
{
    exports::readers::recipe_node_walked(words, at)
}
