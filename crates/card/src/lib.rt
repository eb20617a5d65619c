// The batch card: a priced run with one buffer more, in which the card of a value is laid out.

#![tactic(auto)]

ghost use Rattle.std.specs.Prelude.{◌≡◌, [], length};
ghost use Rattle.calculus.specs.File.{padded};
ghost use Rattle.engine.specs.Lent.{lent};
ghost use Rattle.card.specs.Answered.{card_lent, card_returned, Carding};
ghost use Rattle.card.specs.Parts.{AtEnd, Lays};

use charges::Prices;
use ends::End;
use engine::buffers::keep;
use layout::lay_out;
use nodes::refusals::{Numbers, plain};
use pricing::items::read;
use pricing::{Priced, Unpriced, price};

// Why there is no card: the can has no price, or the buffer is shorter than its card.
#[derive(Clone, Copy)]
pub enum Uncarded {
    Price(Unpriced),
    Short,
}

// A can without a price has no card.
impl From<Unpriced> for Uncarded {
    ghost use Rattle.std.specs.Prelude.{◌≡◌};
    ghost use Rattle.card.specs.declared.Uncarded.TheVariants.{Price};

    ghost from_gives = { λ why u. u ≡ Price why };

    fn from(unpriced: Unpriced) -> Uncarded {
        Uncarded::Price(unpriced)
    }
}

// A refusal's number, and its place in the file.
impl From<Uncarded> for Numbers {
    ghost use Rattle.std.specs.Prelude.{◌≡◌};
    ghost use Rattle.card.specs.Refusals.{numbered};

    ghost from_gives = { λ u n. n ≡ numbered u };

    fn from(u: Uncarded) -> Numbers {
        match u {
            Uncarded::Price(why) => why.into(),
            Uncarded::Short => plain(14),
        }
    }
}

// A priced run, and how many bytes its card has: 0 where it ends otherwise than as a value, and no Option, since C gets that number.
#[derive(Clone, Copy)]
pub struct Carded {
    pub priced: Priced,
    pub bytes: usize,
}

// Where there is no card its buffer is all zero.
#[tactic(auto, using(calculus::proofs::Padding::padded_none))]
fn clear(card: &mut [u8])
    ensures { card.new ≡ padded (length card.old) [] }
{
    card.fill(0);
}

// The card of a priced run that left these words, or refusal 14: only at a value there is one.
fn lay(priced: Priced, left: &[u32], card: &mut [u8]) -> Result<Carded, Uncarded>
    requires { AtEnd priced.report left.now }
    ensures { Lays priced left.now card.old result card.new }
{
    match priced.report.end {
        End::Value => {
            let found = read(left);
            let bytes = lay_out(&found.pulses[..found.count], priced.charges, card);
            if card.len() < bytes {
                clear(card);
                return Err(Uncarded::Short);
            }
            Ok(Carded { priced, bytes })
        }
        End::Spent | End::Error | End::Full => {
            clear(card);
            Ok(Carded { priced, bytes: 0 })
        }
    }
}

// The card of a can: for every table, every file, every limit and all three buffers, whatever they held.
pub fn card(
    prices: Prices,
    file: &[u8],
    limit: u32,
    first: &mut [u32],
    second: &mut [u32],
    card: &mut [u8],
) -> Result<Carded, Uncarded>
    ensures { Carding prices
        (card_lent (lent file.now limit first.old second.old) card.old)
        (card_returned result first.new second.new card.new) }
{
    match price(prices, file, limit, first, second) {
        Ok(priced) => match lay(priced, &first[..priced.report.left], card) {
            Ok(carded) => Ok(carded),
            Err(why) => {
                keep(first, second, 0);
                Err(why)
            }
        },
        Err(why) => {
            clear(card);
            Err(why.into())
        }
    }
}
