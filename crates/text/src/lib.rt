// Numbers put into a text in decimal. Bytes past the text's buffer are only counted.

#![tactic(auto)]

ghost use Rattle.std.specs.Prelude.{◌<◌};
ghost use Rattle.writing.specs.Given.{half_count};
ghost use Rattle.writing.specs.Puts.{Puts};
ghost use Rattle.text.specs.Decimal.{decimal};

use itoa::Buffer;
use writing::Writer;

// A number in decimal.
#[tactic(auto, using(crate::proofs::Decimals::decimal_is))]
pub fn put_decimal(text: &mut Writer<u8>, number: u64)
    requires { text.old.at < half_count }
    ensures { Puts text.old (decimal number) text.new }
{
    let mut digits = Buffer::new();
    text.extend(digits.format(number).as_bytes());
}
