// The items of a list of numbers, in words.

ghost use Rattle.std.specs.Prelude.{◌≤◌, length};
ghost use Rattle.writing.specs.Given.{most_words};
ghost use Rattle.pricing.specs.Parts.{Reads};

use nodes::words::ML_CONS;
use pieces::numbers::number_at;
use writing::Writer;
use writing::spans::skip;

// How many items there are, and the pulses of the first nine. No vector: the price is of nine pulses, 0 where there is no item.
#[derive(Clone, Copy)]
pub struct Items {
    pub pulses: [u32; 9],
    pub count: usize,
}

// The items of the list of numbers that the words are.
pub fn read(words: &[u32]) -> Items
    requires { length words.now ≤ most_words }
    ensures { Reads words.now result }
{
    let mut pulses = [0; 9];
    let mut items = Writer::new(&mut pulses);
    let mut rest = words;
    while let [ML_CONS, item @ ..] = rest {
        items.put(number_at(item));
        rest = &item[skip(item, 1)..];
    }
    let count = items.at;
    Items { pulses, count }
}
