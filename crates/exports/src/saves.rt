// A save for a C program. A place is at most 4,096, and a file has at most 16,384 bytes.

ghost use Rattle.std.specs.Prelude.{◌≡◌, length};
ghost use Rattle.exports.specs.Numbers.{saved_numbers_of, saved_bytes_of};

use nodes::refusals::Numbers;
use saving::save;

// Numbers beside one another and no Result, for the C interface: a refusal of 0 is none.
#[repr(C)]
#[derive(Clone, Copy)]
pub struct RecipeSaved {
    pub refusal: u32,
    pub place: u32,
    pub bytes: u32,
}

// A save of the words of a declared type and of a term, for all words and every buffer.
pub fn recipe_save(types: &[u32], terms: &[u32], out: &mut [u8]) -> RecipeSaved
    ensures answer { result ≡ saved_numbers_of types.now terms.now (length out.old) }
    ensures out { out.new ≡ saved_bytes_of types.now terms.now (length out.old) }
{
    match save(types, terms, out) {
        Ok(n) => RecipeSaved {
            refusal: 0,
            place: 0,
            bytes: n as u32,
        },
        Err(why) => {
            let told = Numbers::from(why);
            RecipeSaved {
                refusal: told.number,
                place: told.place as u32,
                bytes: 0,
            }
        }
    }
}
