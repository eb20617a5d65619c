// What comes in: a file's bytes as words, its size and its header. Refusals 1 and 2.

#![tactic(auto)]

ghost use Rattle.std.specs.Prelude.{◌≡◌, length, map};
ghost use Rattle.std.specs.Int.{w32, from_le_bytes};
ghost use Rattle.calculus.specs.File.{words_of, is_size, padded};
ghost use Rattle.file.specs.Opening.{opened, headed, opening, kept};

use nodes::refusals::Refusal;

// A file that is opened: how many words the declared type has, and how many words the file has.
#[derive(Clone, Copy)]
pub struct Recipe {
    pub type_count: usize,
    pub count: usize,
}

// The words of fours of bytes, as many as the buffer takes, and zeros after them.
fn put_words(fours: &[[u8; 4]], out: &mut [u32])
    ensures { out.new ≡ padded (length out.old) (map (from_le_bytes w32) fours.now) }
{
    let mut words = fours.iter();
    for place in out.iter_mut() {
        *place = words.next().map_or(0, |bytes| u32::from_le_bytes(*bytes));
    }
}

// The file's words, as many as the buffer takes, and zeros after them. Most files are far shorter than the buffer: what is left of it is filled at
// once.
pub fn words(file: &[u8], out: &mut [u32])
    ensures { out.new ≡ padded (length out.old) (words_of file.now) }
{
    let (fours, _) = file.as_chunks::<4>();
    let n = fours.len().min(out.len());
    let (front, rest) = out.split_at_mut(n);
    put_words(fours, front);
    rest.fill(0);
}

// Whether a file can have n bytes.
pub fn is_size(n: usize) -> bool
    ensures { result ≡ is_size n }
{
    (24..=16384).contains(&n) && n % 4 == 0
}

// Whether words begin with a header that fits how many they are. Sums are in 64 bits, where no sum of two words wraps.
pub fn header(words: &[u32]) -> Result<Recipe, Refusal>
    ensures { opened result ≡ headed words.now }
{
    let &[type_count, type_start, term_count, term_start, ..] = words else {
        return Err(Refusal::Header);
    };
    let count = words.len();
    let type_count = type_count as usize;
    let term_count = term_count as usize;
    let term_start = term_start as usize;
    let fits = type_count != 0
        && type_start == 4
        && term_count != 0
        && term_start == 4 + type_count
        && term_start + term_count == count;
    if !fits {
        return Err(Refusal::Header);
    }
    Ok(Recipe { type_count, count })
}

// The size, then the header. The buffer, of 4,096 words, is left with the file's words and zeros after them; all zero where the size is refused.
pub fn open(file: &[u8], all: &mut [u32]) -> Result<Recipe, Refusal>
    requires { length all.old ≡ 4096 }
    ensures answer { opened result ≡ opening file.now }
    ensures buffer { all.new ≡ padded 4096 (kept file.now) }
{
    if !is_size(file.len()) {
        all.fill(0);
        return Err(Refusal::Bytes);
    }
    words(file, all);
    header(&all[..file.len() / 4])
}
