// What a run left, saved with its declared type as a recipe file, so that it can be gone on with.

#![tactic(auto)]

ghost use Rattle.std.specs.Prelude.{◌≡◌, ◌≤◌, leb, length};
ghost use Rattle.calculus.specs.File.{bytes_of, file_of};
ghost use Rattle.writing.specs.Wrote.{Wrote};
ghost use Rattle.saving.specs.Saving.{file_bytes};
ghost use Rattle.saving.specs.Answered.{Saves};
ghost use Rattle.saving.specs.Parts.{FewWords, written, Answers, Writes};

use checker::judge;
use nodes::refusals::{Numbers, Refusal, plain};
use writing::Writer;

// Why nothing is saved: the file would pass 16,384 bytes, the words are refused, or the buffer is shorter than the file.
#[derive(Clone, Copy)]
pub enum Unsaved {
    Long,
    Recipe(Refusal),
    Short,
}

// Words that are refused are not saved.
impl From<Refusal> for Unsaved {
    ghost use Rattle.std.specs.Prelude.{◌≡◌};
    ghost use Rattle.saving.specs.declared.Unsaved.TheVariants.{Recipe};

    ghost from_gives = { λ r u. u ≡ Recipe r };

    fn from(r: Refusal) -> Unsaved {
        Unsaved::Recipe(r)
    }
}

// A refusal's number, and its place in the file to be written.
impl From<Unsaved> for Numbers {
    ghost use Rattle.std.specs.Prelude.{◌≡◌};
    ghost use Rattle.saving.specs.Refusals.{numbered};

    ghost from_gives = { λ u n. n ≡ numbered u };

    fn from(u: Unsaved) -> Numbers {
        match u {
            Unsaved::Long => plain(12),
            Unsaved::Recipe(r) => r.into(),
            Unsaved::Short => plain(13),
        }
    }
}

// Whether the file of a type and a term of so many words has at most 16,384 bytes. No sum is made, so that none wraps.
fn fits(types: usize, terms: usize) -> bool
    ensures { result ≡ leb (file_bytes types terms) 16384 }
{
    if 4092 < types {
        return false;
    }
    terms <= 4092 - types
}

// The words of the file, from the buffer's start on. Returns how many they are.
fn fill(types: &[u32], terms: &[u32], all: &mut [u32]) -> usize
    requires { FewWords types.now terms.now }
    ensures { Wrote all.old 0 (file_of types.now terms.now) result all.new }
{
    let type_count = types.len() as u32;
    let term_count = terms.len() as u32;
    let mut words = Writer::new(all);
    words.extend(&[type_count, 4, term_count, 4 + type_count]);
    words.extend(types);
    words.extend(terms);
    words.at
}

// The bytes of words, the least of each first, from the buffer's start on. Returns how many they are.
fn put_words(words: &[u32], out: &mut [u8]) -> usize
    requires { length words.now ≤ 4096 }
    ensures { Wrote out.old 0 (bytes_of words.now) result out.new }
{
    let mut bytes = Writer::new(out);
    for word in words {
        bytes.extend(&word.to_le_bytes());
    }
    bytes.at
}

// Refusal 13, or the bytes of the file's words, put first in the buffer.
fn put_file(words: &[u32], out: &mut [u8]) -> Result<usize, Unsaved>
    requires { length words.now ≤ 4096 }
    ensures { Answers (written words.now (length out.old)) result out.new }
{
    if out.len() < 4 * words.len() {
        return Err(Unsaved::Short);
    }
    Ok(put_words(words, out))
}

// Saves words as `save` does, but for the zeros in the buffer.
fn write(types: &[u32], terms: &[u32], out: &mut [u8]) -> Result<usize, Unsaved>
    ensures { Writes types.now terms.now out.old result out.new }
{
    let n = types.len();
    if !fits(n, terms.len()) {
        return Err(Unsaved::Long);
    }
    let mut all = [0; 4096];
    let count = fill(types, terms, &mut all);
    judge(&all[..count], n)?;
    put_file(&all[..count], out)
}

// Saves the words of a declared type and of a term as a recipe file: for all words handed in and every buffer, whatever it held. Returns how many
// bytes the file has; the buffer is 0 past them, and all 0 where nothing is saved.
#[tactic(auto, using(writing::proofs::Stores::padded_is))]
pub fn save(types: &[u32], terms: &[u32], out: &mut [u8]) -> Result<usize, Unsaved>
    ensures { Saves types.now terms.now out.old result out.new }
{
    let answer = write(types, terms, out);
    Writer::from(out, answer.unwrap_or(0)).fill_rest(0);
    answer
}
