// The number of a term that is one.

ghost use Rattle.std.specs.Prelude.{◌≡◌, ◌/◌, ◌≤◌, get_or};

// The number that the words start with.
pub fn number_at(words: &[u32]) -> u32
    ensures value { result ≡ get_or words.now 0 0 / 256 }
    ensures small { result ≤ 16777215 }
{
    words.first().map_or(0, |word| word / 256)
}
