// How many words nodes have.

ghost use Rattle.std.specs.Prelude.{◌≡◌, ◌+◌, ◌*◌, ◌<◌, ◌≤◌, length};
ghost use Rattle.writing.specs.Given.{most_count};
ghost use Rattle.writing.specs.Spans.{span};

use nodes::kinds::part_count;

// How many words the first nodes have, so many as are due.
pub fn skip(words: &[u32], due: usize) -> usize
    requires { due + 3 * length words.now < most_count }
    ensures within { result ≤ length words.now }
    ensures is { result ≡ span words.now due }
{
    let mut left = due;
    for (i, &w) in words.iter().enumerate() {
        if left == 0 {
            return i;
        }
        left = left - 1 + part_count(w);
    }
    words.len()
}
