// The next term, put around what a node becomes: its words are counted, those that did not fit too.

#![tactic(auto)]

ghost use Rattle.writer.specs.Kept.{Gap, Next};

use writing::Writer;

// The next term: the words of src before p, the words that are there from p up to a, and the words of src from e on. Returns its size, whether or
// not it fits.
pub fn write_next(buf: &mut [u32], src: &[u32], p: usize, a: usize, e: usize) -> usize
    requires { Gap src.now p a e }
    ensures { Next src.now p a e buf.old result buf.new }
{
    let mut next = Writer::new(buf);
    next.extend(&src[..p]);
    next.at = a;
    next.extend(&src[e..]);
    next.at
}
