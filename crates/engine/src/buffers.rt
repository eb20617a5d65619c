// What a run leaves in the two buffers.

ghost use Rattle.std.specs.Prelude.{take};
ghost use Rattle.engine.specs.Buffered.{Room, held, Settled};

use writing::{Writer, copy};

// The first n words of the first buffer stay; every other word of both becomes zero.
#[tactic(auto, using(writing::proofs::Stores::padded_is, calculus::proofs::Padding::padded_none))]
pub fn keep(first: &mut [u32], second: &mut [u32], n: usize)
    ensures { Settled (take n first.old) first.old second.old first.new second.new }
{
    Writer::from(first, n).fill_rest(0);
    second.fill(0);
}

// The first n words of the buffer that holds the term stand first in the first buffer; every other word of both becomes zero.
pub fn settle(front: bool, first: &mut [u32], second: &mut [u32], n: usize)
    requires { Room first.old second.old n }
    ensures { Settled (take n (held front first.old second.old))
        first.old second.old first.new second.new }
{
    if !front {
        copy(&second[..n], &mut first[..n]);
    }
    keep(first, second, n);
}
