// Items put into a lent buffer, one after the other. Items past its end are only counted.

#![tactic(auto)]

ghost use Rattle.std.specs.Prelude.{◌≡◌, [], ◌∷◌, ◌+◌, ◌<◌, ◌≤◌, length};
ghost use Rattle.writing.specs.Given.{most_count};
ghost use Rattle.writing.specs.Puts.{Puts, Filled};

pub mod spans;
pub mod substitution;

// Items over as many others. A loop, since the library's copy of slices is a call of memmove, a name that the archive for C would need from outside.
#[tactic(auto, using(crate::proofs::Stores::copy_more, crate::proofs::Stores::copied))]
pub fn copy<T: Copy>(items: &[T], target: &mut [T])
    requires { length target.old ≡ length items.now }
    ensures { target.new ≡ items.now }
{
    for i in 0..items.len() {
        target[i] = items[i];
    }
}

// How many of so many items come before a place that is a multiple of 16; none of few items.
fn uneven(at: usize, count: usize) -> usize
    ensures { result ≤ count }
{
    if count < 64 {
        return 0;
    }
    (16 - at % 16) % 16
}

// A buffer that is written, and the place of the next item, which may be past its end.
#[derive(Drop)]
pub struct Writer<'a, T> {
    pub buffer: &'a mut [T],
    pub at: usize,
}

// What a writer does, for items of every type that is copied.
impl<'a, T: Copy> Writer<'a, T> {
    // From the buffer's start on.
    pub fn new(buffer: &'a mut [T]) -> Writer<'a, T>
        ensures { (result.buffer ≡ buffer.entry) × (result.at ≡ 0) }
    {
        Writer { buffer, at: 0 }
    }

    // From a place of the buffer on.
    pub fn from(buffer: &'a mut [T], at: usize) -> Writer<'a, T>
        ensures { (result.buffer ≡ buffer.entry) × (result.at ≡ at) }
    {
        Writer { buffer, at }
    }

    // One item.
    pub fn put(&mut self, item: T)
        requires { self.old.at < most_count }
        ensures { Puts self.old (item ∷ []) self.new }
    {
        if self.at < self.buffer.len() {
            self.buffer[self.at] = item;
        }
        self.at += 1;
    }

    // All of these items at once.
    #[tactic(auto, using(crate::proofs::Stores::put_part))]
    fn put_all(&mut self, items: &[T])
        requires { self.old.at + length items.now < most_count }
        ensures { Puts self.old items.now self.new }
    {
        let start = self.at.min(self.buffer.len());
        let end = (self.at + items.len()).min(self.buffer.len());
        copy(&items[..end - start], &mut self.buffer[start..end]);
        self.at += items.len();
    }

    // All of these items. Of a long stretch a few first, so that the stores after them straddle no line of the cache.
    pub fn extend(&mut self, items: &[T])
        requires { self.old.at + length items.now < most_count }
        ensures { Puts self.old items.now self.new }
    {
        let first = uneven(self.at, items.len());
        if first == 0 {
            return self.put_all(items);
        }
        self.put_all(&items[..first]);
        self.put_all(&items[first..]);
    }

    // What ends a text: each place from the next item's on has this item. A loop, since std's `fill` promises that only by a law of the clones of T.
    #[tactic(auto, using(crate::proofs::Stores::fill_more))]
    pub fn fill_rest(&mut self, item: T)
        ensures { Filled self.old item self.new }
    {
        let start = self.at.min(self.buffer.len());
        for place in &mut self.buffer[start..] {
            *place = item;
        }
    }
}
