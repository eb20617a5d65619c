// Types as the checker has them, and their comparison. A type that is found is never copied: it is a reference, a place of the file's words,
// read by the shape of the word there. A type's word means the type written there; a number, and an operator of one part, mean N; nil means
// the list of the type written after it; a lambda means the function from the type written after it to the type that its link refers to.
// There is a link for each word of the file. 0, where the header stands, is no reference, and no Option: a link has two bytes of fixed memory.

#![tactic(auto)]

ghost use Rattle.std.specs.Prelude.{◌≡◌, ◌+◌, ◌^◌, ◌<◌, ◌≤◌, IfSome, length, drop, option_map};
ghost use Rattle.nodes.specs.declared.refusals.Refusal.TheVariants.{Mistyped};
ghost use Rattle.types.specs.References.{shape_at, former_of, former_at, codomain};
ghost use Rattle.types.specs.Comparisons.{Matched, TypeEnd, lumps_compared, Compares, Compared, Equality};

use nodes::kinds::{Shape, shape_of};
use nodes::refusals::Refusal;

// How a type is formed; and, behind that, the words that mean no type: a variable, an operator of two parts, whichever it is, an if0, a wrong and a
// boundary.
#[derive(Clone, Copy, PartialEq, Eq)]
pub enum Former {
    Numbers,
    Lump,
    List,
    Function,
    Variable,
    Operation,
    If0,
    Wrong,
    Boundary,
}

// Where two types differ: the place of the first word of the first type that is not the second's. A type of its own, as `?` picks the refusal by
// it.
#[derive(Clone, Copy)]
pub struct Difference {
    pub at: usize,
}

// A declared type that is not the type found is refused where they differ.
impl From<Difference> for Refusal {
    ghost from_gives = { λ d r. r ≡ Mistyped d.at };

    fn from(difference: Difference) -> Refusal {
        Refusal::Mistyped(difference.at)
    }
}

// The words of a file and the links, one for each word.
#[derive(Clone, Copy)]
pub struct Types<'a> {
    pub words: &'a [u32],
    pub link: &'a [u16],
    ghost linked: { length link.now ≡ length words.now },
}

// Compares the types that x, which stands at a place, and y begin with. Returns the place past the first. A word of no kind is one word.
fn compare_words(x: &[u32], y: &[u32], at: usize) -> Result<usize, Difference>
    requires { at + length x.now < 2 ^ 63 }
    ensures { Matched x.now y.now at result }
{
    if x.is_empty() || y.is_empty() || x[0] != y[0] {
        return Err(Difference { at });
    }
    let Some(shape) = shape_of(x[0]) else {
        return Ok(at + 1);
    };
    match shape {
        Shape::List => return compare_words(&x[1..], &y[1..], at + 1),
        Shape::Function => {}
        _ => return Ok(at + 1),
    }
    let end = compare_words(&x[1..], &y[1..], at + 1)?;
    let n = end - at;
    compare_words(&x[n..], &y[n..], end)
}

// The place past the type that is written at a place.
pub fn type_end(words: &[u32], at: usize) -> usize
    requires { at ≤ length words.now }
    ensures { TypeEnd words.now at result }
{
    compare_words(&words[at..], &words[at..], at).unwrap_or(at)
}

// The shape of the word at a place, if there is a reference and the word is of a kind.
#[tactic(auto, unfolding(crate::specs::References::shape_at))]
pub fn shape_at(words: &[u32], p: usize) -> Option<Shape>
    ensures value { result ≡ shape_at words.now p }
    ensures there { IfSome result (λ s. p < length words.now) }
{
    if p == 0 || words.len() <= p {
        return None;
    }
    shape_of(words[p])
}

// How the type that a word of a shape means is formed, or which word it is that means none.
fn former_of(shape: Shape) -> Former
    ensures { result ≡ former_of shape }
{
    match shape {
        Shape::Numbers | Shape::Number | Shape::Operator1(_) => Former::Numbers,
        Shape::Lump => Former::Lump,
        Shape::List | Shape::Nil => Former::List,
        Shape::Function | Shape::Lambda => Former::Function,
        Shape::Variable => Former::Variable,
        Shape::Operator2(_) => Former::Operation,
        Shape::If0 => Former::If0,
        Shape::Wrong => Former::Wrong,
        Shape::Boundary => Former::Boundary,
    }
}

// The same of a shape that there may not be.
fn formed(shape: Option<Shape>) -> Option<Former>
    ensures { result ≡ option_map former_of shape }
{
    let shape = shape?;
    Some(former_of(shape))
}

// The same of the word at a place, if there is a reference and the word is of a kind.
pub fn former_at(words: &[u32], p: usize) -> Option<Former>
    ensures value { result ≡ former_at words.now p }
    ensures there { IfSome result (λ f. p < length words.now) }
{
    formed(shape_at(words, p))
}

// Compares the types that are written behind two places.
fn compare_behind(words: &[u32], p: usize, q: usize) -> Result<usize, Difference>
    requires { (p < length words.now) × (q < length words.now) }
    ensures { Matched (drop (p + 1) words.now) (drop (q + 1) words.now) (p + 1) result }
{
    compare_words(&words[p + 1..], &words[q + 1..], p + 1)
}

// Compares two lumps, which are written: they are equal if their owners are, so that their words are one.
fn compare_lumps(words: &[u32], p: usize, q: usize) -> Result<(), Difference>
    requires { (p < length words.now) × (q < length words.now) }
    ensures { result ≡ lumps_compared words.now p q }
{
    if words[p] != words[q] {
        return Err(Difference { at: p });
    }
    Ok(())
}

// What references mean among these words, and whether they mean the same.
impl Types<'_> {
    // The result type of the function type at p, whose argument type ends before `end`, by the shape of the word at p.
    #[tactic(auto, unfolding(crate::specs::References::codomain))]
    fn codomain_by(&self, shape: Option<Shape>, p: usize, end: usize) -> usize
        requires here { shape ≡ shape_at self.now.words.now p }
        requires there { IfSome shape (λ s. p < length self.now.words.now) }
        ensures { result ≡ codomain self.now.words.now self.now.link.now p end }
    {
        match shape {
            Some(Shape::Lambda) => usize::from(self.link[p]),
            _ => end,
        }
    }

    // The same, by the words alone.
    pub fn codomain(self, p: usize, end: usize) -> usize
        ensures { result ≡ codomain self.entry.words.now self.entry.link.now p end }
    {
        self.codomain_by(shape_at(self.words, p), p, end)
    }

    // Compares the types of two references that have fewer arrows in a row than `room`. Two that mean no type do not differ if their words are
    // such ones alike.
    fn compare_within(&self, p: usize, q: usize, room: usize) -> Result<(), Difference>
        ensures { Compares self.now.words.now self.now.link.now p q room result }
    {
        let first = shape_at(self.words, p);
        let second = shape_at(self.words, q);
        let former = formed(first);
        if room == 0 || former != formed(second) {
            return Err(Difference { at: p });
        }
        let Some(former) = former else {
            return Ok(());
        };
        match former {
            Former::Lump => return compare_lumps(self.words, p, q),
            Former::List => {
                compare_behind(self.words, p, q)?;
                return Ok(());
            }
            Former::Function => {}
            _ => return Ok(()),
        }
        let end = compare_behind(self.words, p, q)?;
        let t = self.codomain_by(first, p, end);
        let u = self.codomain_by(second, q, q + (end - p));
        self.compare_within(t, u, room - 1)
    }

    // Compares the types of two references. No type of a file has as many arrows in a row as twice its words.
    pub fn compare(self, p: usize, q: usize) -> Result<(), Difference>
        ensures { Compared self.entry.words.now self.entry.link.now p q result }
    {
        self.compare_within(p, q, self.words.len() + self.words.len() + 1)
    }

    // Whether two references mean one type.
    pub fn same(self, p: usize, q: usize) -> bool
        ensures { Equality self.entry.words.now self.entry.link.now p q result }
    {
        self.compare(p, q).is_ok()
    }
}
