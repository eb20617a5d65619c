// The refusals of a recipe, and their numbers.

ghost use Rattle.std.specs.Prelude.{◌≡◌};
ghost use Rattle.nodes.specs.Refusals.{at, plain, numbered};

// Why a recipe is refused, in the order of the table of refusals; specs/Refusals.antt gives each its number and its place in the file.
#[derive(Clone, Copy, PartialEq, Eq)]
pub enum Refusal {
    Bytes,
    Header,
    Word(usize),
    Nesting(usize),
    Variable(usize),
    Untyped(usize),
    Mistyped(usize),
    Capacity,
}

// A refusal's number, and its place in the file.
#[derive(Clone, Copy, PartialEq, Eq)]
pub struct Numbers {
    pub number: u32,
    pub place: usize,
}

// A refusal that points at a place.
fn at(number: u32, place: usize) -> Numbers
    ensures { result ≡ at number place }
{
    Numbers { number, place }
}

// A refusal that points at nothing: its place is 0. For the operations that have refusals of their own, too.
pub fn plain(number: u32) -> Numbers
    ensures { result ≡ plain number }
{
    at(number, 0)
}

impl From<Refusal> for Numbers {
    ghost from_gives = { λ r n. n ≡ numbered r };

    fn from(r: Refusal) -> Numbers {
        match r {
            Refusal::Bytes => plain(1),
            Refusal::Header => plain(2),
            Refusal::Word(place) => at(3, place),
            Refusal::Nesting(place) => at(4, place),
            Refusal::Variable(place) => at(5, place),
            Refusal::Untyped(place) => at(6, place),
            Refusal::Mistyped(place) => at(7, place),
            Refusal::Capacity => plain(8),
        }
    }
}
