// One step of the term in the source: the next term is put together in the target.

ghost use Rattle.pieces.specs.Pieces.{Few};
ghost use Rattle.reducer.specs.Placed.{FewDue, beginning, Spanned, Turns};
ghost use Rattle.reducer.specs.Moves.{PieceFits, Spliced, FewDueNext, OneStep};

use crate::turns::{ROOT, Start, Turn, turn_from};
use contraction::choices::contract;
use pieces::became::{Became, Piece};
use pieces::write;
use writer::write_next;
use writing::Writer;

// The word of the node whose turn it was, its place, how many words stood there, how many stand there now, how many words the next term has,
// whether it fits or not, and where the next walk may begin.
#[derive(Clone, Copy)]
pub struct Change {
    pub word: u32,
    pub place: usize,
    pub stood: usize,
    pub stands: usize,
    pub size: usize,
    pub back: Start,
}

// What a step comes to: the term is a value, a wrong is raised by its number, a next term stands in the target, or no rule is for the node.
#[derive(Clone, Copy)]
pub enum Move {
    Value,
    Raised(u32),
    Next(Change),
    Stuck,
}

// The next term: the words before the node whose turn it is, what it becomes, and the words after it.
fn splice(source: &[u32], turn: Turn, piece: Piece, target: &mut [u32]) -> Change
    requires { Few source.now × PieceFits source.now turn piece }
    ensures { Spliced source.now turn target.old result target.new }
{
    let Turn { place, end, back } = turn;
    let mut node = Writer::from(target, place);
    write(piece, &mut node);
    let after = node.at;
    let size = write_next(target, source, place, after, end);
    Change {
        word: source[place],
        place,
        stood: end - place,
        stands: after - place,
        size,
        back,
    }
}

// The walk to the turn, from a place on; and from the start, if all is a value from there on.
fn whose(source: &[u32], from: Start) -> Option<Turn>
    requires { Few source.now × FewDue from }
    ensures spanned { Spanned source.now result }
    ensures is { Turns source.now from beginning result }
{
    turn_from(source, from).or_else(|| turn_from(source, ROOT))
}

// The step of the term in the source; the walk to the turn begins at a place.
pub fn step(source: &[u32], target: &mut [u32], from: Start) -> Move
    requires { Few source.now × FewDue from }
    ensures few { FewDueNext result }
    ensures is { OneStep source.now from target.old result target.new }
{
    let Some(turn) = whose(source, from) else {
        return Move::Value;
    };
    match contract(&source[turn.place..turn.end]) {
        Became::Nothing => Move::Stuck,
        Became::Raises(code) => Move::Raised(code),
        Became::Becomes(piece) => Move::Next(splice(source, turn, piece, target)),
    }
}
