// Whose turn it is: one pass over the words, which looks at each at most once. Of the nodes that wait for their parts only the last one met is
// remembered, since it is the first whose parts are all values. The pass need not begin at the root: a step leaves the words before its node as
// they were, so the next pass may begin at the node that waits for it.

ghost use Rattle.std.specs.Prelude.{◌≡◌, ◌≤◌, length};
ghost use Rattle.pieces.specs.Pieces.{Few};
ghost use Rattle.reducer.specs.Placed.{FewDue, around, look, Looked, Spanned, Turns};

use nodes::kinds::{Operator2, Shape, shape_of};
use pieces::values::is_lump;
use writing::spans::skip;

// Where a walk begins: a place, and how many parts are due there.
#[derive(Clone, Copy)]
pub struct Start {
    pub place: usize,
    pub due: usize,
}

// The start of a term: the root is due.
pub const ROOT: Start = Start { place: 0, due: 1 };

// The node whose turn it is: its place, where its words end, and where the next walk may begin. A step leaves the words before the node as they
// were, so that is at the node that waits for it, or else at itself.
#[derive(Clone, Copy)]
pub struct Turn {
    pub place: usize,
    pub end: usize,
    pub back: Start,
}

// What evaluation does at a node: past so many words it takes so many parts. Then the node is a value, or it is its own turn, and it leaves so
// many parts.
#[derive(Clone, Copy)]
pub struct Look {
    pub start: usize,
    pub takes: usize,
    pub leaves: Option<usize>,
}

// A node that waits for its parts to be values: where a walk comes to it, where the next walk may begin, and how many parts it leaves.
#[derive(Clone, Copy)]
pub struct Waiting {
    pub node: Start,
    pub back: Start,
    pub leaves: usize,
}

// What evaluation does at each kind of node.
impl Look {
    // A look that takes so many parts behind so many words, and leaves so many.
    fn new(start: usize, takes: usize, leaves: Option<usize>) -> Look
        ensures { result ≡ look start takes leaves }
    {
        Look {
            start,
            takes,
            leaves,
        }
    }

    // A look at the node that the words start with. A cons and a lump are values with their parts, and a number, a lambda and nil without.
    fn at(words: &[u32]) -> Look
        requires { Few words.now × (1 ≤ length words.now) }
        ensures { Looked words.now result }
    {
        let Some(shape) = shape_of(words[0]) else {
            return Look::new(1, 0, None);
        };
        match shape {
            Shape::Number => Look::new(1, 0, None),
            Shape::Variable => Look::new(1, 0, Some(0)),
            Shape::Operator1(_) => Look::new(1, 1, Some(0)),
            Shape::Operator2(Operator2::Cons) => Look::new(1, 2, None),
            Shape::Operator2(_) => Look::new(1, 2, Some(0)),
            Shape::If0 => Look::new(1, 1, Some(2)),
            Shape::Boundary => {
                let leaves = (!is_lump(words)).then_some(0);
                Look::new(1 + skip(&words[1..], 1), 1, leaves)
            }
            Shape::Wrong => Look::new(skip(words, 1), 0, Some(0)),
            _ => Look::new(skip(words, 1), 0, None),
        }
    }
}

// Where the next walk may begin: at the node that waits for this one, if one was met, or else here.
fn around(waiting: Option<Waiting>, here: Start) -> Start
    ensures { result ≡ around waiting here }
{
    waiting.map_or(here, |outer: Waiting| outer.node)
}

// A walk from a place of a term whose words these are. A loop by places and no iterator: the places that it comes to are its answer, and it goes
// on by whole nodes.
pub fn turn_from(words: &[u32], from: Start) -> Option<Turn>
    requires { Few words.now × FewDue from }
    ensures spanned { Spanned words.now result }
    ensures is { Turns words.now from from result }
{
    let mut i = from.place;
    let mut due = from.due;
    let mut waiting = None;
    while due > 0 && i < words.len() {
        let seen = Look::at(&words[i..]);
        if let Some(leaves) = seen.leaves {
            let node = Start { place: i, due };
            waiting = Some(Waiting {
                node,
                back: around(waiting, node),
                leaves,
            });
            due = 1;
        }
        due = due - 1 + seen.takes;
        i += seen.start;
    }
    let Waiting { node, back, leaves } = waiting?;
    let end = i + skip(&words[i..], leaves);
    Some(Turn {
        place: node.place,
        end,
        back,
    })
}
