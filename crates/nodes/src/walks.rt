// The walk over the words of nodes in prefix order: refusals 3 and 4, and the reader of nodes.

ghost use Rattle.std.specs.Prelude.{◌≡◌, ◌+◌, ◌^◌, ◌<◌, ◌/◌, ◌%◌, [], ◌∷◌, length, unwrap_or};
ghost use Rattle.calculus.specs.Reading.{later, walk, levelled, nested_due, in_order, node_size, node_at};
ghost use Rattle.nodes.specs.Table.{as_sort, as_sorts, read, row_due};
ghost use Rattle.nodes.specs.Walks.{walked, both_ordered};

use crate::alone::alone;
use crate::kinds::{Language, Row, Sort, row_at};
use crate::refusals::Refusal;

// The row of a word, if its kind is of the sort that is due and its operand is in the kind's range.
fn row_due(sort: Sort, w: u32) -> Option<Row>
    ensures { read result ≡ row_due (as_sort sort) w }
{
    let row = row_at(w)?;
    if row.is_of(sort) && row.takes(w / 256) {
        Some(row)
    } else {
        None
    }
}

// Walks over the nodes of the sorts due, one after the other, with so many levels of nesting left for each. `at` words are gone by: it answers how
// many are gone by then. Nothing is called for parts that a word does not have, nor for others if none is due.
pub fn walk(words: &[u32], at: usize, due: &[Sort], room: usize) -> Result<usize, Refusal>
    requires { at + length words.now < 2 ^ 63 }
    ensures { walked result ≡ later at (walk nested_due words.now (levelled room (as_sorts due.now))) }
{
    let Some((&sort, others)) = due.split_first() else {
        return Ok(at);
    };
    let Some((&w, rest)) = words.split_first() else {
        return Err(Refusal::Word(at));
    };
    let Some(row) = row_due(sort, w) else {
        return Err(Refusal::Word(at));
    };
    if room == 0 {
        return Err(Refusal::Nesting(at));
    }
    if row.parts.is_empty() {
        return walk(rest, at + 1, others, room);
    }
    let end = walk(rest, at + 1, row.parts, room - 1)?;
    if others.is_empty() {
        return Ok(end);
    }
    walk(&words[end - at..], end, others, room)
}

// Whether the words, which stand at a place of the file, are one node of a sort, nested no deeper than 256: refusals 3 and 4.
fn in_order(words: &[u32], at: usize, sort: Sort) -> Result<usize, Refusal>
    requires { at + length words.now < 2 ^ 63 }
    ensures { walked result ≡ later at (in_order (as_sort sort) words.now) }
{
    let end = walk(words, at, &[sort], 256)?;
    if end - at != words.len() {
        return Err(Refusal::Word(end));
    }
    Ok(end)
}

// Refusals 3 and 4 of a file: the words of the declared type, which stand at the place 4, and then those of the term. For the rooms above.
pub fn ordered(types: &[u32], terms: &[u32]) -> Result<usize, Refusal>
    ensures { walked result ≡ both_ordered types.now terms.now }
{
    let end = in_order(types, 4, Sort::Type)?;
    in_order(terms, end, Sort::Term(Language::Ml))
}

// How many words the node at the start of the words has, if a whole node starts there.
fn node_size(words: &[u32]) -> Option<usize>
    ensures { unwrap_or result 0 ≡ node_size words.now }
{
    let &w = words.first()?;
    let row = row_at(w)?;
    walk(words, 0, &[row.sort], words.len()).ok()
}

// The node at a place of the words by the walk alone, without the short way. For the benchmark, which holds the reader of nodes against it.
pub fn node_walked(words: &[u32], at: usize) -> &[u32]
    ensures { result.now ≡ node_at words.now at }
{
    if words.len() <= at {
        return &[];
    }
    let n = node_size(&words[at..]).unwrap_or(0);
    &words[at..at + n]
}

// The reader of nodes: the node at a place of the words, from its first word to its last, or the empty part where no whole node starts there.
pub fn node(words: &[u32], at: usize) -> &[u32]
    ensures { result.now ≡ node_at words.now at }
{
    if alone(words, at) {
        return &words[at..at + 1];
    }
    node_walked(words, at)
}
