// The ends of a run, in the order in which document 01 tests them.

#![tactic(auto)]

ghost use Rattle.std.specs.Prelude.{◌≡◌};
ghost use Rattle.calculus.specs.Run.{capacity};
ghost use Rattle.ends.specs.Results.{end_number};
ghost use Rattle.counts.specs.Counting.{UpTo};
ghost use Rattle.ends.specs.Decided.{leaving, decide};

use counts::{Class, Counts, counted, word_class};
use reducer::steps::{Change, Move};
use std::ops::ControlFlow;
use std::ops::ControlFlow::{Break, Continue};

// How a run ends: as a value, with its steps spent, with a wrong raised, or before a term that passes the capacity.
#[derive(Clone, Copy)]
pub enum End {
    Value,
    Spent,
    Error,
    Full,
}

// An end's number.
impl From<End> for u32 {
    ghost from_gives = { λ e n. n ≡ end_number e };

    fn from(e: End) -> u32 {
        match e {
            End::Value => 0,
            End::Spent => 1,
            End::Error => 2,
            End::Full => 3,
        }
    }
}

// The result of a run; `left` is how many words are left. `code` and `wanted` are 0 at the ends that have none, and no Option: they are C's numbers
// and those of the contracts' record.
#[derive(Clone, Copy)]
pub struct Report {
    pub end: End,
    pub code: u32,
    pub made: Counts,
    pub left: usize,
    pub wanted: usize,
}

// Reports without a code.
impl Report {
    // The result of a run that leaves so many words.
    fn leaving(end: End, made: Counts, left: usize, wanted: usize) -> Report
        ensures { result ≡ leaving end made left wanted }
    {
        Report {
            end,
            code: 0,
            made,
            left,
            wanted,
        }
    }
}

// What follows a move of the term of n words: the run ends, or the step is made and counted. "a value ends as value; steps made equal to the
// limit, as spent; a wrong whose turn it is, as error", in a step of its own, which is among the others; "a next term of more words than
// capacity, as full; else the step is made". No accepted recipe comes to a term that is stuck.
pub fn decide(
    moved: Move,
    n: usize,
    cap: usize,
    made: Counts,
    limit: u32,
) -> ControlFlow<Report, (Change, Counts)>
    requires { UpTo limit made }
    ensures { result ≡ decide moved n cap made limit }
{
    match moved {
        Move::Value => Break(Report::leaving(End::Value, made, n, 0)),
        Move::Stuck => Break(Report::leaving(End::Spent, made, n, 0)),
        _ if made.steps == limit => Break(Report::leaving(End::Spent, made, n, 0)),
        Move::Raised(code) => {
            let more = counted(Class::Other, made, limit);
            Break(Report {
                end: End::Error,
                code,
                made: more,
                left: 0,
                wanted: 0,
            })
        }
        Move::Next(change) if change.size <= cap => {
            Continue((change, counted(word_class(change.word), made, limit)))
        }
        Move::Next(change) => Break(Report::leaving(End::Full, made, n, change.size)),
    }
}

// "Capacity is the shorter length, at most 16,384."
pub fn capacity(first: usize, second: usize) -> usize
    ensures { result ≡ capacity first second }
{
    first.min(second).min(16384)
}
