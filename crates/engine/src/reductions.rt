// The loop: a term is reduced, step by step, until its run ends. The two buffers hold the term by turns, and a flag says whether the first has it:
// with the two references swapped in its place, the end would not know which of them the term has to go to. They stay two slices, and no struct,
// since they come in as C lends them and every function here but `advance` hands them on so.

ghost use Rattle.std.specs.Prelude.{◌≤◌, length, take};
ghost use Rattle.calculus.specs.Run.{capacity};
ghost use Rattle.reducer.specs.Placed.{FewDue};
ghost use Rattle.engine.specs.Buffered.{Room};
ghost use Rattle.engine.specs.Ran.{Advanced, Reduced};

use crate::buffers::settle;
use counts::Counts;
use ends::{Report, decide};
use reducer::steps::{Move, step};
use reducer::turns::{ROOT, Start};
use std::ops::ControlFlow::{Break, Continue};

// One step, from the buffer that holds the term into the other.
fn advance(front: bool, first: &mut [u32], second: &mut [u32], n: usize, from: Start) -> Move
    requires { Room first.old second.old n × FewDue from }
    ensures { Advanced front n from first.old second.old result first.new second.new }
{
    if front {
        step(&first[..n], second, from)
    } else {
        step(&second[..n], first, from)
    }
}

// A run of the term whose words are the first `count` of the first buffer, in the capacity of both: steps until it ends. For the operations that
// lend buffers. A loop and no iterator: a step reads what the step before it wrote, and writes into the other buffer.
pub fn reduce(first: &mut [u32], second: &mut [u32], count: usize, limit: u32) -> Report
    requires { count ≤ capacity (length first.old) (length second.old) }
    ensures { Reduced limit (capacity (length first.old) (length second.old)) (take count first.old) result
        first.old second.old first.new second.new }
{
    let cap = ends::capacity(first.len(), second.len());
    let mut n = count;
    let mut made = Counts::default();
    let mut front = true;
    let mut from = ROOT;
    let report = loop {
        let moved = advance(front, first, second, n, from);
        match decide(moved, n, cap, made, limit) {
            Break(report) => break report,
            Continue((change, more)) => {
                n = change.size;
                from = change.back;
                made = more;
                front = !front;
            }
        }
    };
    settle(front, first, second, report.left);
    report
}
