// The demands as contracts of code that calls the public operations. Each is proved from what these promise and from nothing else of them: if one
// promised less, no proof here would stand.

#![tactic(auto)]

ghost use Rattle.std.specs.Prelude.{true, ◌↔◌, ◌≡◌};
ghost use Rattle.calculus.specs.Nodes.{GivenBack, OneWord};
ghost use Rattle.engine.specs.Lent.{lent, returned};
ghost use Rattle.demands.specs.Demanded.{Checks, Once, Twice};
ghost use Rattle.demands.specs.Owned.{WithoutOwners};

use checker::check;
use ends::Report;
use engine::runs::run;
use nodes::alone::alone;
use nodes::refusals::Refusal;
use nodes::walks::node;

// Three answers: a check's, and those of two runs.
#[derive(Clone, Copy)]
pub struct Answers {
    pub checked: Result<(), Refusal>,
    pub earlier: Result<Report, Refusal>,
    pub later: Result<Report, Refusal>,
}

// Demand 2 of the check.
pub fn check_once(file: &[u8]) -> Result<(), Refusal>
    ensures { Checks file.now result }
{
    check(file)
}

// Demand 1, and demand 2 of a run, with where its steps went: of this file, this limit and these buffers.
pub fn run_once(
    file: &[u8],
    limit: u32,
    first: &mut [u32],
    second: &mut [u32],
) -> Result<Report, Refusal>
    ensures { Once
        (lent file.now limit first.old second.old)
        (returned result first.new second.new) }
{
    run(file, limit, first, second)
}

// Demand 3, whole: of this file, and of two runs of it.
pub fn run_twice(
    file: &[u8],
    limit: u32,
    first: &mut [u32],
    second: &mut [u32],
    limit_2: u32,
    first_2: &mut [u32],
    second_2: &mut [u32],
) -> Answers
    ensures { Twice result.checked
        (lent file.now limit first.old second.old)
        (returned result.earlier first.new second.new)
        (lent file.now limit_2 first_2.old second_2.old)
        (returned result.later first_2.new second_2.new) }
{
    let checked = check(file);
    let earlier = run(file, limit, first, second);
    let later = run(file, limit_2, first_2, second_2);
    Answers {
        checked,
        earlier,
        later,
    }
}

// The law of owners: this file is run; another, which may be this one without its owners, is checked and run under the same limit.
pub fn run_ownerless(
    file: &[u8],
    limit: u32,
    first: &mut [u32],
    second: &mut [u32],
    bare: &[u8],
    first_2: &mut [u32],
    second_2: &mut [u32],
) -> Answers
    ensures { WithoutOwners
        (lent file.now limit first.old second.old)
        (returned result.earlier first.new second.new)
        result.checked
        (lent bare.now limit first_2.old second_2.old)
        (returned result.later first_2.new second_2.new) }
{
    let checked = check(bare);
    let owned = run(file, limit, first, second);
    let ownerless = run(bare, limit, first_2, second_2);
    Answers {
        checked,
        earlier: owned,
        later: ownerless,
    }
}

// The reader of nodes, by trees: of these words and this place.
pub fn node_once(words: &[u32], at: usize) -> &[u32]
    ensures { GivenBack words.now at result.now }
{
    node(words, at)
}

// Its short way: "it answers at exactly the places whose whole node is one word".
pub fn alone_once(words: &[u32], at: usize) -> bool
    ensures { (result ≡ true) ↔ OneWord words.now at }
{
    alone(words, at)
}
