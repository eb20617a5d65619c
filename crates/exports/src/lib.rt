// What a C program gets. crates/exports_c hands these functions on to C, and include/recipe.h declares them.

#![tactic(auto)]

pub mod cards;
pub mod prices;
pub mod readers;
pub mod runs;
pub mod saves;

ghost use Rattle.std.specs.Prelude.{◌≡◌, ◌+◌, ◌*◌, ◌≤◌};
ghost use Rattle.calculus.specs.File.{check};
ghost use Rattle.checker.specs.Checks.{accepting};
ghost use Rattle.exports.specs.Numbers.{check_number};

use nodes::refusals::Numbers;

// A refusal in one number, as a word has its kind and operand: its number + 256 × its place.
fn packed(told: Numbers) -> u64
    requires { told.place ≤ 4096 }
    ensures { result ≡ told.number + 256 * told.place }
{
    u64::from(told.number) + 256 * told.place as u64
}

// The check of a file, for every file: 0 where it is accepted, else the refusal.
pub fn recipe_check(file: &[u8]) -> u64
    ensures { result ≡ check_number (accepting (check file.now)) }
{
    match checker::check(file) {
        Ok(()) => 0,
        Err(r) => packed(r.into()),
    }
}
