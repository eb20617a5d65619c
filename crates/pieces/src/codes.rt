// The wrongs that the rules make.

ghost use Rattle.std.specs.Prelude.{◌≡◌, ◌≤◌};
ghost use Rattle.calculus.specs.Words.{by, word};
ghost use Rattle.nodes.specs.Table.{as_lang};
ghost use Rattle.pieces.specs.Codes.{code};

use nodes::kinds::Language;
use nodes::words::wrong;

// Not a number, not a function, not a list; hd or tl of nil; a sum over the greatest number.
#[derive(Clone, Copy, PartialEq, Eq)]
pub enum Wrong {
    NoNumber = 1,
    NoFunction = 2,
    NoList = 3,
    OfNil = 4,
    Over = 5,
}

impl Wrong {
    // The code that a run ends with.
    pub fn code(self) -> u32
        ensures value { result ≡ code self }
        ensures small { result ≤ 5 }
    {
        self as u32
    }

    // Its word in a language. In ML a type stands after it.
    pub fn word(self, language: Language) -> u32
        ensures { result ≡ word (by (as_lang language) 29 44) (code self) }
    {
        wrong(language, self.code())
    }
}
