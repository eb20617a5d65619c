// What a node becomes whose turn it is, as words: nothing, if no rule fits; an error, by its code; or a piece to write.

ghost use Rattle.std.specs.Prelude.{◌≤◌};
ghost use Rattle.calculus.specs.Trees.{num};
ghost use Rattle.calculus.specs.Words.{largest};
ghost use Rattle.calculus.specs.Reduction.{becomes, amiss};
ghost use Rattle.nodes.specs.Table.{as_lang};
ghost use Rattle.pieces.specs.Pieces.{BecameIn, Becoming, Tells};

use nodes::kinds::Language;
use nodes::words::wrong;

// Three outcomes, as the calculus has them: nothing and a raise are answers there, and no failures.
#[derive(Clone, Copy)]
pub enum Became<'a> {
    Nothing,
    Raises(u32),
    Becomes(Piece<'a>),
}

// The words to write. Some are parts of the node.
#[derive(Clone, Copy)]
pub enum Piece<'a> {
    Word(u32),
    Number(Language, u32),
    Part(&'a [u32]),
    // one word or two, and a part after them: two variants, since a slice of the leading words would need a buffer to stand in
    Led(u32, &'a [u32]),
    Led2(u32, u32, &'a [u32]),
    // a cons brought into a language, whose elements have a type
    Cons {
        into: Language,
        element: &'a [u32],
        head: &'a [u32],
        tail: &'a [u32],
    },
    // a lambda brought into a language, a function from a type to another
    Function {
        into: Language,
        from: &'a [u32],
        to: &'a [u32],
        lambda: &'a [u32],
    },
    // a body with a value for the language's variable
    Substituted {
        language: Language,
        body: &'a [u32],
        value: &'a [u32],
    },
}

// A value that no rule takes: a wrong in Scheme, by its code.
pub fn amiss<'a>(language: Language, code: u32) -> Became<'a>
    requires { code ≤ 65535 }
    ensures { Becoming result (amiss (as_lang language) code) }
{
    match language {
        Language::Ml => Became::Nothing,
        Language::Scheme => Became::Becomes(Piece::Word(wrong(language, code))),
    }
}

// A number of a language.
pub fn number_in<'a>(language: Language, n: u32) -> Became<'a>
    ensures placed { n ≤ largest → BecameIn result }
    ensures told { Tells result (becomes (num {l = as_lang language} n)) }
{
    Became::Becomes(Piece::Number(language, n))
}
