// The words that each language has for the same thing.

ghost use Rattle.std.specs.Prelude.{◌≡◌, ◌≤◌};
ghost use Rattle.calculus.specs.Words.{word, by, largest};
ghost use Rattle.nodes.specs.Table.{as_lang};
ghost use Rattle.pieces.specs.Languages.{other};

use nodes::kinds::Language;
use nodes::words::{
    ML_APPLICATION, ML_CONS, ML_NUMBER, ML_VARIABLE, MS, SCHEME_APPLICATION, SCHEME_CONS,
    SCHEME_NUMBER, SCHEME_VARIABLE, SM,
};

// The language that is not this one.
pub fn other(language: Language) -> Language
    ensures { result ≡ other language }
{
    match language {
        Language::Ml => Language::Scheme,
        Language::Scheme => Language::Ml,
    }
}

// The innermost lambda's variable.
pub fn variable(language: Language) -> u32
    ensures { result ≡ by (as_lang language) 16 32 }
{
    match language {
        Language::Ml => ML_VARIABLE,
        Language::Scheme => SCHEME_VARIABLE,
    }
}

// A number.
pub fn number(language: Language, n: u32) -> u32
    requires { n ≤ largest }
    ensures { result ≡ word (by (as_lang language) 17 33) n }
{
    let kind = match language {
        Language::Ml => ML_NUMBER,
        Language::Scheme => SCHEME_NUMBER,
    };
    kind + 256 * n
}

// An application.
pub fn application(language: Language) -> u32
    ensures { result ≡ by (as_lang language) 19 35 }
{
    match language {
        Language::Ml => ML_APPLICATION,
        Language::Scheme => SCHEME_APPLICATION,
    }
}

// A cons.
pub fn cons(language: Language) -> u32
    ensures { result ≡ by (as_lang language) 25 40 }
{
    match language {
        Language::Ml => ML_CONS,
        Language::Scheme => SCHEME_CONS,
    }
}

// The boundary into the language: ms, or sm.
pub fn boundary(into: Language) -> u32
    ensures { result ≡ by (as_lang into) 30 45 }
{
    match into {
        Language::Ml => MS,
        Language::Scheme => SM,
    }
}
