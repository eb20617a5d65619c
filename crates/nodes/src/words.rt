// Words by the names of their kinds, which stand in the table beside this.

ghost use Rattle.std.specs.Prelude.{◌≡◌, ◌≤◌};
ghost use Rattle.calculus.specs.Words.{by, word};
ghost use Rattle.nodes.specs.Table.{as_lang};

use crate::kinds::Language;

// The kinds that code looks for and writes. A word of operand 0 is its kind.
pub const N: u32 = 1;

pub const L: u32 = 2;

pub const LIST: u32 = 3;

pub const ML_VARIABLE: u32 = 16;

pub const ML_NUMBER: u32 = 17;

pub const ML_LAMBDA: u32 = 18;

pub const ML_APPLICATION: u32 = 19;

pub const ML_NIL: u32 = 24;

pub const ML_CONS: u32 = 25;

const ML_WRONG: u32 = 29;

pub const MS: u32 = 30;

pub const SCHEME_VARIABLE: u32 = 32;

pub const SCHEME_NUMBER: u32 = 33;

pub const SCHEME_LAMBDA: u32 = 34;

pub const SCHEME_APPLICATION: u32 = 35;

pub const SCHEME_NIL: u32 = 39;

pub const SCHEME_CONS: u32 = 40;

const SCHEME_WRONG: u32 = 44;

pub const SM: u32 = 45;

// The word of a wrong of a language.
pub fn wrong(language: Language, code: u32) -> u32
    requires { code ≤ 65535 }
    ensures { result ≡ word (by (as_lang language) 29 44) code }
{
    let kind = match language {
        Language::Ml => ML_WRONG,
        Language::Scheme => SCHEME_WRONG,
    };
    kind + 256 * code
}
