// The one table of kinds, which reader, checker and reducer look up.

ghost use Rattle.std.specs.Prelude.{◌≡◌, ◌%◌, ◌≤◌};
ghost use Rattle.calculus.specs.Scope.{part_count};
ghost use Rattle.nodes.specs.Table.{as_sort, same_sort, in_range, read, read_entry, row_of, shape_of};

// The two languages of a recipe. The default is what the unused places of a stack of languages hold.
#[derive(Clone, Copy, Default, PartialEq, Eq)]
pub enum Language {
    #[default]
    Ml,
    Scheme,
}

// The sorts of nodes: what may be due at a word.
#[derive(Clone, Copy, PartialEq, Eq)]
pub enum Sort {
    Type,
    Term(Language),
}

// The operators of one part, and of two.
#[derive(Clone, Copy, PartialEq, Eq)]
pub enum Operator1 {
    Hd,
    Tl,
    Fix,
    Null,
    Test,
}

#[derive(Clone, Copy, PartialEq, Eq)]
pub enum Operator2 {
    Apply,
    Add,
    Subtract,
    Cons,
}

// The shapes of terms, ms and sm as one, and those of types.
#[derive(Clone, Copy, PartialEq, Eq)]
pub enum Shape {
    Variable,
    Number,
    Lambda,
    Operator1(Operator1),
    Operator2(Operator2),
    If0,
    Nil,
    Wrong,
    Boundary,
    Numbers,
    Lump,
    List,
    Function,
}

// What the table says of a kind: its sort, its shape, its parts' sorts in order, and the least and the greatest operand.
#[derive(Clone, Copy)]
pub struct Row {
    pub sort: Sort,
    pub shape: Shape,
    pub parts: &'static [Sort],
    pub low: u32,
    pub high: u32,
}

const TYPE: Sort = Sort::Type;

const ML: Sort = Sort::Term(Language::Ml);

const SCHEME: Sort = Sort::Term(Language::Scheme);

// The greatest number, and the last of the variables, codes, owners and tests.
pub const LARGEST: u32 = 16777215;

const LAST_CODE: u32 = 65535;

const LAST_OWNER: u32 = 255;

const LAST_TEST: u32 = 3;

// What the table says of a number: its parts' sorts, none where it is no kind, so that its parts are counted without a question; and the rest, if
// it is one.
#[derive(Clone, Copy)]
pub struct Entry {
    pub parts: &'static [Sort],
    pub kind: Option<Kind>,
}

// A kind without its parts: its sort, its shape, and the least and the greatest operand.
#[derive(Clone, Copy)]
pub struct Kind {
    pub sort: Sort,
    pub shape: Shape,
    pub low: u32,
    pub high: u32,
}

const NONE: Entry = Entry {
    parts: &[],
    kind: None,
};

// A row whose operand is 0, and one whose operand has a range.
macro_rules! row {
    ($sort:ident, $shape:expr, $parts:expr) => {
        row!($sort, $shape, $parts, 0, 0)
    };
    ($sort:ident, $shape:expr, $parts:expr, $low:expr, $high:expr) => {
        Entry {
            parts: &$parts,
            kind: Some(Kind {
                sort: $sort,
                shape: $shape,
                low: $low,
                high: $high,
            }),
        }
    };
}

// The table: a row for each kind, and NONE for a number that is no kind. A kind after 45 is one more row in the place of a NONE.
pub static KINDS: [Entry; 64] = [
    NONE,
    row!(TYPE, Shape::Numbers, []), // 1 N
    row!(TYPE, Shape::Lump, [], 0, LAST_OWNER), // 2 L
    row!(TYPE, Shape::List, [TYPE]), // 3 list
    row!(TYPE, Shape::Function, [TYPE, TYPE]), // 4 function
    NONE,
    NONE,
    NONE,
    NONE,
    NONE,
    NONE,
    NONE,
    NONE,
    NONE,
    NONE,
    NONE,
    row!(ML, Shape::Variable, [], 0, LARGEST), // 16 variable
    row!(ML, Shape::Number, [], 0, LARGEST), // 17 number
    row!(ML, Shape::Lambda, [TYPE, ML]), // 18 lambda
    row!(ML, Shape::Operator2(Operator2::Apply), [ML, ML]), // 19 application
    row!(ML, Shape::Operator1(Operator1::Fix), [ML]), // 20 fix
    row!(ML, Shape::Operator2(Operator2::Add), [ML, ML]), // 21 add
    row!(ML, Shape::Operator2(Operator2::Subtract), [ML, ML]), // 22 subtract
    row!(ML, Shape::If0, [ML, ML, ML]), // 23 if0
    row!(ML, Shape::Nil, [TYPE]), // 24 nil
    row!(ML, Shape::Operator2(Operator2::Cons), [ML, ML]), // 25 cons
    row!(ML, Shape::Operator1(Operator1::Hd), [ML]), // 26 hd
    row!(ML, Shape::Operator1(Operator1::Tl), [ML]), // 27 tl
    row!(ML, Shape::Operator1(Operator1::Null), [ML]), // 28 null?
    row!(ML, Shape::Wrong, [TYPE], 1, LAST_CODE), // 29 wrong
    row!(ML, Shape::Boundary, [TYPE, SCHEME]), // 30 ms
    NONE,
    row!(SCHEME, Shape::Variable, [], 0, LARGEST), // 32 variable
    row!(SCHEME, Shape::Number, [], 0, LARGEST), // 33 number
    row!(SCHEME, Shape::Lambda, [SCHEME]), // 34 lambda
    row!(SCHEME, Shape::Operator2(Operator2::Apply), [SCHEME, SCHEME]), // 35 application
    row!(SCHEME, Shape::Operator2(Operator2::Add), [SCHEME, SCHEME]), // 36 add
    row!(
        SCHEME,
        Shape::Operator2(Operator2::Subtract),
        [SCHEME, SCHEME]
    ), // 37 subtract
    row!(SCHEME, Shape::If0, [SCHEME, SCHEME, SCHEME]), // 38 if0
    row!(SCHEME, Shape::Nil, []), // 39 nil
    row!(SCHEME, Shape::Operator2(Operator2::Cons), [SCHEME, SCHEME]), // 40 cons
    row!(SCHEME, Shape::Operator1(Operator1::Hd), [SCHEME]), // 41 hd
    row!(SCHEME, Shape::Operator1(Operator1::Tl), [SCHEME]), // 42 tl
    row!(
        SCHEME,
        Shape::Operator1(Operator1::Test),
        [SCHEME],
        0,
        LAST_TEST
    ), // 43 test
    row!(SCHEME, Shape::Wrong, [], 1, LAST_CODE), // 44 wrong
    row!(SCHEME, Shape::Boundary, [TYPE, ML]), // 45 sm
    NONE,
    NONE,
    NONE,
    NONE,
    NONE,
    NONE,
    NONE,
    NONE,
    NONE,
    NONE,
    NONE,
    NONE,
    NONE,
    NONE,
    NONE,
    NONE,
    NONE,
    NONE,
];

impl Row {
    // Whether the kind is of a sort.
    pub fn is_of(&self, sort: Sort) -> bool
        ensures { result ≡ same_sort (as_sort self.now.sort) (as_sort sort) }
    {
        self.sort == sort
    }

    // Whether an operand is in the kind's range.
    pub fn takes(&self, operand: u32) -> bool
        ensures { result ≡ in_range self.now.low self.now.high operand }
    {
        (self.low..=self.high).contains(&operand)
    }
}

impl Entry {
    // The row, if the number is a kind.
    fn row(self) -> Option<Row>
        ensures { read result ≡ read_entry self }
    {
        let kind = self.kind?;
        Some(Row {
            sort: kind.sort,
            shape: kind.shape,
            parts: self.parts,
            low: kind.low,
            high: kind.high,
        })
    }
}

// The row of a word's kind.
pub fn row_at(w: u32) -> Option<Row>
    ensures { read result ≡ row_of (w % 256) }
{
    let kind = (w % 256) as usize;
    if kind < KINDS.len() {
        KINDS[kind].row()
    } else {
        None
    }
}

// The shape of a word's kind.
pub fn shape_of(w: u32) -> Option<Shape>
    ensures { result ≡ shape_of (w % 256) }
{
    let row = row_at(w)?;
    Some(row.shape)
}

// How many parts the node of a word has.
pub fn part_count(w: u32) -> usize
    ensures value { result ≡ part_count w }
    ensures most { result ≤ 3 }
{
    let kind = (w % 256) as usize;
    if kind < KINDS.len() {
        KINDS[kind].parts.len()
    } else {
        0
    }
}
