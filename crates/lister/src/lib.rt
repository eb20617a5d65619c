// The listing: from a file's bytes to the text that support reads, in a lent buffer.

#![tactic(auto)]

ghost use Rattle.std.specs.Prelude.{◌≡◌, ◌+◌, ◌*◌, ◌<◌, ◌≤◌, length};
ghost use Rattle.calculus.specs.File.{padded};
ghost use Rattle.writing.specs.Given.{most_place};
ghost use Rattle.writing.specs.Puts.{Puts};
ghost use Rattle.ends.specs.Results.{end_of, told};
ghost use Rattle.engine.specs.Answered.{spoken};
ghost use Rattle.lister.specs.Listing.{field, words_line, end_name, line, listing};
ghost use Rattle.lister.specs.Numbered.{Short, refused_line, ended_line, text_by, LeftWithin, WantedFew};

use ends::{End, Report};
use engine::runs::run;
use nodes::refusals::{Numbers, Refusal};
use text::put_decimal;
use writing::Writer;

// A blank and a number.
fn field(text: &mut Writer<u8>, number: u64)
    requires { text.old.at ≤ most_place }
    ensures put { Puts text.old (field number) text.new }
    ensures bound { text.new.at ≤ text.old.at + 21 }
    ensures short { number < 4294967296 → text.new.at ≤ text.old.at + 11 }
{
    text.put(b' ');
    put_decimal(text, number);
}

// A line: a name, and numbers after it.
fn line(text: &mut Writer<u8>, name: &[u8], numbers: &[u64])
    requires { (length name.now ≤ 7) × (length numbers.now ≤ 7) × (text.old.at ≡ 0) }
    ensures put { Puts text.old (line name.now numbers.now) text.new }
    ensures bound { text.new.at ≤ length name.now + 21 * length numbers.now + 1 }
    ensures short { Short numbers.now → text.new.at ≤ length name.now + 11 * length numbers.now + 1 }
{
    text.extend(name);
    for &number in numbers {
        field(text, number);
    }
    text.put(b'\n');
}

// "end name".
fn end_name(end: End) -> &'static [u8]
    ensures name { result.now ≡ end_name (end_of end) }
    ensures bound { length result.now ≤ 5 }
{
    match end {
        End::Value => b"value",
        End::Spent => b"spent",
        End::Error => b"error",
        End::Full => b"full",
    }
}

// "the term's words on the next, or an empty line": a blank between two.
fn words_line(text: &mut Writer<u8>, words: &[u32])
    requires { (length words.now ≤ 4096) × (text.old.at ≤ 83) }
    ensures put { Puts text.old (words_line words.now) text.new }
    ensures bound { text.new.at ≤ text.old.at + 11 * length words.now }
{
    if let Some((&first, others)) = words.split_first() {
        put_decimal(text, u64::from(first));
        for &word in others {
            field(text, u64::from(word));
        }
    }
}

// "A refusal prints `refused`, number, place on one line".
fn refused_line(text: &mut Writer<u8>, why: Numbers)
    requires { text.old.at ≡ 0 }
    ensures put { Puts text.old (refused_line why.number why.place) text.new }
    ensures bound { text.new.at ≤ 64 }
{
    let numbers = [u64::from(why.number), why.place as u64];
    line(text, b"refused", &numbers);
}

// "end name, code, steps, words left, words wanted on one line"; "The listing's first line ends with the three": calls, conversions, others.
fn ended_line(text: &mut Writer<u8>, report: Report)
    requires { (text.old.at ≡ 0) × (report.left ≤ 4096) × (report.wanted ≤ 268435456) }
    ensures put { Puts text.old (ended_line (told report)) text.new }
    ensures bound { text.new.at ≤ 83 }
{
    let made = report.made;
    let numbers = [
        u64::from(report.code),
        u64::from(made.steps),
        report.left as u64,
        report.wanted as u64,
        u64::from(made.calls),
        u64::from(made.conversions),
        u64::from(made.others),
    ];
    line(text, end_name(report.end), &numbers);
}

// The lines of a run, by what it answered and the words in its first buffer.
fn lines(text: &mut Writer<u8>, answer: Result<Report, Refusal>, first: &[u32])
    requires { LeftWithin (spoken answer) first.now × WantedFew (spoken answer) × (length first.now ≤ 4096) × (text.old.at ≡ 0) }
    ensures put { Puts text.old (text_by (spoken answer) first.now) text.new }
    ensures bound { text.new.at ≤ 45140 }
{
    match answer {
        Err(refusal) => refused_line(text, Numbers::from(refusal)),
        Ok(report) => {
            ended_line(text, report);
            words_line(text, &first[..report.left]);
            text.put(b'\n');
        }
    }
}

// The listing of a file, for every file and every buffer, whatever it held: how many bytes its text has, whether they fit or not, and the text in
// the buffer, every byte after it zero.
pub fn list(file: &[u8], text: &mut [u8]) -> usize
    ensures count { result ≡ length (listing file.now) }
    ensures text { text.new ≡ padded (length text.old) (listing file.now) }
    ensures bound { result ≤ 49152 }
    ensures most { result ≤ 45140 }
{
    let mut first = [0u32; 4096];
    let mut second = [0u32; 4096];
    let answer = run(file, 1_000_000, &mut first, &mut second);
    let mut listing = Writer::new(text);
    lines(&mut listing, answer, &first);
    listing.fill_rest(0);
    listing.at
}
