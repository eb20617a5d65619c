// The layout of the batch card: lines put into a text, byte after byte. Bytes past the text's buffer are only counted.

#![tactic(auto)]

ghost use Rattle.std.specs.Prelude.{◌≡◌, [], ◌∷◌, ◌++◌, ◌+◌, ◌-◌, ◌≤◌, max, length, replicate};
ghost use Rattle.calculus.specs.File.{padded};
ghost use Rattle.writing.specs.Given.{most_place};
ghost use Rattle.writing.specs.Puts.{Puts};
ghost use Rattle.text.specs.Decimal.{decimal};
ghost use Rattle.text.specs.Characters.{blank, line_feed};
ghost use Rattle.layout.specs.Layout.{pump_line, pump_lines, last_line, card};

use charges::Charges;
use itoa::Buffer;
use writing::Writer;

// Blanks up to a place.
fn up_to(text: &mut Writer<u8>, end: usize)
    requires { (text.old.at ≤ most_place) × (end ≤ most_place) }
    ensures put { Puts text.old (replicate (end - text.old.at) blank) text.new }
    ensures bound { text.new.at ≡ max end text.old.at }
{
    for _ in text.at..end {
        text.put(b' ');
    }
}

// A number in decimal, right-aligned to a place.
fn right_to(text: &mut Writer<u8>, end: usize, number: u64)
    requires { (text.old.at ≤ most_place) × (end ≤ most_place) }
    ensures put { Puts text.old (replicate (end - length (decimal number) - text.old.at) blank ++ decimal number) text.new }
    ensures bound { text.new.at ≤ max end (text.old.at + 20) }
{
    let mut buffer = Buffer::new();
    let digits = buffer.format(number).as_bytes();
    up_to(text, end.saturating_sub(digits.len()));
    text.extend(digits);
}

// The blanks up to column 40 of the line that started at a place, and the line feed.
fn end_line(text: &mut Writer<u8>, start: usize)
    requires { (start ≤ 4096) × (text.old.at ≤ start + 60) }
    ensures put { Puts text.old (replicate (start + 40 - text.old.at) blank ++ line_feed ∷ []) text.new }
    ensures bound { text.new.at ≡ max (start + 40) text.old.at + 1 }
{
    up_to(text, start + 40);
    text.put(b'\n');
}

// "A pump's line has its number right-aligned to column 2, pulses to column 16, charge to column 32".
fn pump_line(text: &mut Writer<u8>, pump: usize, pulses: u32, charge: u64)
    requires { text.old.at ≤ 4096 }
    ensures put { Puts text.old (pump_line pump pulses charge) text.new }
    ensures bound { text.new.at ≤ text.old.at + 61 }
{
    let start = text.at;
    right_to(text, start + 2, pump as u64);
    right_to(text, start + 16, u64::from(pulses));
    right_to(text, start + 32, charge);
    end_line(text, start);
}

// The lines of the pumps, one for each item. The count gives the pump's number and its charge: a zip
// beside the count is no plainer, and its loop knows the place only by the items so far.
fn pump_lines(text: &mut Writer<u8>, pulses: &[u32], charge: &[u64; 9])
    requires { (length pulses.now ≤ 9) × (text.old.at ≡ 0) }
    ensures put { Puts text.old (pump_lines charge.now 0 pulses.now) text.new }
    ensures bound { text.new.at ≤ 549 }
{
    for (i, &count) in pulses.iter().enumerate() {
        pump_line(text, i + 1, count, charge[i]);
    }
}

// "The last line has TOTAL in columns 1 to 5 and the total right-aligned to column 32."
fn last_line(text: &mut Writer<u8>, total: u64)
    requires { text.old.at ≤ 4096 }
    ensures put { Puts text.old (last_line total) text.new }
    ensures bound { text.new.at ≤ text.old.at + 41 }
{
    let start = text.at;
    text.extend(b"TOTAL");
    right_to(text, start + 32, total);
    end_line(text, start);
}

// The card of a can with at most nine items, in a lent buffer, whatever it held: how many bytes the card has, whether they fit or not, and the card
// in the buffer, every byte after it zero.
pub fn lay_out(pulses: &[u32], charges: Charges, text: &mut [u8]) -> usize
    requires { length pulses.now ≤ 9 }
    ensures count { result ≡ length (card pulses.now charges.charge charges.total) }
    ensures text { text.new ≡ padded (length text.old) (card pulses.now charges.charge charges.total) }
    ensures bound { result ≤ 590 }
{
    let mut card = Writer::new(text);
    pump_lines(&mut card, pulses, &charges.charge);
    last_line(&mut card, charges.total);
    card.fill_rest(0);
    card.at
}
