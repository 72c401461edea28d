// What stands in the columns of a line of text.
#![tactic(auto)]

ghost use Rattle.std.specs.Prelude.{◌≡◌, ◌++◌, ◌+◌, ◌^◌, ◌≤◌, ◌<◌, length, take, take_while};
ghost use Rattle.std.proofs.Common.{arith};
ghost use Rattle.units.specs.Answers.{answer, fitted, passed, onward};
ghost use Rattle.words.specs.Scans.{plain_in};
ghost use Rattle.read_columns.specs.Columns.{plain_to, is_blank, blank_to, blank_after, blank_line, column_of, number, field_numbers, blank_field, zero_field, zero_fields};
ghost use Rattle.read_columns.specs.Cases.{flaw_of, read_of, tested_of};

use units::{Answer, Bytes, Lines, Numbered, Words};

// Why a text is refused: the line and, where it is not always the same, the column, both counted from 1.
#[derive(Clone, Copy)]
pub enum Flaw {
    Byte(Lines, Bytes),
    NoRecord,
    Field(Lines, Bytes),
    Kind(Lines),
    Count(Lines),
    Ends(Lines),
    NotBlank(Lines, Bytes),
    Range(Lines, Bytes),
    Much(Lines),
    Long,
}

impl Numbered for Flaw {
    ghost numbers_of = { λ f. fitted (flaw_of f) };

    ghost room = { 2 ^ 24 };

    ghost packs = { Prim.omega arith };

    fn numbers(self) -> Answer {
        match self {
            Flaw::Byte(line, column) => at_column(20, line, column),
            Flaw::NoRecord => at_column(21, Lines(0), Bytes(0)),
            Flaw::Field(line, column) => at_column(22, line, column),
            Flaw::Kind(line) => at_column(23, line, Bytes(7)),
            Flaw::Count(line) => at_column(24, line, Bytes(1)),
            Flaw::Ends(line) => at_column(25, line, Bytes(1)),
            Flaw::NotBlank(line, column) => at_column(26, line, column),
            Flaw::Range(line, column) => at_column(27, line, column),
            Flaw::Much(line) => at_column(28, line, Bytes(1)),
            Flaw::Long => at_column(30, Lines(0), Bytes(0)),
        }
    }
}

// Refusal n at a line and a column.
fn at_column(n: u8, line: Lines, column: Bytes) -> Answer
    ensures { (result ≡ fitted (answer n line.0 column.0 0)) × (result.a < 2 ^ 24) }
{
    units::counted(n, line.0, column.0)
}

// A line of a text: its number, counted from 1, and its bytes without its end.
// Kept: clauses take its number and its bytes apart, as the definitions of specs/Columns.antt do, whose parameters may not change.
#[derive(Clone, Copy)]
pub struct Line<'a> {
    pub num: Lines,
    pub text: &'a [u8],
}

// The first column of the field with k fields before it.
// Kept: that there are at most 20 fields before it is asked by each function here, and by no type: the public `column_of` asks it by `requires`.
pub fn column_of(k: Words) -> Bytes
    requires { k.0 ≤ 20 }
    ensures { result.0 ≡ column_of k.0 }
{
    let before = units::columns_of_fields(k).0;
    let column = before + 1;
    Bytes(column)
}

// How many blanks a text begins with.
fn blanks(text: &[u8]) -> usize
    ensures { result ≡ length (take_while is_blank text.now) }
{
    text.iter().take_while(|b| **b == b' ').count()
}

impl<'a> Line<'a> {
    // The columns before the first that is past 120 or not plain, of a line that begins with `plain` plain bytes.
    pub fn plain_to(self, plain: Bytes) -> Bytes
        requires { plain.0 ≡ plain_in self.text.now }
        ensures { result.0 ≡ plain_to self.entry.text.now }
    {
        Bytes(plain.0.min(120))
    }

    // The columns before the first that is not blank, of those after the first `from`.
    fn blank_to(self, from: Bytes) -> usize
        ensures { result ≡ blank_to from.0 self.entry.text.now }
    {
        let first = from.0.min(self.text.len());
        from.0 + blanks(&self.text[first..])
    }

    // The columns after the first `from` must be blank.
    // Kept: the test of `read_line::read_line` once more, for another refusal: one method for both would be handed a function that makes the refusal, and is longer than the test.
    #[tactic(auto, unfolding(crate::specs::Columns::blank_after, crate::specs::Columns::right_to))]
    pub fn blank_after(self, from: Bytes) -> Result<(), Flaw>
        ensures { tested_of tt result ≡ blank_after self.entry.num.0 self.entry.text.now from.0 }
    {
        let right = self.blank_to(from);
        if right < self.text.len() {
            let column = right + 1;
            return Err(Flaw::NotBlank(self.num, Bytes(column)));
        }
        Ok(())
    }

    // A blank line.
    pub fn blank_line(self) -> bool
        ensures { result ≡ blank_line self.entry.text.now }
    {
        self.text.len() <= self.blank_to(Bytes(0))
    }

    // The number in the field with k fields before it. Inlined: a call of its own would hand each number on through memory.
    #[inline(always)]
    #[tactic(auto, unfolding(crate::specs::Columns::number))]
    fn number(self, k: Words) -> Result<u16, Flaw>
        requires { k.0 ≤ 20 }
        ensures { read_of result ≡ number self.entry.num.0 self.entry.text.now k.0 }
    {
        let w = field::read_field(self.text, units::columns_of_fields(k));
        w.ok_or(Flaw::Field(self.num, column_of(k)))
    }

    // Reads `count` number fields, with `from` fields before them, into the same places of the row.
    // Kept: the row is lent and not given back: this public method's clause is over the row before and after, whose numbers before `from` stay.
    pub fn read_numbers(self, from: Words, count: Words, row: &mut [u16; 20]) -> Result<(), Flaw>
        requires { from.0 + count.0 ≤ 20 }
        ensures { tested_of (take (from.0 + count.0) row.new) result ≡ onward (field_numbers self.entry.num.0 self.entry.text.now from.0 count.0) (λ ws. passed (take from.0 row.old ++ ws)) }
    {
        for k in from.0..from.0 + count.0 {
            row[k] = self.number(Words(k))?;
        }
        Ok(())
    }

    // The field with k fields before it is blank.
    fn blank_field(self, k: Words) -> bool
        requires { k.0 ≤ 20 }
        ensures { result ≡ blank_field self.entry.text.now k.0 }
    {
        let before = units::columns_of_fields(k);
        let last = before.0 + 6;
        last.min(self.text.len()) <= self.blank_to(before)
    }

    // A field that must be 0, or blank, which means 0.
    #[tactic(auto, unfolding(crate::specs::Columns::zero_field))]
    fn zero_field(self, k: Words) -> Result<(), Flaw>
        requires { k.0 ≤ 20 }
        ensures { tested_of tt result ≡ zero_field self.entry.num.0 self.entry.text.now k.0 }
    {
        if self.blank_field(k) {
            return Ok(());
        }
        let w = self.number(k)?;
        if w == 0 {
            return Ok(());
        }
        Err(Flaw::NotBlank(self.num, column_of(k)))
    }

    // `count` such fields, with `from` fields before them.
    pub fn zero_fields(self, from: Words, count: Words) -> Result<(), Flaw>
        requires { from.0 + count.0 ≤ 20 }
        ensures { tested_of tt result ≡ zero_fields self.entry.num.0 self.entry.text.now from.0 count.0 }
    {
        for k in from.0..from.0 + count.0 {
            self.zero_field(Words(k))?;
        }
        Ok(())
    }
}
