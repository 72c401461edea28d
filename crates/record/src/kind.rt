// The kinds of records, and the numbers that say them.
ghost use Rattle.std.specs.Prelude.{◌≡◌};
ghost use Rattle.record.specs.Kinds.{kind_word, kind_number, SaysKind};

// What a record is.
#[derive(Clone, Copy, PartialEq, Eq)]
pub enum Kind {
    Catalogue,
    Header,
    Data,
}

impl Kind {
    // Word 2 of a record of this kind.
    pub fn word(self) -> u16
        ensures { result ≡ kind_word self }
    {
        match self {
            Kind::Catalogue => 2001,
            Kind::Header => 3002,
            Kind::Data => 1002,
        }
    }

    // The kind that word 2 of a record says.
    // Kept: a match, here and in `of_shown`: `find` over the three kinds by `word` was tried; it proves, but judging 499 records took 59,463 instructions for 32,512.
    pub fn of_word(word: u16) -> Option<Kind>
        ensures { SaysKind kind_word word result }
    {
        match word {
            2001 => Some(Kind::Catalogue),
            3002 => Some(Kind::Header),
            1002 => Some(Kind::Data),
            _ => None,
        }
    }

    // The number that the lines of a record of this kind show.
    pub fn shown(self) -> u16
        ensures { result ≡ kind_number self }
    {
        match self {
            Kind::Catalogue => 2101,
            Kind::Header => 3101,
            Kind::Data => 1101,
        }
    }

    // The kind that the number in a record's lines shows.
    pub fn of_shown(number: u16) -> Option<Kind>
        ensures { SaysKind kind_number number result }
    {
        match number {
            2101 => Some(Kind::Catalogue),
            3101 => Some(Kind::Header),
            1101 => Some(Kind::Data),
            _ => None,
        }
    }
}
