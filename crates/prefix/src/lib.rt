// Table 3 of the format: the three letters of an instrument's code, found by a binary search.
#![tactic(auto)]

ghost use Rattle.std.specs.Prelude.{◌≡◌, true, ◌<◌};
ghost use Rattle.std.proofs.Common.{arith};
ghost use Rattle.prefix.specs.Rising.{rises};
ghost use Rattle.prefix.specs.LookUp.{codes_of, row_of};
ghost use Rattle.prefix.specs.Table.{answer_of};
ghost use Rattle.prefix.specs.Promises.{FindsPrefix};

use units::{Answer, Numbered};

// The byte values of the three letters.
#[derive(Clone, Copy)]
pub struct Letters(pub u8, pub u8, pub u8);

impl Numbered for Letters {
    ghost numbers_of = { answer_of };

    ghost room = { 256 };

    ghost packs = { Prim.omega arith };

    fn numbers(self) -> Answer {
        Answer {
            n: 0,
            a: u32::from(self.0),
            b: u16::from(self.1),
            c: u16::from(self.2),
        }
    }
}

// Table 3's first listing: each code and its letters, codes rising.
static TABLE: [(u16, [u8; 3]); 63] = [
    (10, *b"JRO"),
    (20, *b"ARO"),
    (25, *b"MUI"),
    (30, *b"MLH"),
    (31, *b"MLH"),
    (32, *b"MLH"),
    (33, *b"MLH"),
    (40, *b"STS"),
    (41, *b"STS"),
    (42, *b"STS"),
    (43, *b"STS"),
    (50, *b"CHT"),
    (70, *b"EIS"),
    (71, *b"EIS"),
    (72, *b"EIS"),
    (73, *b"EIS"),
    (74, *b"EIS"),
    (80, *b"SON"),
    (120, *b"IMF"),
    (175, *b"EHP"),
    (180, *b"EQB"),
    (210, *b"GPI"),
    (211, *b"AEI"),
    (212, *b"DST"),
    (310, *b"GCM"),
    (311, *b"ARE"),
    (320, *b"SDT"),
    (321, *b"SDL"),
    (322, *b"GSW"),
    (820, *b"HHF"),
    (830, *b"SYF"),
    (845, *b"KHF"),
    (861, *b"SHF"),
    (870, *b"GBF"),
    (900, *b"FHF"),
    (910, *b"WHF"),
    (911, *b"EHF"),
    (1040, *b"ARM"),
    (1140, *b"PKR"),
    (1210, *b"SBF"),
    (1220, *b"MAF"),
    (1230, *b"CCF"),
    (1240, *b"ADF"),
    (1320, *b"COF"),
    (1340, *b"SAF"),
    (1390, *b"TRF"),
    (1560, *b"ATM"),
    (1620, *b"DUM"),
    (2090, *b"CIA"),
    (2200, *b"PLA"),
    (2930, *b"QAD"),
    (5020, *b"HFP"),
    (5140, *b"AQF"),
    (5160, *b"AFP"),
    (5300, *b"PFP"),
    (5340, *b"MFP"),
    (5430, *b"WFP"),
    (5460, *b"CFP"),
    (5480, *b"SFP"),
    (5540, *b"TFP"),
    (5860, *b"STM"),
    (6300, *b"UIL"),
    (6320, *b"CSL"),
];

// The row of a code in any table whose codes rise.
fn row_of(table: &[(u16, [u8; 3])], code: u16) -> Option<usize>
    requires { rises (codes_of table.now) ≡ true }
    ensures { result ≡ row_of (codes_of table.now) code }
{
    table.binary_search_by_key(&code, |row| row.0).ok()
}

// The letters of an instrument's code, "---" where it is not listed.
pub fn prefix_of(instrument: u16) -> Letters
    ensures { FindsPrefix instrument result }
{
    match row_of(&TABLE, instrument) {
        Some(row) => {
            let [first, second, third] = TABLE[row].1;
            Letters(first, second, third)
        }
        None => Letters(b'-', b'-', b'-'),
    }
}
