// Amend and undo: a value of a block, and the last entry of its sheet.
#![tactic(auto)]

ghost use Rattle.std.specs.Prelude.{◌≡◌, IfOk};
ghost use Rattle.std.proofs.Common.{arith};
ghost use Rattle.units.specs.Answers.{onward};
ghost use Rattle.block.specs.Judging.{judged};
ghost use Rattle.sheet.specs.Sheets.{version1, opened};
ghost use Rattle.sheet.specs.Cases.{entry_of};
ghost use Rattle.amending.specs.declared.Objection.TheVariants.{Block, Broken, Value};
ghost use Rattle.amending.specs.Cases.{objection_of, amended_of};
ghost use Rattle.amending.specs.Between.{Ready};
ghost use Rattle.amending.specs.Promises.{Amends, Undoes};

use block_value::Obstacle;
use sheet::{Amendment, Broken};
use units::{Answer, Numbered};

// Why an amendment or its undoing is refused.
#[derive(Clone, Copy)]
pub enum Objection {
    Block(block::Refusal),
    Broken,
    Value(Obstacle),
    Full,
    Empty,
    NotStanding,
}

impl From<block::Refusal> for Objection {
    ghost from_gives = { λ r o. o ≡ Block r };

    fn from(why: block::Refusal) -> Self {
        Self::Block(why)
    }
}

impl From<Broken> for Objection {
    ghost from_gives = { λ _ o. o ≡ Broken };

    fn from(_: Broken) -> Self {
        Self::Broken
    }
}

impl From<Obstacle> for Objection {
    ghost from_gives = { λ v o. o ≡ Value v };

    fn from(why: Obstacle) -> Self {
        Self::Value(why)
    }
}

impl Numbered for Objection {
    ghost numbers_of = { objection_of };

    ghost room = { 65536 };

    ghost packs = { Prim.omega arith };

    fn numbers(self) -> Answer {
        match self {
            Objection::Block(why) => why.numbers(),
            Objection::Broken => Broken.numbers(),
            Objection::Value(why) => why.numbers(),
            Objection::Full => units::row(44, 0, 0, 0),
            Objection::Empty => units::row(45, 0, 0, 0),
            Objection::NotStanding => units::row(46, 0, 0, 0),
        }
    }
}

// Judges the block and the sheet: how many amendments stand.
// Kept: `block` and `sheet`, here and below, are two parameters: the calls for C take them so (`cedar_amend`, `cedar_undo` of include/cedar.h), and each is lent by itself.
fn look(block: &[u8], sheet: &[u8]) -> Result<u16, Objection>
    ensures told { amended_of result ≡ onward (judged block.now) (λ _. opened version1 sheet.now) }
    ensures ready { IfOk result (Ready version1 block.now sheet.now) }
{
    block::judge(block)?;
    Ok(sheet::open(sheet)?)
}

// Amends a value: puts it into the block and an entry into the sheet, or changes nothing. How many amendments stand then.
pub fn amend(block: &mut [u8], sheet: &mut [u8], e: Amendment) -> Result<u16, Objection>
    ensures { Amends (entry_of e) block.old sheet.old result block.new sheet.new }
{
    let count = look(block, sheet)?;
    if sheet::LIMIT <= count {
        return Err(Objection::Full);
    }
    block_value::exchange(block, e, e.old, e.new)?;
    sheet::add_entry(sheet, count, e);
    Ok(count + 1)
}

// Undoes the last amendment: puts its old value back and clears its entry, or changes nothing. How many amendments stand then.
pub fn undo(block: &mut [u8], sheet: &mut [u8]) -> Result<u16, Objection>
    ensures { Undoes block.old sheet.old result block.new sheet.new }
{
    let count = look(block, sheet)?;
    if count == 0 {
        return Err(Objection::Empty);
    }
    let left = count - 1;
    let e = sheet::entry_at(sheet, left);
    block_value::exchange(block, e, e.new, e.old).map_err(|_| Objection::NotStanding)?;
    sheet::clear_last(sheet, left);
    Ok(left)
}
