// The calls for C as functions, and nothing else: each returns its answer's four numbers as one. `cedar_c` exports them.
// Kept: `cedar_c` has each signature and promise a second time: a crate is built as a library or as a static library, and the exports are C's interface.
#![tactic(auto)]

ghost use Rattle.std.specs.Prelude.{[], ◌∷◌};
ghost use Rattle.cedar.specs.Promises.{CedarJudges, CedarFindsPrefix, CedarWritesLines, CedarJudgesLines, CedarWritesBlock, CedarStartsSheet, CedarAmends, CedarUndoes, CedarRepacks};

use sheet::Amendment;
use units::Numbered;

// Judges a block.
pub fn cedar_judge(block: &[u8]) -> u64
    ensures { CedarJudges block.now result }
{
    let judged = block::judge(block);
    units::pack(judged.numbers())
}

// Finds an instrument's prefix.
pub fn cedar_prefix(instrument: u16) -> u64
    ensures { CedarFindsPrefix instrument result }
{
    let letters = prefix::prefix_of(instrument);
    units::pack(letters.numbers())
}

// Writes the lines of a block.
pub fn cedar_to_lines(block: &[u8], text: &mut [u8]) -> u64
    ensures { CedarWritesLines block.now text.old result text.new }
{
    let lined = write_lines::to_lines(block, text);
    units::pack(write_lines::numbers(lined))
}

// Judges lines, and writes nothing.
pub fn cedar_judge_lines(text: &[u8]) -> u64
    ensures { CedarJudgesLines text.now result }
{
    let judged = read_text::judge_lines(text);
    units::pack(read_text::judged_numbers(judged))
}

// Writes the block of lines.
pub fn cedar_write_block(text: &[u8], block: &mut [u8]) -> u64
    ensures { CedarWritesBlock text.now block.old result block.new }
{
    let built = read_text::write_block(text, block);
    units::pack(read_text::built_numbers(built))
}

// Starts an empty sheet.
pub fn cedar_sheet_start(sheet: &mut [u8]) -> u64
    ensures { CedarStartsSheet sheet.old result sheet.new }
{
    let opened = sheet::start(sheet);
    units::pack(opened.numbers())
}

// Amends a value of a block.
pub fn cedar_amend(
    block: &mut [u8],
    sheet: &mut [u8],
    number: u16,
    word: u16,
    old: u16,
    new: u16,
) -> u64
    ensures { CedarAmends (number ∷ word ∷ old ∷ new ∷ []) block.old sheet.old result block.new sheet.new }
{
    let e = Amendment {
        number,
        word,
        old,
        new,
    };
    let amended = amending::amend(block, sheet, e);
    units::pack(amended.numbers())
}

// Undoes the last amendment that stands.
pub fn cedar_undo(block: &mut [u8], sheet: &mut [u8]) -> u64
    ensures { CedarUndoes block.old sheet.old result block.new sheet.new }
{
    let amended = amending::undo(block, sheet);
    units::pack(amended.numbers())
}

// Packs blocks again.
pub fn cedar_repack(blocks: &[u8], out: &mut [u8]) -> u64
    ensures { CedarRepacks blocks.now out.old result out.new }
{
    let repacked = repacking::repack(blocks, out);
    units::pack(repacking::numbers(repacked))
}
