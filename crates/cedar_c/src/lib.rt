// What a C program links: each export is the call of `cedar` with its name, and promises the same. C's prototype stands above it.
// Kept: each signature and promise of `cedar` a second time: a crate is built as a library or as a static library, and the exports are C's interface.
#![tactic(auto)]

ghost use Rattle.std.specs.Prelude.{[], ◌∷◌};
ghost use Rattle.cedar.specs.Promises.{CedarJudges, CedarFindsPrefix, CedarWritesLines, CedarJudgesLines, CedarWritesBlock, CedarStartsSheet, CedarAmends, CedarUndoes, CedarRepacks};

// uint64_t cedar_judge(const uint8_t *block, size_t length);
#[unsafe(no_mangle)]
pub extern "C" fn cedar_judge(block: &[u8]) -> u64
    ensures { CedarJudges block.now result }
{
    cedar::cedar_judge(block)
}

// uint64_t cedar_prefix(uint16_t instrument);
#[unsafe(no_mangle)]
pub extern "C" fn cedar_prefix(instrument: u16) -> u64
    ensures { CedarFindsPrefix instrument result }
{
    cedar::cedar_prefix(instrument)
}

// uint64_t cedar_to_lines(const uint8_t *block, size_t block_length, uint8_t *text, size_t text_length);
#[unsafe(no_mangle)]
pub extern "C" fn cedar_to_lines(block: &[u8], text: &mut [u8]) -> u64
    ensures { CedarWritesLines block.now text.old result text.new }
{
    cedar::cedar_to_lines(block, text)
}

// uint64_t cedar_judge_lines(const uint8_t *text, size_t text_length);
#[unsafe(no_mangle)]
pub extern "C" fn cedar_judge_lines(text: &[u8]) -> u64
    ensures { CedarJudgesLines text.now result }
{
    cedar::cedar_judge_lines(text)
}

// uint64_t cedar_write_block(const uint8_t *text, size_t text_length, uint8_t *block, size_t block_length);
#[unsafe(no_mangle)]
pub extern "C" fn cedar_write_block(text: &[u8], block: &mut [u8]) -> u64
    ensures { CedarWritesBlock text.now block.old result block.new }
{
    cedar::cedar_write_block(text, block)
}

// uint64_t cedar_sheet_start(uint8_t *sheet, size_t length);
#[unsafe(no_mangle)]
pub extern "C" fn cedar_sheet_start(sheet: &mut [u8]) -> u64
    ensures { CedarStartsSheet sheet.old result sheet.new }
{
    cedar::cedar_sheet_start(sheet)
}

// uint64_t cedar_amend(uint8_t *block, size_t block_length, uint8_t *sheet, size_t sheet_length, uint16_t record, uint16_t word, uint16_t old_value, uint16_t new_value);
#[unsafe(no_mangle)]
pub extern "C" fn cedar_amend(
    block: &mut [u8],
    sheet: &mut [u8],
    number: u16,
    word: u16,
    old: u16,
    new: u16,
) -> u64
    ensures { CedarAmends (number ∷ word ∷ old ∷ new ∷ []) block.old sheet.old result block.new sheet.new }
{
    cedar::cedar_amend(block, sheet, number, word, old, new)
}

// uint64_t cedar_undo(uint8_t *block, size_t block_length, uint8_t *sheet, size_t sheet_length);
#[unsafe(no_mangle)]
pub extern "C" fn cedar_undo(block: &mut [u8], sheet: &mut [u8]) -> u64
    ensures { CedarUndoes block.old sheet.old result block.new sheet.new }
{
    cedar::cedar_undo(block, sheet)
}

// uint64_t cedar_repack(const uint8_t *blocks, size_t blocks_length, uint8_t *out, size_t out_length);
#[unsafe(no_mangle)]
pub extern "C" fn cedar_repack(blocks: &[u8], out: &mut [u8]) -> u64
    ensures { CedarRepacks blocks.now out.old result out.new }
{
    cedar::cedar_repack(blocks, out)
}
