// What the programs print, but for the listing: the lines of a block, the size of a text's block or the block itself, blocks packed again; or the line of a refusal.
#![tactic(auto)]

ghost use Rattle.std.specs.Prelude.{[], ◌∷◌, ◌≤◌, length};
ghost use Rattle.units.specs.Answers.{fitted, written_of};
ghost use Rattle.words.specs.Writing.{Room, Put};
ghost use Rattle.report.specs.Text.{line_of};
ghost use Rattle.report.specs.Decimal.{decimal_of};
ghost use Rattle.report.specs.Refusal.{longest_refusal};
ghost use Rattle.printed.specs.Printed.{EndOrRefusal};
ghost use Rattle.printed.specs.Promises.{PrintsLines, PrintsSize, PrintsBlock, PrintsBlocks};

use units::{Bytes, Numbered, Unwritten};

// Bytes that suffice for the lines of any block.
pub const TEXT_BYTES: usize = 55971;

// For the size of any text's block, or the line of any refusal.
pub const SIZE_BYTES: usize = 52;

// For any block.
pub const BLOCK_BYTES: usize = 16000;

// For the blocks of any slice, packed again: they are never longer than it.
pub const SLICE_BYTES: usize = 64000;

// Puts a number as a line.
fn write_line(n: u32, out: &mut [u8]) -> Bytes
    requires { Room out.old 0 (line_of (decimal_of n ∷ [])) }
    ensures { Put out.old 0 (line_of (decimal_of n ∷ [])) out.new result.0 }
{
    let to = report::write_number(n, out, Bytes(0));
    words::write_bytes(b"\n", out, to)
}

// Puts the size of a text's block, or the line of the text's refusal.
// Kept: a match of its own, as `listed::print_listing` has: a function for both would take a closure over the lent output for the one arm that differs, and is no plainer.
pub fn print_size(text: &[u8], out: &mut [u8; SIZE_BYTES]) -> Bytes
    ensures { PrintsSize text.now out.old result.0 out.new }
{
    match read_text::judge_lines(text) {
        Ok(size) => write_line(size.0 as u32, out),
        Err(flaw) => report::write_refusal(flaw.numbers(), out, Bytes(0)),
    }
}

// Gives the end of what a conversion has written; where it has written nothing, puts the line that says why, and gives the end of that.
// Kept: `short` is a number, 29 or 50: the call has it and not the refusal's type, and `lined_of`, `built_of`, `repacked_of` have it so by `written_of`.
fn end_or_refusal<R: Numbered>(
    found: Result<Bytes, Unwritten<R>>,
    short: u8,
    out: &mut [u8],
) -> Bytes
    requires { longest_refusal ≤ length out.old }
    ensures { EndOrRefusal (fitted (written_of short R.numbers_of found)) found out.old out.new result.0 }
{
    match found {
        Ok(end) => end,
        Err(why) => report::write_refusal(units::written(short, Err(why)), out, Bytes(0)),
    }
}

// Writes the lines of a block, or the line of its refusal.
pub fn print_lines(block: &[u8], out: &mut [u8; TEXT_BYTES]) -> Bytes
    ensures { PrintsLines block.now out.old result.0 out.new }
{
    let found = write_lines::to_lines(block, out);
    end_or_refusal(found, 29, out)
}

// Writes the block of a text, or the line of its refusal.
pub fn print_block(text: &[u8], out: &mut [u8; BLOCK_BYTES]) -> Bytes
    ensures { PrintsBlock text.now out.old result.0 out.new }
{
    let found = read_text::write_block(text, out);
    end_or_refusal(found, 29, out)
}

// Writes the blocks of a slice packed again, or the line of its refusal.
pub fn print_blocks(slice: &[u8], out: &mut [u8; SLICE_BYTES]) -> Bytes
    ensures { PrintsBlocks slice.now out.old result.0 out.new }
{
    let found = repacking::repack(slice, out);
    end_or_refusal(found, 50, out)
}
