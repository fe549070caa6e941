// The line on the half in use, and that on the position.
ghost use Rattle.std.specs.Prelude.{◌≡◌, ◌++◌, OnOk};
ghost use Rattle.store_commands.specs.Report.{half_line, letter_of, position_line};
ghost use Rattle.diagnostics.specs.StreamTexts.{WritesOut};

use arrayvec::ArrayString;
use diagnostics::{Unwritten, write_out};
use disk_trait::Half;
use std::fmt;
use std::fmt::Write as WriteText;
use std::io::Write;

/// Writes the line on a half, and flushes it: which it is, its generation, and how many records it holds. It takes no memory.
/// Where a write fails or takes nothing, a part of the line was written, from its front; and all of it where the flush failed.
pub fn write_half_line<W: Write>(
    output: &mut W,
    half: Half,
    generation: u64,
    records: u64,
) -> Result<(), Unwritten>
    ensures { WritesOut result (W.contents output.old) (W.contents output.new)
        (half_line half generation records) }
{
    let mut line = ArrayString::<112>::new();
    let Ok(()) = push_half(&mut line, half, generation, records) else {
        return Err(Unwritten);
    };
    write_out(output, line.as_bytes())
}

/// Writes the line on the half in use, and after it a line on the position, where there is one. It fails as the output
/// does.
pub(crate) fn write_half_and_position<W: Write>(
    output: &mut W,
    half: Half,
    generation: u64,
    records: u64,
    position: Option<u64>,
) -> Result<(), Unwritten>
    ensures { WritesOut result (W.contents output.old) (W.contents output.new)
        (half_line half generation records ++ position_line position) }
{
    let mut lines = ArrayString::<112>::new();
    let Ok(()) = push_half(&mut lines, half, generation, records) else {
        return Err(Unwritten);
    };
    let Ok(()) = push_position(&mut lines, position) else {
        return Err(Unwritten);
    };
    write_out(output, lines.as_bytes())
}

fn push_half(line: &mut ArrayString<112>, half: Half, generation: u64, records: u64) -> fmt::Result
    ensures { OnOk result (line.new.bytes ≡ line.old.bytes ++ half_line half generation records) }
{
    let letter = letter_of(half);
    let Ok(()) = writeln!(
        line,
        "half {letter} generation {generation} records {records}"
    ) else {
        return Err(fmt::Error);
    };
    Ok(())
}

fn push_position(line: &mut ArrayString<112>, position: Option<u64>) -> fmt::Result
    ensures { OnOk result (line.new.bytes ≡ line.old.bytes ++ position_line position) }
{
    let Some(number) = position else {
        return Ok(());
    };
    let Ok(()) = writeln!(line, "position {number}") else {
        return Err(fmt::Error);
    };
    Ok(())
}

// The letter of a half.
fn letter_of(half: Half) -> &'static str
    ensures { result.now ≡ letter_of half }
{
    match half {
        Half::A => "A",
        Half::B => "B",
    }
}
