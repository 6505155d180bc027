// The journal of a list of entries, written.
ghost use Rattle.std.specs.Prelude.{◌≡◌, ◌++◌, IfOk, OnOk};
ghost use Rattle.std.specs.List.{flat_map};
ghost use Rattle.journal_lines.specs.Lines.{entry_line};
ghost use Rattle.journal_text.specs.Lines as spec;

use journal_lines::write_entry;
use journal_words::number_text;
use model_values::{Entry, History};
use net_base::{NoMem, Octets};
use std::alloc::Global;

/// Writes the journal of a list of entries: the line of the format, a line for each entry, and `end` with their number.
pub fn write_journal(alloc: Global, h: &History) -> Result<Octets, NoMem>
    ensures { IfOk result (λ text. text ≡ spec.journal_text h.now) }
{
    let mut text = Octets::build(alloc, b"poolrun 1\n")?;
    put_entries(alloc, &mut text, h.as_slice())?;
    let end = end_line(alloc, h.len() as u64)?;
    text.extend(alloc, end.as_slice())?;
    Ok(text)
}

fn put_entries(alloc: Global, text: &mut Octets, entries: &[Entry]) -> Result<(), NoMem>
    ensures { OnOk result (text.new ≡ text.old ++ flat_map entry_line entries.now) }
{
    for e in entries {
        let line = write_entry(alloc, e)?;
        text.extend(alloc, line.as_slice())?;
    }
    Ok(())
}

/// `end` and the number of entries.
pub(crate) fn end_line(alloc: Global, n: u64) -> Result<Octets, NoMem>
    ensures { IfOk result (λ text. text ≡ spec.end_line n) }
{
    let mut text = Octets::build(alloc, b"end ")?;
    let digits = number_text(alloc, n)?;
    text.extend(alloc, digits.as_slice())?;
    text.push(alloc, b'\n')?;
    Ok(text)
}
