// Lines and journals read back.
ghost use Rattle.std.specs.Prelude.{ℕ, ◌≡◌, ◌⊎◌, ◌+◌, ◌<◌, ◌^◌, [], ◌∷◌, ◌++◌, List, All, length, IsTrue, IfOk, IfErr, MatchResult, ◌↔◌, codes};
ghost use Rattle.journal_lines.specs.Lines.{entry_line};
ghost use Rattle.journal_lines.specs.Ranges.{EntryFits};
ghost use Rattle.journal_lines.specs.Writable.{IsWritable};
ghost use Rattle.journal_text.specs.Journals.{IsLineOf, IsLineOfNone, IsJournal, RefusesJournal};
ghost use Rattle.journal_text.specs.Lines as lines;

use crate::faults::JournalFault;
use crate::journal::end_line;
use crate::writable::is_writable;
use journal_lines::{read_words, write_entry};
use journal_words::WordFault;
use model_values::{Entry, History};
use net_base::{NoMem, Octets, PlainValue};
use plain_values::first_line;
use std::alloc::Global;

/// Whether the line, which stands here without its LF, is this text.
fn is_whole(alloc: Global, line: &[u8], text: &Octets) -> Result<bool, NoMem>
    ensures { IfOk result (λ is. IsTrue is ↔ (line.now ++ 10 ∷ [] ≡ text.now)) }
{
    let mut whole = Octets::build(alloc, line)?;
    whole.push(alloc, b'\n')?;
    Ok(whole.same(text))
}

/// Whether the line is that of this entry.
fn is_line_of(alloc: Global, line: &[u8], e: &Entry) -> Result<bool, NoMem>
    ensures { IfOk result (λ is. IsTrue is ↔ (line.now ++ 10 ∷ [] ≡ entry_line e.now)) }
{
    let written = write_entry(alloc, e)?;
    is_whole(alloc, line, &written)
}

/// Whether the line is the `end` line of so many entries.
fn is_end(alloc: Global, line: &[u8], n: usize) -> Result<bool, NoMem>
    ensures { IfOk result (λ is. IsTrue is ↔ (line.now ++ 10 ∷ [] ≡ lines.end_line n)) }
{
    let end = end_line(alloc, n as u64)?;
    is_whole(alloc, line, &end)
}

/// Whether the line is that of this entry, which can be read back.
fn is_of(alloc: Global, line: &[u8], e: &Entry) -> Result<bool, NoMem>
    ensures { IfOk result (λ is. IsTrue is ↔ IsLineOf line.now e.now) }
{
    if !is_writable(alloc, e)? {
        return Ok(false);
    }
    is_line_of(alloc, line, e)
}

/// The entry, where the line is its.
fn if_of(alloc: Global, line: &[u8], e: Entry) -> Result<Entry, WordFault>
    ensures ok { IfOk result (λ r. (r ≡ e) × IsLineOf line.now e) }
    ensures refused { IfErr result (λ f. (f ≡ WordFault.NoMem) ⊎ ¬ (IsLineOf line.now e)) }
{
    let is = is_of(alloc, line, &e)?;
    if is {
        Ok(e)
    } else {
        Err(WordFault::Unreadable)
    }
}

/// Reads a line, which stands here without its LF: the entry whose line it is, or `Unreadable` where it is that of no
/// entry.
fn read_line(alloc: Global, line: &[u8]) -> Result<Entry, WordFault>
    ensures ok { IfOk result (IsLineOf line.now) }
    ensures fits { IfOk result EntryFits }
    ensures back { (e : Entry) → EntryFits e → IsLineOf line.now e → MatchResult result (λ r. r ≡ e) (λ f. f ≡ WordFault.NoMem) }
{
    match read_words(alloc, line) {
        Ok(e) => if_of(alloc, line, e),
        Err(fault) => Err(fault),
    }
}

/// The entry whose line it is, which stands behind so many others.
fn entry_behind(alloc: Global, line: &[u8], n: usize) -> Result<Entry, JournalFault>
    requires { n + 2 < 2 ^ 64 }
    ensures ok { IfOk result (IsLineOf line.now) }
    ensures fits { IfOk result EntryFits }
    ensures refused { IfErr result (λ f. (f ≡ JournalFault.NoMem) ⊎ ((f ≡ JournalFault.BadLine (n + 2)) × IsLineOfNone line.now)) }
    ensures back { (e : Entry) → EntryFits e → IsLineOf line.now e → MatchResult result (λ r. r ≡ e) (λ f. f ≡ JournalFault.NoMem) }
{
    match read_line(alloc, line) {
        Ok(e) => Ok(e),
        Err(WordFault::NoMem) => Err(JournalFault::NoMem),
        Err(WordFault::Unreadable) => Err(JournalFault::BadLine(n as u64 + 2)),
    }
}

/// Whether the line is that of the format.
fn is_format(line: &[u8]) -> bool
    ensures { IsTrue result ↔ (line.now ≡ codes "poolrun 1") }
{
    line == b"poolrun 1".as_slice()
}

/// Reads a journal, format 1, up to its `end` line: the entries that are written in it, whether or not they are a history
/// of a pool.
///
/// `BadLine` at the first line that is none of a journal, `Truncated` where every line is good and there is no `end` line.
pub fn read_journal(alloc: Global, bytes: &[u8]) -> Result<History, JournalFault>
    ensures ok { IfOk result (IsJournal bytes.now) }
    ensures refused { IfErr result (RefusesJournal bytes.now) }

    // Each list of entries that can be written so is read from its journal, whatever stands behind it.
    ensures back { (h : List Entry) (rest : List ℕ) → All IsWritable h → All EntryFits h → bytes.now ≡ lines.journal_text h ++ rest → MatchResult result (λ g. g ≡ h) (λ e. e ≡ JournalFault.NoMem) }
{
    let Some(format) = first_line(bytes) else {
        return Err(JournalFault::Truncated);
    };
    if !is_format(format.line) {
        return Err(JournalFault::BadLine(1));
    }
    read_entries(alloc, format.behind)
}

/// The entries whose lines stand behind that of the format.
fn read_entries(alloc: Global, text: &[u8]) -> Result<History, JournalFault>
    requires { length text.now + 10 < 2 ^ 64 }
    ensures ok { IfOk result (IsJournal (lines.first_line ++ text.now)) }
    ensures refused { IfErr result (RefusesJournal (lines.first_line ++ text.now)) }
    ensures back { (h : List Entry) (rest : List ℕ) → All IsWritable h → All EntryFits h → lines.first_line ++ text.now ≡ lines.journal_text h ++ rest → MatchResult result (λ g. g ≡ h) (λ e. e ≡ JournalFault.NoMem) }
{
    let mut all = History::new();
    let mut rest = text;
    while let Some(cut) = first_line(rest) {
        if is_end(alloc, cut.line, all.len())? {
            return Ok(all);
        }
        match entry_behind(alloc, cut.line, all.len()) {
            Ok(e) => all.push(alloc, e)?,
            Err(fault) => return Err(fault),
        }
        rest = cut.behind;
    }
    Err(JournalFault::Truncated)
}
