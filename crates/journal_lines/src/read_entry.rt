// Lines read back.
ghost use Rattle.std.specs.Prelude.{◌≡◌, [], ◌∷◌, ◌++◌, map, IfOk, MatchResult};
ghost use Rattle.journal_words.specs.Readers.{Gives};
ghost use Rattle.journal_lines.specs.LineReaders as spec;
ghost use Rattle.journal_lines.specs.Lines.{entry_line};
ghost use Rattle.journal_lines.specs.Ranges.{EntryFits};
ghost use Rattle.journal_lines.specs.Writable.{IsWritable};

use crate::read_calls::{
    read_cancel, read_preconnect, read_reprioritise, read_resolved, read_shutdown, read_submit,
};
use crate::read_works::{
    read_assign, read_closed, read_dial, read_evict, read_expire, read_lapse, read_orders,
    read_reported, read_want,
};
use journal_words::{WordFault, parts, read_moment, read_u32};
use model_values::{Act, Entry};
use net_base::CallerNo;
use std::alloc::Global;

/// Reads the words of a line, which stands here without its LF. More lines than those that are written are read, so
/// whoever wants no other writes the entry again and compares.
pub fn read_words(alloc: Global, line: &[u8]) -> Result<Entry, WordFault>
    ensures gives { Gives result (spec.entry line.now) }
    ensures fits { IfOk result EntryFits }

    // The line of an entry that can be written is read as it.
    ensures back { (e : Entry) → EntryFits e → IsWritable e → line.now ++ 10 ∷ [] ≡ entry_line e → MatchResult result (λ r. r ≡ e) (λ f. f ≡ WordFault.NoMem) }
{
    read_parts(alloc, line)
}

/// MOMENT WHO and the act, parted by one space.
fn read_parts(alloc: Global, line: &[u8]) -> Result<Entry, WordFault>
    ensures { Gives result (spec.entry line.now) }
{
    let words = parts(alloc, line, b' ')?;
    let [moment, who, name, others @ ..] = words.as_slice() else {
        return Err(WordFault::Unreadable);
    };
    Ok(Entry {
        moment: read_moment(alloc, moment)?,
        who: CallerNo(read_u32(alloc, who)?),
        act: read_call(alloc, name, others)?,
    })
}

/// A call of a channel, or another act.
fn read_call(alloc: Global, name: &[u8], words: &[&[u8]]) -> Result<Act, WordFault>
    ensures { Gives result (spec.call name.now (map (λ w. w.now) words.now)) }
{
    if name == b"submit".as_slice() {
        read_submit(alloc, words)
    } else if name == b"cancel".as_slice() {
        read_cancel(alloc, words)
    } else if name == b"reprioritise".as_slice() {
        read_reprioritise(alloc, words)
    } else if name == b"preconnect".as_slice() {
        read_preconnect(alloc, words)
    } else if name == b"resolved".as_slice() {
        read_resolved(alloc, words)
    } else if name == b"network".as_slice() {
        Ok(Act::Network)
    } else if name == b"tick".as_slice() {
        Ok(Act::Tick)
    } else if name == b"shutdown".as_slice() {
        read_shutdown(alloc, words)
    } else {
        read_work(alloc, name, words)
    }
}

/// A call of a worker, or another act.
fn read_work(alloc: Global, name: &[u8], words: &[&[u8]]) -> Result<Act, WordFault>
    ensures { Gives result (spec.work name.now (map (λ w. w.now) words.now)) }
{
    if name == b"seek".as_slice() {
        read_dial(alloc, words)
    } else if name == b"orders".as_slice() {
        read_orders(alloc, words)
    } else if name == b"closed".as_slice() {
        read_closed(alloc, words)
    } else {
        read_settling(alloc, name, words)
    }
}

/// An entry of the pool itself, or a report.
fn read_settling(alloc: Global, name: &[u8], words: &[&[u8]]) -> Result<Act, WordFault>
    ensures { Gives result (spec.settling name.now (map (λ w. w.now) words.now)) }
{
    if name == b"expire".as_slice() {
        read_expire(alloc, words)
    } else if name == b"lapse".as_slice() {
        read_lapse(alloc, words)
    } else if name == b"assign".as_slice() {
        read_assign(alloc, words)
    } else if name == b"want".as_slice() {
        read_want(alloc, words)
    } else if name == b"evict".as_slice() {
        read_evict(alloc, words)
    } else {
        read_reported(alloc, name, words)
    }
}
