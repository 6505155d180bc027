// The line of an entry.
ghost use Rattle.std.specs.Prelude.{◌≡◌, IfOk};
ghost use Rattle.journal_lines.specs.Lines as spec;

use crate::acts::put_act;
use journal_words::{number_text, put_number};
use model_values::Entry;
use net_base::{NoMem, Octets};
use std::alloc::Global;

/// Writes an entry as one line, with its LF: the moment in milliseconds, the caller, and the act with its reply.
pub fn write_entry(alloc: Global, e: &Entry) -> Result<Octets, NoMem>
    ensures { IfOk result (λ text. text ≡ spec.entry_line e.now) }
{
    let mut line = number_text(alloc, e.moment.0)?;
    put_number(alloc, &mut line, u64::from(e.who.0))?;
    put_act(alloc, &mut line, &e.act)?;
    line.push(alloc, b'\n')?;
    Ok(line)
}
