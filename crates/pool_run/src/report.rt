// What a run says.
ghost use Rattle.std.specs.Prelude.{◌≡◌};
ghost use Rattle.pool_run.specs.Serial.{unbuilt_line, report_text};

use net_base::Octets;

/// Why the course of a run can't be told yet.
#[derive(Clone, Copy, Debug, PartialEq, Eq)]
pub enum Unbuilt {
    /// The dial failed.
    Dial,
    /// The peer speaks HTTP/2.
    Identity,
    /// A read or a write failed.
    Fault,
    /// The peer ended.
    End,
    /// Octets came that are no answer of the first form.
    Octets,
    /// Nothing moved for 10000 rounds.
    Quiet,
}

/// What a command says.
#[derive(Debug, Drop)]
pub enum Report {
    /// The journal and the summary of a run.
    Answered(Octets),
    /// How much the scenario has.
    Checked(Octets),
    /// That a journal is one of a history, and of how many entries.
    Judged(Octets),
    /// Which line keeps a journal from being one of a history.
    Illegal(Octets),
    /// Why the input is refused.
    Refused(Octets),
    /// Why there is no journal yet.
    Unbuilt(Unbuilt),
}

impl Report {
    /// The text that is written.
    pub(crate) fn text(&self) -> &[u8]
        ensures { result.now ≡ report_text self.now }
    {
        match self {
            Report::Answered(text) => text.as_slice(),
            Report::Checked(text) => text.as_slice(),
            Report::Judged(text) => text.as_slice(),
            Report::Illegal(text) => text.as_slice(),
            Report::Refused(text) => text.as_slice(),
            Report::Unbuilt(word) => word.line(),
        }
    }
}

impl Unbuilt {
    fn line(self) -> &'static [u8]
        ensures { result.now ≡ unbuilt_line self }
    {
        match self {
            Unbuilt::Dial => b"unbuilt dial\n",
            Unbuilt::Identity => b"unbuilt identity\n",
            Unbuilt::Fault => b"unbuilt fault\n",
            Unbuilt::End => b"unbuilt end\n",
            Unbuilt::Octets => b"unbuilt octets\n",
            Unbuilt::Quiet => b"unbuilt quiet\n",
        }
    }
}
