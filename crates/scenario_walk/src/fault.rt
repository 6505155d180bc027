// Why octets give no scenario.

use net_base::Octets;

/// Why octets give no scenario. Paths are JSON pointers (RFC 6901), but that of the whole value is `/`.
#[derive(Debug, Drop)]
pub enum ScenarioFault {
    /// There was no memory.
    NoMem,
    /// The octets are no JSON.
    NotJson,
    /// A member that scenarios don't have.
    Unsupported(Octets),
    /// A value of another type or outside its range, or a member that is missing.
    BadValue(Octets),
    /// A list with so many items, or a sum that is so large, and more than is allowed.
    TooMany(Octets, u64),
}

impl From<net_base::NoMem> for ScenarioFault {
    ghost use Rattle.std.specs.Prelude.{◌≡◌};
    ghost use Rattle.scenario_walk.specs.declared.fault.ScenarioFault.TheVariants as fault;

    ghost from_gives = { λ _ e. e ≡ fault.NoMem };

    fn from(_: net_base::NoMem) -> ScenarioFault {
        ScenarioFault::NoMem
    }
}
