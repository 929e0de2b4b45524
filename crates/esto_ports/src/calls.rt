//! Calls that are listed by number.
ghost use Rattle.std.specs.Prelude.{◌≡◌, ◌==◌};
ghost use Rattle.std.specs.List.{list_any};

/// Whether the call is one of the listed ones.
pub(crate) fn is_listed(calls: &[u64], call: u64) -> bool
    ensures { result ≡ list_any (λ c. c == call) calls.now }
{
    calls.iter().any(|c| *c == call)
}
