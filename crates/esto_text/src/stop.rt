//! Why a part of a text is not read.
ghost use Rattle.std.specs.Prelude.{◌≡◌};
ghost use Rattle.esto_text.specs.declared.stop.Stop.TheVariants.{OutOfMemory};

/// Why a part of a text is not read.
#[derive(Clone, Copy)]
pub enum Stop {
    /// How many tokens are left at the first that does not fit.
    Syntax(usize),
    OutOfMemory,
}

impl From<esto_term::OutOfMemory> for Stop {
    ghost from_gives = { λ _ e. e ≡ OutOfMemory };

    fn from(_: esto_term::OutOfMemory) -> Stop {
        Stop::OutOfMemory
    }
}
