//! What a command promises.
ghost use Rattle.std.specs.Prelude.{◌≡◌};
ghost use Rattle.drt_command.specs.Rules.{AreLawful, Rules};

use crate::input::Input;

/// A command, with the words that it was given.
pub trait Promised {
    /// What is promised of it.
    ghost rules: { Self → Rules };

    /// The promises agree with one another. It does nothing.
    fn laws(&self)
        ensures { AreLawful (rules self.now) };

    /// What it reads.
    fn input(&self) -> Input
        ensures { result ≡ (rules self.now).input };
}
