//! What an analysis says of its facts.

ghost use Rattle.std.specs.Prelude.{◌≡◌};
ghost use Rattle.fixpoint.specs.Rules as spec;

/// The rules of an analysis: who owns which fact, who reads which, and which follow from which.
pub trait Rules {
    /// What may come to hold.
    type Fact: Copy;
    /// What owners tell each other: a fact that came to hold, at a rank. `Growth` serves where
    /// nothing else is wanted.
    type Growth: Copy;

    /// What the analysis says.
    ghost rules: { spec.Rules Self Self.Fact Self.Growth };

    /// How many owners there are.
    fn parts(&self) -> u16
        ensures count { result ≡ rules.parts self.now }
        ensures valid { rules.valid self.now };

    /// The rules are lawful.
    ghost lawful: { spec.AreLawful rules };
}
