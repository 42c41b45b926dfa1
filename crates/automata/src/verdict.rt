ghost use Rattle.std.specs.Prelude.{◌≡◌, ℕ, Bool, Option};
ghost use Rattle.automata.specs.Verdicts.{Laws};

/// What an automaton says of a history: a type whose values can be told apart, one of which is
/// the closing verdict, and which have a byte form. Whatever is built over automata serves every
/// type with these laws.
pub trait Verdict: Drop {
    /// Whether two verdicts are the same.
    ghost alike: { Self → Self → Bool };

    /// The verdict of a state that an automaton does not have.
    ghost closing: { Self };

    /// The byte of a verdict.
    ghost code: { Self → ℕ };

    /// The verdict of a byte, or none where the byte is no verdict.
    ghost reads: { ℕ → Option Self };

    /// Two verdicts are the same exactly if their bytes are equal.
    // Kept: what is the same is the type's own law, and need not be what a derived `==` says.
    #[tactic(auto, using(crate::proofs::Sameness::same_is))]
    fn same(&self, other: &Self) -> bool
        ensures { result ≡ alike self.now other.now }
    {
        self.byte() == other.byte()
    }

    fn closing() -> Self
        ensures { result ≡ closing };

    fn byte(&self) -> u8
        ensures { result ≡ code self.now };

    fn read(byte: u8) -> Option<Self>
        ensures value { result ≡ reads byte };

    ghost laws: { Laws alike code reads };
}
