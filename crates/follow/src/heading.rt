ghost use Rattle.std.specs.Prelude.{◌++◌, Some, codes, decimal};
ghost use Rattle.ruleformat.specs.Numbers.{kind_name};

use ruleformat::format::Header;
use std::fmt;

/// The first line that is printed: what the rule is.
#[derive(Clone, Copy)]
pub(crate) struct Heading(pub(crate) Header);

impl fmt::Display for Heading {
    ghost output = { λ h. Some (codes "rule: " ++ (kind_name h.0.kind ++ (codes ", " ++ (decimal h.0.states ++ (codes " states, " ++ (decimal h.0.letters ++ codes " letters")))))) };

    fn fmt<W: fmt::Write>(&self, f: &mut fmt::Formatter<W>) -> fmt::Result {
        write!(
            f,
            "rule: {}, {} states, {} letters",
            self.0.kind, self.0.states, self.0.letters
        )
    }
}
