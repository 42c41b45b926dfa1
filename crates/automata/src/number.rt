ghost use Rattle.std.specs.Prelude.{◌++◌, Some, codes, decimal};

use std::error::Error;
use std::fmt;

/// A number that stands for none of a type's values.
#[derive(Clone, Copy, PartialEq, Eq, Debug)]
pub struct UnknownNumber(pub u8);

impl fmt::Display for UnknownNumber {
    ghost output = { λ e. Some (codes "no value has number " ++ decimal e.0) };

    fn fmt<W: fmt::Write>(&self, f: &mut fmt::Formatter<W>) -> fmt::Result {
        write!(f, "no value has number {}", self.0)
    }
}

impl Error for UnknownNumber {}
