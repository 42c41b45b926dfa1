ghost use Rattle.std.specs.Prelude.{◌≡◌, ◌<◌};
ghost use Rattle.ruleformat.specs.declared.format.Kind.{Kind as TableKind};
ghost use Rattle.ruleformat.specs.Tables.{transitions_of};
ghost use Rattle.rulefile.specs.declared.good_file.GoodFile.{GoodFile as Good};

use crate::good_file::GoodFile;
use ruleformat::format::Kind;

/// The transitions of a good file, of one of the two kinds.
pub(crate) trait Transitions<'a>: Drop {
    /// The kind.
    ghost kind: { TableKind };

    /// The file whose transitions they are.
    ghost file_of: { Self → Good };

    fn kind() -> Kind
        ensures { result ≡ kind };

    /// The transitions of a good file of the kind.
    fn of(good: GoodFile<'a>) -> Self
        requires { good.header.kind ≡ kind }
        ensures { file_of result ≡ good.entry };

    /// The file.
    fn good(&self) -> GoodFile<'a>
        ensures { result ≡ file_of self.now };

    /// The next state of a state of the file by a letter of the file.
    fn next(&self, state: usize, letter: usize) -> usize
        requires state { state < (file_of self.now).header.states }
        requires letter { letter < (file_of self.now).header.letters }
        ensures { result ≡ transitions_of (file_of self.now).header.kind (file_of self.now).file.now (file_of self.now).header state letter };
}
