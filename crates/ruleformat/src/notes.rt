ghost use Rattle.ruleformat.specs.Makes.{NotesUnread};

use automata::verdict::Verdict;

/// The bytes in front of a file's transitions are notes, and are not read: whatever is put in
/// front of a good file, it stays good and means the same automaton.
pub fn notes_are_not_read<V: Verdict>()
    ensures { NotesUnread V.Verdict.reads V.Verdict.closing }
{}
