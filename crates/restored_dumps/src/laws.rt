//! What a dump is known for.

ghost use Rattle.restored_dumps.specs.Restoring.{DumpsRestore, TextsAreStatements, ValuesComeBack};

/// A value that is spelled is the value of its literal.
pub fn values_come_back()
    ensures { ValuesComeBack }
{}

/// The text of a store is that of its statements, with COMMITs between them.
pub fn texts_are_statements()
    ensures { TextsAreStatements }
{}

/// The statements of a store, asked one after another of a store without tables, are each done, and lead to the
/// store.
pub fn dumps_restore()
    ensures { DumpsRestore }
{}
