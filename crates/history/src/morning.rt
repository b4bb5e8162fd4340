//! Worked mornings.
ghost use Rattle.history.specs.Mornings.{WorkedMornings};

/// The figures of ten worked mornings, as the definitions give them.
pub fn worked_mornings()
    ensures { WorkedMornings }
{}
