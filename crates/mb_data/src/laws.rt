//! The law of written datasets, the contract of a function that does nothing.

ghost use Rattle.mb_data.specs.Laws.{WrittenIsRead};

/// Law: what is written is read back as the same dataset.
pub fn written_is_read()
    ensures { WrittenIsRead }
{}
