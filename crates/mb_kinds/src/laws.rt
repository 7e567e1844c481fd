//! The laws of record texts, each the contract of a function that does nothing.

ghost use Rattle.mb_kinds.specs.Laws.{ReadRecordIsWritten, WrittenRecordIsRead};

/// Law: what is written of a record is read as the record.
pub fn written_record_is_read()
    ensures { WrittenRecordIsRead }
{}

/// Law: a text that is read as a record is what is written of it, and the record is sound.
pub fn read_record_is_written()
    ensures { ReadRecordIsWritten }
{}
