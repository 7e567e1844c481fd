//! The laws of certificates, each the contract of a function that does nothing.

ghost use Rattle.mb_certificate.specs.Laws.{NoFault, ReadIsWritten, WrittenIsRead};

/// Law: what is written of a certificate is read as it.
pub fn written_is_read()
    ensures { WrittenIsRead }
{}

/// Law: a text that is read as a certificate is what is written of it.
pub fn read_is_written()
    ensures { ReadIsWritten }
{}

/// Law: a certificate has no wrong line exactly where it is valid.
pub fn no_fault()
    ensures { NoFault }
{}
