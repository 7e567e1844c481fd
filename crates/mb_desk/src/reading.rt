//! Reading a named file.
ghost use Rattle.std.specs.FinMap.{get};
ghost use Rattle.mb_desk.specs.Decision.{DoesFiles};
ghost use Rattle.mb_desk.specs.Inputs.{body_of};

use crate::plans::Stop;
use crate::refusals::Refusal;
use crate::texts::Word;
use mb_outside::{FileFault, Files};
use mb_registry::Body;
use std::alloc::Global;

/// The body of the file that a word names, which is the command's file word of this number, from 1.
///
/// Refused are a file that isn't there and one of more than 67,108,864 bytes.
pub fn read_file<F: Files>(
    alloc: Global,
    files: &mut F,
    name: &Word<'_>,
    file: u32,
) -> Result<Body, Stop>
    ensures does { DoesFiles (F.held files.old) (F.held files.new)
        (F.faults files.old) (F.faults files.new)
        result (λ held. body_of file (get held name.now)) }
{
    match files.read(alloc, name.as_str()) {
        Ok(Some(body)) => Ok(Body::of(body)),
        Ok(None) => Err(Stop::Refused(Refusal::NoFile { file })),
        Err(FileFault::TooLong) => Err(Stop::Refused(Refusal::TooLong { file })),
        Err(FileFault::Failed) => Err(Stop::Outside),
        Err(FileFault::OutOfMemory) => Err(Stop::Memory),
    }
}
