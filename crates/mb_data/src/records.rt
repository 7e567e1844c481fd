//! The records of a CSV text, one after the other. Of this crate, only this file calls
//! `csv`.

ghost use Rattle.std.specs.Prelude.{◌≡◌, ◌∷◌, ◌+◌, ◌<◌, ◌^◌, [], IfOk, MatchOption, Some, length, slice_get};
ghost use Rattle.mb_data.specs.Records.{records_of};

use csv::{ByteRecord, Reader, ReaderBuilder};
use mb_tables::OutOfMemory;
use std::alloc::Global;
use std::marker::Model;

/// A text that is read record by record, seen as the fields of the record read last and the
/// records that are left.
#[derive(Drop)]
pub(crate) struct Records<'a> {
    // a reader has its buffer in itself, too large to be moved for each record
    reader: Box<Reader<&'a [u8]>>,
    row: ByteRecord,
}

impl<'a> Model for Records<'a> {
    ghost use Rattle.csv.specs.Records.{fields_of};
    ghost use Rattle.mb_data.specs.Records.{Reading, IsReader, left_in};

    ghost Value = { Reading };

    ghost view = { λ r. record { fields = fields_of r.row; left = left_in r.reader.value } };

    ghost invariant = { λ r. IsReader r.reader.value };
}

impl<'a> Records<'a> {
    /// The records of a text, of which none is read yet.
    pub(crate) fn of(alloc: Global, text: &'a [u8]) -> Result<Records<'a>, OutOfMemory>
        ensures records { IfOk result (λ r. r.left ≡ records_of text.now) }
        ensures few { IfOk result (λ r. length r.left + 1 < 2 ^ 64) }
    {
        let reader = ReaderBuilder::new()
            .has_headers(false)
            .flexible(true)
            .from_reader(alloc, text);
        Ok(Records {
            reader: Box::new(alloc, reader)?,
            row: ByteRecord::new(alloc),
        })
    }

    /// The text with the next record read, or None at the end. A reader over bytes in memory fails
    /// for want of memory alone, which no contract of `csv` says: its faults are answered so.
    pub(crate) fn next(self) -> Result<Option<Records<'a>>, OutOfMemory>
        ensures { IfOk result (λ next. MatchOption next (self.entry.left ≡ [])
            (λ r. self.entry.left ≡ r.fields ∷ r.left)) }
    {
        let Records {
            mut reader,
            mut row,
        } = self;
        match reader.read_byte_record(&mut row) {
            Ok(true) => Ok(Some(Records { reader, row })),
            Ok(false) => Ok(None),
            Err(_) => Err(OutOfMemory),
        }
    }

    /// How many fields the record read last has.
    pub(crate) fn len(&self) -> usize
        ensures { result ≡ length self.now.fields }
    {
        self.row.len()
    }

    /// How many bytes its fields have together.
    pub(crate) fn bytes(&self) -> usize {
        self.row.as_slice().len()
    }

    /// A field of the record read last. Fields count from 0.
    pub(crate) fn field(&self, place: usize) -> &[u8]
        requires { place < length self.now.fields }
        ensures { slice_get self.now.fields place ≡ Some result.now }
    {
        match self.row.get(place) {
            Some(field) => field,
            None => unreachable!(),
        }
    }
}
