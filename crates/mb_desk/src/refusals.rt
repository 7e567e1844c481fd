//! Every refusal that is decided, its status and its one line.
ghost use Rattle.std.specs.Prelude.{◌≡◌, IfOk};
ghost use Rattle.mb_desk.specs.Lines.{line_of};
ghost use Rattle.mb_desk.specs.Refusals.{name_of, record_fields, refusal_line, status_of};

use crate::lines::{Field, counts, number, numbers, refused, text, wide};
use crate::model_keys::key_word;
use crate::reasons::reason_word;
use crate::status::Status;
use mb_certificate::Reason;
use mb_kinds::ModelKey;
use mb_registry::{Body, Kind, Text};
use mb_tables::Table;
use std::alloc::{AllocError, Global};

/// Why a request is refused. Each comes exactly where the decision says so: want of memory and
/// faults of the outside are no refusals. The file words of a command count from 1, tokens of a
/// file from 1 with the two sizes included, rows of a move file and lines of a text from 1, and
/// rows and cells of a matrix and rules of a completion from 0.
#[derive(Drop)]
pub enum Refusal {
    /// There is no such file.
    NoFile {
        file: u32,
    },
    /// It has more than 67,108,864 bytes.
    TooLong {
        file: u32,
    },
    /// It doesn't begin with two sizes within the limits.
    NoSize {
        file: u32,
    },
    /// This token of it is no number.
    BadNumber {
        file: u32,
        token: u32,
    },
    /// The number of this token is no entry.
    TooWideNumber {
        file: u32,
        token: u32,
    },
    /// It ends before the last entry.
    TooFew {
        file: u32,
        found: u32,
        wanted: u32,
    },
    /// A token follows the last entry.
    TooMany {
        file: u32,
        wanted: u32,
    },
    /// It is a move file, but no table: it hasn't one row, or another width than the matrix, or an
    /// entry below 0, or a sum above 1,000,000.
    NotATable {
        file: u32,
    },
    /// This record of it isn't there, isn't UTF-8, has another number of fields than the header, or
    /// is a header with a field that begins with a byte order mark.
    Csv {
        file: u32,
        record: u64,
    },
    /// No field of its header is `count`.
    NoCountColumn {
        file: u32,
    },
    /// `count` is the only field of its header.
    NoFactor {
        file: u32,
    },
    /// The count field of this record of it is no count and no `*`.
    BadCount {
        file: u32,
        record: u64,
    },
    /// An earlier record of it has the same levels as this one, or its header has a field twice.
    Repeated {
        file: u32,
        record: u64,
    },
    /// More than 64 combinations of its levels are cells.
    TooManyCombinations {
        file: u32,
    },
    /// Its counts add up to more than 1,000,000.
    TotalTooLarge {
        file: u32,
    },
    /// Each combination of its levels is a structural zero, or there is none.
    NoCell {
        file: u32,
    },
    /// It is no TOML document.
    Toml {
        file: u32,
    },
    /// This line of it is the first that leaves its grammar.
    Text {
        file: u32,
        line: u64,
    },
    /// The first wrong line of a certificate's text, and what is wrong with it.
    Certificate {
        line: u64,
        reason: Reason,
    },
    /// The moves are over another number of cells than the matrix.
    WidthDiffers {
        matrix: u32,
        moves: u32,
    },
    /// This row of the move file, the first such one, has a margin that isn't 0.
    NotAMove {
        row: u32,
    },
    /// The matrix has no cells, or more than 64.
    TooManyCells,
    /// The matrix has no rows, or more than 64.
    TooManyMargins,
    /// The first entry of the matrix below 0.
    Negative {
        row: u32,
        cell: u32,
    },
    /// The first entry of the matrix above 1,000.
    EntryTooLarge {
        row: u32,
        cell: u32,
    },
    /// The lowest column of the matrix that is all 0.
    ZeroColumn {
        cell: u32,
    },
    /// No kind of model has the name that the model file gives.
    UnknownKind,
    /// The model's kind needs this key, which isn't there or is of another type or range.
    MissingKey {
        key: ModelKey,
    },
    /// A factor that the model names isn't in the dataset.
    UnknownFactor,
    /// The model's list of generators is empty.
    EmptyGenerators,
    /// Quasi-independence is of two factors, and the dataset hasn't two.
    NotTwoFactors,
    /// The response isn't binary, or the three named factors aren't three.
    NotBinary,
    /// The dataset has `data` cells; the matrix file's columns, or the base's numbers, are others.
    CellCount {
        matrix: u64,
        data: u32,
    },
    /// This number of the scale names no row, or a row that counts a cell more than once.
    BadScaleRow {
        row: u32,
    },
    /// The scale doesn't cover this cell exactly once, or not as the others are.
    ScaleNotCover {
        cell: u32,
    },
    /// The base of this cell is 0.
    BadBase {
        cell: u32,
    },
    /// The moves are no Markov basis: no chain of them joins these two tables of equal margins, the
    /// sides of this rule of the certificate.
    NotBasis {
        rule: u32,
        left: Table,
        right: Table,
    },
    /// More tables than the limit are reached; so many were seen, the limit and one more.
    TooLarge {
        seen: u32,
    },
    /// The same on the way from one side of this rule of a certificate to the other.
    TooLargeRule {
        rule: u32,
        seen: u32,
    },
    /// The weights of the tables add up to 2^128 or more.
    TooWide,
    /// So many critical pairs, all that are allowed, were looked at, and this pair comes next.
    Unfinished {
        looked: u32,
        left: (u32, u32),
    },
    /// The peak of this pair, which comes next, weighs more than 65,535 on some margin.
    Exponent {
        pair: (u32, u32),
    },
    /// There is no record of this kind and name.
    Unknown {
        kind: Kind,
        name: Text,
    },
    /// The record of this kind and name is there, with another body.
    Conflict {
        kind: Kind,
        name: Text,
    },
    /// The record of this kind and name is referred to by another, of this name.
    InUse {
        kind: Kind,
        name: Text,
        by: Text,
    },
    /// The row of this kind and name is no record.
    BadRecord {
        kind: Kind,
        name: Text,
    },
}

impl Refusal {
    /// The status that it ends in: 5 for a limit, 6 for the registry, and 3 for every other refusal
    /// of what was read.
    pub fn status(&self) -> Status
        ensures { result ≡ status_of self.now }
    {
        match self {
            Refusal::TooLong { .. } => Status::Limit,
            Refusal::TooLarge { .. } => Status::Limit,
            Refusal::TooLargeRule { .. } => Status::Limit,
            Refusal::TooWide => Status::Limit,
            Refusal::Unfinished { .. } => Status::Limit,
            Refusal::Exponent { .. } => Status::Limit,
            Refusal::Unknown { .. } => Status::Registry,
            Refusal::Conflict { .. } => Status::Registry,
            Refusal::InUse { .. } => Status::Registry,
            Refusal::BadRecord { .. } => Status::Registry,
            _ => Status::Refused,
        }
    }

    /// Its name.
    fn name(&self) -> &'static str
        ensures { result.now ≡ name_of self.now }
    {
        match self {
            Refusal::NoFile { .. } => "NoFile",
            Refusal::TooLong { .. } => "TooLong",
            Refusal::NoSize { .. } => "NoSize",
            Refusal::BadNumber { .. } => "BadNumber",
            Refusal::TooWideNumber { .. } => "TooWideNumber",
            Refusal::TooFew { .. } => "TooFew",
            Refusal::TooMany { .. } => "TooMany",
            Refusal::NotATable { .. } => "NotATable",
            Refusal::Csv { .. } => "Csv",
            Refusal::NoCountColumn { .. } => "NoCountColumn",
            Refusal::NoFactor { .. } => "NoFactor",
            Refusal::BadCount { .. } => "BadCount",
            Refusal::Repeated { .. } => "Repeated",
            Refusal::TooManyCombinations { .. } => "TooManyCells",
            Refusal::TotalTooLarge { .. } => "TotalTooLarge",
            Refusal::NoCell { .. } => "NoCell",
            Refusal::Toml { .. } => "Toml",
            Refusal::Text { .. } => "Text",
            Refusal::Certificate { .. } => "Certificate",
            Refusal::WidthDiffers { .. } => "WidthDiffers",
            Refusal::NotAMove { .. } => "NotAMove",
            Refusal::TooManyCells => "TooManyCells",
            Refusal::TooManyMargins => "TooManyMargins",
            Refusal::Negative { .. } => "Negative",
            Refusal::EntryTooLarge { .. } => "EntryTooLarge",
            Refusal::ZeroColumn { .. } => "ZeroColumn",
            Refusal::UnknownKind => "UnknownKind",
            Refusal::MissingKey { .. } => "MissingKey",
            Refusal::UnknownFactor => "UnknownFactor",
            Refusal::EmptyGenerators => "EmptyGenerators",
            Refusal::NotTwoFactors => "NotTwoFactors",
            Refusal::NotBinary => "NotBinary",
            Refusal::CellCount { .. } => "CellCount",
            Refusal::BadScaleRow { .. } => "BadScaleRow",
            Refusal::ScaleNotCover { .. } => "ScaleNotCover",
            Refusal::BadBase { .. } => "BadBase",
            Refusal::NotBasis { .. } => "NotBasis",
            Refusal::TooLarge { .. } => "TooLarge",
            Refusal::TooLargeRule { .. } => "TooLarge",
            Refusal::TooWide => "TooWide",
            Refusal::Unfinished { .. } => "Unfinished",
            Refusal::Exponent { .. } => "Exponent",
            Refusal::Unknown { .. } => "Unknown",
            Refusal::Conflict { .. } => "Conflict",
            Refusal::InUse { .. } => "InUse",
            Refusal::BadRecord { .. } => "BadRecord",
        }
    }

    /// Its one line, with the line end: its name, and each field as a key and a value.
    pub fn line(&self, alloc: Global) -> Result<Body, AllocError>
        ensures { IfOk result (λ line. line ≡ refusal_line self.now) }
    {
        match self {
            Refusal::NoFile { file }
            | Refusal::TooLong { file }
            | Refusal::NoSize { file }
            | Refusal::NotATable { file }
            | Refusal::NoCountColumn { file }
            | Refusal::NoFactor { file }
            | Refusal::TooManyCombinations { file }
            | Refusal::TotalTooLarge { file }
            | Refusal::NoCell { file }
            | Refusal::Toml { file } => self.with(alloc, &[number("file", *file)]),
            Refusal::BadNumber { file, token } | Refusal::TooWideNumber { file, token } => {
                self.with(alloc, &[number("file", *file), number("token", *token)])
            }
            Refusal::TooFew {
                file,
                found,
                wanted,
            } => {
                let (found, wanted) = (number("found", *found), number("wanted", *wanted));
                self.with(alloc, &[number("file", *file), found, wanted])
            }
            Refusal::TooMany { file, wanted } => {
                self.with(alloc, &[number("file", *file), number("wanted", *wanted)])
            }
            Refusal::Csv { file, record }
            | Refusal::BadCount { file, record }
            | Refusal::Repeated { file, record } => {
                self.with(alloc, &[number("file", *file), wide("record", *record)])
            }
            Refusal::Text { file, line } => {
                self.with(alloc, &[number("file", *file), wide("line", *line)])
            }
            Refusal::Certificate { line, reason } => {
                let reason = text("reason", reason_word(*reason));
                self.with(alloc, &[wide("line", *line), reason])
            }
            Refusal::WidthDiffers { matrix, moves } => {
                self.with(alloc, &[number("matrix", *matrix), number("moves", *moves)])
            }
            Refusal::NotAMove { row } | Refusal::BadScaleRow { row } => self.with(
                alloc,
                &[number("row", *row)],
            ),
            Refusal::TooManyCells
            | Refusal::TooManyMargins
            | Refusal::UnknownKind
            | Refusal::UnknownFactor
            | Refusal::EmptyGenerators
            | Refusal::NotTwoFactors
            | Refusal::NotBinary
            | Refusal::TooWide => self.with(alloc, &[]),
            Refusal::Negative { row, cell } | Refusal::EntryTooLarge { row, cell } => {
                self.with(alloc, &[number("row", *row), number("cell", *cell)])
            }
            Refusal::ZeroColumn { cell }
            | Refusal::ScaleNotCover { cell }
            | Refusal::BadBase { cell } => self.with(alloc, &[number("cell", *cell)]),
            Refusal::MissingKey { key } => self.with(alloc, &[text("key", key_word(*key))]),
            Refusal::CellCount { matrix, data } => {
                self.with(alloc, &[wide("matrix", *matrix), number("data", *data)])
            }
            Refusal::NotBasis { rule, left, right } => {
                let (left, right) = (counts("left", left), counts("right", right));
                self.with(alloc, &[number("rule", *rule), left, right])
            }
            Refusal::TooLarge { seen } => self.with(alloc, &[number("seen", *seen)]),
            Refusal::TooLargeRule { rule, seen } => {
                self.with(alloc, &[number("rule", *rule), number("seen", *seen)])
            }
            Refusal::Unfinished { looked, left } => {
                self.with(alloc, &[number("looked", *looked), numbers("left", *left)])
            }
            Refusal::Exponent { pair } => self.with(alloc, &[numbers("pair", *pair)]),
            Refusal::Unknown { kind, name }
            | Refusal::Conflict { kind, name }
            | Refusal::BadRecord { kind, name } => { self.with(alloc, &record_fields(*kind, name)) }
            Refusal::InUse { kind, name, by } => {
                let (kind, name) = (text("kind", kind.word()), text("name", name.as_str()));
                self.with(alloc, &[kind, name, text("by", by.as_str())])
            }
        }
    }

    /// The line of its name and these fields.
    fn with(&self, alloc: Global, fields: &[Field<'_>]) -> Result<Body, AllocError>
        ensures { IfOk result (λ line. line ≡ line_of (name_of self.now) fields.now) }
    {
        refused(alloc, self.name(), fields)
    }
}

/// The fields that name a record.
fn record_fields(kind: Kind, name: &Text) -> [Field<'_>; 2]
    ensures { result ≡ record_fields kind name.now }
{
    [text("kind", kind.word()), text("name", name.as_str())]
}
