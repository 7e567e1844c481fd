//! What the desk can be asked. The definitions take these very types, since contracts see a word as
//! its bytes and a limit as its number.

use crate::limits::{FiberLimit, Limit, Looks, Workers};
use crate::parts::Part;
use crate::texts::{NameWord, Word};
use mb_order::Order;
use mb_registry::Kind;

/// The greatest seed of `generate`, 3^16 - 1.
pub const LARGEST_SEED: u32 = 43_046_720;

/// The words of `moves`: the names of two files.
#[derive(Drop)]
pub struct MovesWords<'a> {
    /// The matrix file.
    pub matrix: Word<'a>,
    /// The move file.
    pub moves: Word<'a>,
}

/// The words of `reach`: the names of three files, and the limit.
#[derive(Drop)]
pub struct ReachWords<'a> {
    /// The matrix file.
    pub matrix: Word<'a>,
    /// The move file.
    pub moves: Word<'a>,
    /// The table file.
    pub table: Word<'a>,
    /// The most tables that may be reached.
    pub limit: Limit,
}

/// The words of `model`: the name of the new model and of its dataset, the name of the model file,
/// and that of the matrix file, if one is given.
#[derive(Drop)]
pub struct ModelWords<'a> {
    /// The name of the model.
    pub name: NameWord<'a>,
    /// The name of the dataset.
    pub dataset: NameWord<'a>,
    /// The model file.
    pub file: Word<'a>,
    /// The matrix file.
    pub matrix: Option<Word<'a>>,
}

/// The words of `basis`: the name of the new basis and of its model, the order of monomials, and
/// the most critical pairs that may be looked at.
#[derive(Drop)]
pub struct BasisWords<'a> {
    /// The name of the basis.
    pub name: NameWord<'a>,
    /// The name of the model.
    pub model: NameWord<'a>,
    /// The order of monomials.
    pub order: Order,
    /// The critical pairs that may be looked at.
    pub looks: Looks,
}

/// The words of `import`: the name of the new basis and of the one beside which it is proved, the
/// name of the move file, and the limit.
#[derive(Drop)]
pub struct ImportWords<'a> {
    /// The name of the new basis.
    pub name: NameWord<'a>,
    /// The name of the basis that is there.
    pub basis: NameWord<'a>,
    /// The move file.
    pub moves: Word<'a>,
    /// The most tables that may be met on the way from one side of a rule to the other.
    pub limit: Limit,
}

/// The words of `analyse`: the name of the new analysis and of its basis, the limit, and how many
/// workers walk.
#[derive(Drop)]
pub struct AnalyseWords<'a> {
    /// The name of the analysis.
    pub name: NameWord<'a>,
    /// The name of the basis.
    pub basis: NameWord<'a>,
    /// The most tables that the fiber may have.
    pub limit: FiberLimit,
    /// How many workers walk.
    pub workers: Workers,
}

/// A command with its words.
#[derive(Drop)]
pub enum Request<'a> {
    /// `moves MATRIX MOVES`.
    Moves(MovesWords<'a>),
    /// `reach MATRIX MOVES TABLE [--limit L]`.
    Reach(ReachWords<'a>),
    /// `check CERTIFICATE`, the name of a file.
    Check {
        certificate: Word<'a>,
    },
    /// `generate SEED [--workers W]`, a number up to 43,046,720.
    Generate {
        seed: u32,
        workers: Workers,
    },
    /// `dataset NAME FILE`.
    Dataset {
        name: NameWord<'a>,
        file: Word<'a>,
    },
    /// `model NAME DATASET FILE [--matrix FILE]`.
    Model(ModelWords<'a>),
    /// `basis NAME MODEL [--order O] [--pairs K]`.
    Basis(BasisWords<'a>),
    /// `import NAME BASIS MOVES [--limit L]`.
    Import(ImportWords<'a>),
    /// `analyse NAME BASIS [--limit L] [--workers W]`.
    Analyse(AnalyseWords<'a>),
    /// `report NAME`.
    Report {
        name: NameWord<'a>,
    },
    /// `list`.
    List,
    /// `export WHAT NAME FILE`.
    Export {
        part: Part,
        name: NameWord<'a>,
        file: Word<'a>,
    },
    /// `remove KIND NAME`.
    Remove {
        kind: Kind,
        name: NameWord<'a>,
    },
}
