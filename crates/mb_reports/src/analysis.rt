//! The record of an exact test.

use mb_tables::Table;

/// An analysis: an exact conditional test of a dataset against a model, with the names by which the
/// registry knows its parts.
#[derive(Drop)]
pub struct Analysis {
    /// The name of the analysis.
    pub name: String,
    /// The name of the Markov basis that joins the fiber.
    pub basis: String,
    /// The name of the log-linear model.
    pub model: String,
    /// The name of the dataset.
    pub dataset: String,
    /// The dataset's table of counts.
    pub observed: Table,
    /// How many tables of the fiber stand k steps from the observed one, for each k from 0 on.
    pub rings: Vec<u32>,
    /// The observed table's weight: its conditional probability, not normalised.
    pub weight: u128,
    /// The summed weight of the tables that are no likelier than the observed one.
    pub below: u128,
    /// The summed weight of all tables of the fiber, the normalising constant.
    pub whole: u128,
}
