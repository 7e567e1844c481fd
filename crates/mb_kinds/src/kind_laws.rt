//! The laws of the kinds of models, each the contract of a function that does nothing.

ghost use Rattle.mb_kinds.specs.KindLaws.{RaschIsHierarchical, ReadModelIsSound};

/// Law: the Rasch model on three factors is the hierarchical model of their three pairs.
pub fn rasch_is_hierarchical()
    ensures { RaschIsHierarchical }
{}

/// Law: what a model file says on a dataset is a model with a column for each cell of the dataset.
pub fn read_model_is_sound()
    ensures { ReadModelIsSound }
{}
