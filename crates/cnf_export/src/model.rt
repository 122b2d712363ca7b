//! Models.
use basics::List;

/// A model: of each variable, in their order, whether it is in it.
pub type Model = List<bool>;
