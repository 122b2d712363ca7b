//! Why a case is not written as clauses.

use basics::Fault;

/// The clauses of a case have too many literals.
#[derive(Clone, Copy, Debug)]
pub struct TooLarge;

/// Why a case is not written as clauses.
pub type CnfFault = Fault<TooLarge>;
