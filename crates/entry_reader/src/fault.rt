//! Why a text was not read.
use basics::Fault;

/// A text is not what was to be read.
#[derive(Clone, Copy)]
pub struct NotText;

/// Why a text was not read.
pub type TextFault = Fault<NotText>;
