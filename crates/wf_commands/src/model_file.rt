//! The file of a model.

/// Most bytes in the file of a model.
pub const MODEL_FILE_LIMIT: usize = 67_108_864;
