//! What a turn table asks of its value.
ghost use Rattle.std.specs.Prelude.{ℕ, List};

/// A value with a part that no turn changes, and with a list to which turns append.
pub trait Tabled {
    /// The type of the fixed part. No value of it need be made.
    type Ground;
    /// The type of what a turn appends. No value of it need be made.
    type Item;

    // The part that no turn changes.
    ghost fixed_part: { Self → Self.Ground };

    // What was appended, each item with the number of the lane that appended it.
    ghost list: { Self → List (ℕ × Self.Item) };
}
