//! The jobs of an input, said of its lines.
ghost use Rattle.std.specs.Prelude.{◌≤◌};
ghost use Rattle.wf_names.specs.declared.limits.TheConstants.{SESSION_LINE_LIMIT};
ghost use Rattle.line_reader.specs.Lines.{JobsAreOfLines};

/// A law of every input whose lines are counted from a number on. Its jobs are one for each line,
/// cut at LF, that is not empty, in order, up to the first byte that meets a limit. No empty line
/// stands between two lines of one batch.
pub fn jobs_are_of_lines(lanes: u8, first: u32)
    requires { first ≤ SESSION_LINE_LIMIT }
    ensures { JobsAreOfLines lanes first }
{
    let _ = lanes;
    let _ = first;
}
