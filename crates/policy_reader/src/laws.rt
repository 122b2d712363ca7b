//! Laws of the readings of policy files. Each function does nothing; its contract is the law.
ghost use Rattle.policy_reader.specs.Laws.{OldFormatReadsAlike, PolicyOfFileIsSound};

/// Every file that was read as a policy before there was a second format is read as the same
/// policy.
pub fn old_format_reads_alike()
    ensures { OldFormatReadsAlike }
{}

/// The policy that a file is has what every policy keeps, at most as many steps in a workflow as
/// the limit, and names of a name's form.
pub fn policy_of_file_is_sound()
    ensures { PolicyOfFileIsSound }
{}
