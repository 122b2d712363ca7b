//! What `legal` means.
ghost use Rattle.transcript_commands.specs.Laws.{LegalIsExact, LegalIsNext};

use transcript_audit::laws::{audit_is_exact, faults_exclude, next_is_one};

/// Lines of which none is too long are found legal exactly where they are the texts of entries of
/// which each comes next, one for each job.
pub fn legal_is_next()
    ensures { LegalIsNext }
{}

/// What is found in lines of a session of which none is too long is `legal` exactly where they are
/// those of a legal history that fills the jobs.
pub fn legal_is_exact()
    ensures { LegalIsExact }
{
    audit_is_exact();
    faults_exclude();
    next_is_one();
}
