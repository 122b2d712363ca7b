//! What the program is asked to do.

/// Most users whose absence `resilience` looks at.
pub const ABSENCE_LIMIT: u8 = 3;

/// How a session is served.
#[derive(Clone, Copy)]
pub struct Options {
    /// How many lanes there are, at least one.
    pub lanes: u8,
    /// After how many rounds a request that could not be decided is answered again.
    pub rounds: u8,
}

/// A command with its words: the policy file, and what else it names.
#[derive(Clone, Copy)]
pub enum Command<'a> {
    /// Judges the plan in the input for a workflow.
    Plan {
        policy: &'a str,
        flow: &'a str,
    },
    /// Writes the policy.
    Show {
        policy: &'a str,
    },
    /// Finds a plan for each workflow, or shows that there is none.
    Solve {
        policy: &'a str,
    },
    /// Finds whether a workflow can be done whichever of its users are absent.
    Resilience {
        policy: &'a str,
        flow: &'a str,
        /// How many users may be absent at most.
        absences: u8,
    },
    /// Writes the clauses that say which plans a case can still be finished by, or reads a model
    /// of them.
    Cnf {
        policy: &'a str,
        flow: &'a str,
        /// The file with the model that is to be read, if one is.
        model: Option<&'a str>,
    },
    /// Answers the requests in the input.
    Serve {
        policy: &'a str,
        options: Options,
    },
    /// Audits the transcript in the input, for a requests file.
    Audit {
        policy: &'a str,
        requests: &'a str,
        options: Options,
    },
    /// Takes up an earlier session, by its requests and its transcript, and goes on with the
    /// requests in the input.
    Resume {
        policy: &'a str,
        requests: &'a str,
        transcript: &'a str,
        options: Options,
    },
    /// Runs a trial of random requests.
    Trial {
        /// What the random numbers begin from.
        seed: u64,
    },
}
