//! Every limit of the server, each cited by its name wherever it counts.

/// Most users in a policy.
pub const USER_LIMIT: u16 = 4_096;
/// Most roles in a policy.
pub const ROLE_LIMIT: u16 = 64;
/// Most declared relations in a policy; the built-in `same` and `other` are not counted.
pub const RELATION_LIMIT: u16 = 32;
/// Most pairs in one listed relation.
pub const PAIR_LIMIT: usize = 65_536;
/// Most workflows in a policy.
pub const FLOW_LIMIT: u16 = 32;
/// Most steps in a workflow.
pub const STEP_LIMIT: usize = 24;
/// Most rules in a workflow.
pub const RULE_LIMIT: usize = 64;

/// Most cases that are open at one time.
pub const OPEN_CASE_LIMIT: u16 = 1_024;
/// Most cases ever opened in one run.
pub const CASE_LIMIT: u16 = 65_535;
/// Greatest number of a case that a request may name.
pub const CASE_NUMBER_LIMIT: u16 = 65_535;

/// Most bytes in a name.
pub const NAME_LIMIT: usize = 40;
/// Most bytes in a policy file.
pub const POLICY_FILE_LIMIT: usize = 4_194_304;
/// Most bytes in a file of requests that is audited.
pub const REQUESTS_FILE_LIMIT: usize = 67_108_864;
/// Most bytes in a request line, its line end aside, and in the input of `plan`.
pub const LINE_LIMIT: usize = 16_384;
/// Most bytes in a line of a transcript that is audited.
pub const TRANSCRIPT_LINE_LIMIT: usize = 16_777_216;
/// Most lines in a session.
pub const SESSION_LINE_LIMIT: u32 = 200_000;
/// Most lines in a batch.
pub const BATCH_LINE_LIMIT: u32 = 1_024;

/// Most lanes; there is at least one.
pub const LANE_LIMIT: u8 = 8;
/// Lanes where none are asked for.
pub const DEFAULT_LANES: u8 = 1;
/// Most rounds in which a stale decision is made again.
pub const ROUND_LIMIT: u8 = 8;
/// Rounds where none are asked for.
pub const DEFAULT_ROUNDS: u8 = 2;
