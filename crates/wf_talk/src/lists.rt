//! The lists of what is asked and answered.
use crate::{Entry, Job, WorkItem};
use basics::{List, Log};
use wf_names::{CaseId, RoleId};

/// Jobs in the order of their lines.
pub type Jobs = List<Job>;

/// For each batch that has a job, the count of jobs up to its end.
pub type Ends = List<u32>;

/// Roles, by ascending number.
pub type RoleList = List<RoleId>;

/// Steps of open cases, by ascending case and step.
pub type WorkList = List<WorkItem>;

/// Cases, by ascending number.
pub type CaseList = List<CaseId>;

/// The bytes of a line.
pub type Line = List<u8>;

/// The journal: what was asked and answered, in order.
pub type Journal = Log<Entry>;
