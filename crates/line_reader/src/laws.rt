//! Laws of the jobs of an input.
ghost use Rattle.std.specs.Prelude.{◌<◌};
ghost use Rattle.line_reader.specs.Laws.{InputsGoOn, JobsAreInOrder, JobsAreNamed};
ghost use Rattle.line_reader.specs.Laws.Naming.{JobsStayNamed};

/// The jobs of every input: at most as many as a session may have lines, of lines that ascend
/// strictly, each of one of the lanes; the ends of their batches ascend by at most what a batch may
/// have, and the last one is the count of the jobs.
pub fn jobs_are_in_order(lanes: u8)
    requires { 0 < lanes }
    ensures { JobsAreInOrder lanes }
{
    let _ = lanes;
}

/// The key that a bad line of an input lacks has the form of a name.
pub fn jobs_are_named(lanes: u8)
    ensures { JobsAreNamed lanes }
{
    let _ = lanes;
}

/// The names in the jobs that are cut behind others have a name's form, where those of the others
/// have.
pub fn jobs_stay_named()
    ensures { JobsStayNamed }
{}

/// Behind each text that meets no limit an input goes on: its lines are numbered on, its first line
/// begins a batch, and the jobs of both are in order as those of one input are.
pub fn inputs_go_on(lanes: u8)
    requires { 0 < lanes }
    ensures { InputsGoOn lanes }
{
    let _ = lanes;
}
