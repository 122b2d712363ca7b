ghost use Rattle.std.specs.Prelude.{◌≡◌};
ghost use Rattle.wf_outside.specs.Laws.Memory.{is_failing, after_call, after_fault};

use std::marker::Model;

// Which calls are to fail, by number from 0, how many were made and how many failed.
#[derive(Drop)]
pub struct Counts {
    failing: Vec<u64>,
    calls: u64,
    faults: u64,
}

impl Model for Counts {
    ghost use Rattle.wf_outside.specs.Laws.Memory.{CountsShape};

    ghost Value = { CountsShape };

    ghost view = { λ c. record { failing = c.failing.items; calls = c.calls; faults = c.faults } };
}

impl Counts {
    pub fn new(failing: Vec<u64>) -> Self
        ensures { result ≡ record { failing = failing.items; calls = 0; faults = 0 } }
    {
        Counts {
            failing,
            calls: 0,
            faults: 0,
        }
    }

    pub fn is_failing(&self) -> bool
        ensures { result ≡ is_failing self.now }
    {
        self.failing.contains(&self.calls)
    }

    pub fn pass(&mut self)
        ensures { self.new ≡ after_call self.old }
    {
        self.calls = self.calls.saturating_add(1);
    }

    pub fn fail(&mut self)
        ensures { self.new ≡ after_fault self.old }
    {
        self.calls = self.calls.saturating_add(1);
        self.faults = self.faults.saturating_add(1);
    }

    pub fn faults(&self) -> u64
        ensures { result ≡ self.now.faults }
    {
        self.faults
    }
}
