ghost use Rattle.std.specs.Prelude.{◌≡◌, ◌≤◌, ◌<◌, ◌++◌, ◌↔◌, ℕ, List, map, length, IfOk};
ghost use Rattle.std.specs.Prelude.{MatchOption};
ghost use Rattle.wf_outside.specs.Laws.Memory.{file_of, LoadsFrom, counts_after};
ghost use Rattle.wf_outside.specs.MemShelf.{file_view};
ghost use Rattle.wf_outside.specs.Laws.Outside.{LoadsAs, told, missing};

use crate::counts::Counts;
use crate::{LoadFault, Loaded, Shelf};
use std::alloc::Global;
use std::marker::Model;

/// A file of a [`MemShelf`].
#[derive(Drop)]
pub struct MemFile {
    pub name: String,
    pub bytes: Vec<u8>,
}

/// A shelf of files in memory, of which chosen calls fail.
#[derive(Drop)]
pub struct MemShelf {
    files: Vec<MemFile>,
    counts: Counts,
}

impl Model for MemShelf {
    ghost use Rattle.std.specs.Prelude.{map};
    ghost use Rattle.wf_outside.specs.Laws.Memory.{MemShelfShape};
    ghost use Rattle.wf_outside.specs.MemShelf.{file_view};

    ghost Value = { MemShelfShape };

    ghost view = { λ s. record { files = map file_view s.files.items; counts = s.counts } };
}

impl MemShelf {
    /// Of two files of one name the first is found. The calls with the numbers in `failing`, from
    /// 0, fail, unless the file is longer than the limit; so does each call for a name that no file
    /// has.
    pub fn new(files: Vec<MemFile>, failing: Vec<u64>) -> Self
        ensures { result ≡ record {
          files = map file_view files.items;
          counts = record
              { failing = failing.items; calls = 0; faults = 0 };
        } }
    {
        MemShelf {
            files,
            counts: Counts::new(failing),
        }
    }

    /// How many calls have failed.
    pub fn faults(&self) -> u64
        ensures { result ≡ self.now.counts.faults }
    {
        self.counts.faults()
    }
}

// The first file of that name.
fn find_file<'a>(files: &'a [MemFile], name: &str) -> Option<&'a [u8]>
    ensures { MatchOption result (file_of (map file_view files.now) name.now ≡ missing)
        (λ bytes. file_of (map file_view files.now) name.now ≡ told bytes.now) }
{
    'finding: for file in files {
        if file.name.as_str() == name {
            return Some(&file.bytes);
        }
    }
    None
}

// The bytes of a file, unless there are more than the limit or the call is to fail.
fn read_file(
    counts: &mut Counts,
    alloc: Global,
    content: &[u8],
    limit: usize,
) -> Result<Loaded, LoadFault>
    ensures answer { LoadsFrom counts.old (told content.now) limit result }
    ensures counts { counts.new ≡ counts_after counts.old result }
    ensures loaded { LoadsAs (told content.now) limit result }
{
    if limit < content.len() {
        counts.pass();
        return Err(LoadFault::TooLong);
    }
    if counts.is_failing() {
        counts.fail();
        return Err(LoadFault::Failed);
    }
    counts.pass();
    Ok(Loaded::from_bytes(content.to_vec(alloc)?))
}

impl Shelf for MemShelf {
    ghost file = { λ s name. file_of s.files name };

    ghost faults = { λ s. s.counts.faults };

    fn load(&mut self, alloc: Global, name: &str, limit: usize) -> Result<Loaded, LoadFault>
        ensures answer { LoadsFrom self.old.counts (file_of self.old.files name.now) limit result }
        ensures files { self.new.files ≡ self.old.files }
        ensures counts { self.new.counts ≡ counts_after self.old.counts result }

        // The clauses of every shelf.
        ensures loaded { LoadsAs (file_of self.old.files name.now) limit result }
        ensures within { IfOk result (λ bytes. length bytes ≤ limit) }
    {
        let Some(content) = find_file(&self.files, name) else {
            self.counts.fail();
            return Err(LoadFault::Failed);
        };
        read_file(&mut self.counts, alloc, content, limit)
    }
}
