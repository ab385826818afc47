//! Files over memory.
ghost use Rattle.std.specs.Prelude.{◌≡◌, ◌+◌, ◌-◌, ◌<◌, ◌≤◌, [], ◌++◌, length, min, Option, Some, None, Err, IfOk, OnOk, AllPairs, ◌≢◌, vec_len};
ghost use Rattle.std.specs.Option.{option_copied};
ghost use Rattle.bes_io.specs.Streams.{ReadsFile, failure};
ghost use Rattle.bes_io.specs.Forms.{file_at, counted, FilesFail};

use crate::outside::{FileFault, Files};
use crate::words::{Text, Word};
use std::alloc::Global;
use std::marker::Model;

/// Files over memory, whose bytes contracts see.
#[derive(Drop)]
pub struct MemFiles {
    names: Vec<Word>,
    contents: Vec<Text>,
    fails: Vec<u64>,
    calls: u64,
    failed: Vec<Word>,
}

impl Model for MemFiles {
    ghost use Rattle.std.specs.Prelude.{◌≡◌, length};
    ghost use Rattle.bes_io.specs.Forms.{MemoryFiles};

    ghost Value = { MemoryFiles };

    ghost view = { λ s. record { names = s.names.items; contents = s.contents.items; fails = s.fails.items; calls = s.calls; failed = s.failed.items } };

    ghost invariant = { λ s. length s.names.items ≡ length s.contents.items };
}

impl MemFiles {
    /// Files with these names and contents, place by place. The calls in `fails`, counted from 1, fail.
    pub fn new(alloc: Global, names: Vec<Word>, contents: Vec<Text>, fails: Vec<u64>) -> MemFiles
        requires paired { length names.items ≡ length contents.items }
        requires distinct { AllPairs (λ one other. one ≢ other) names.items }
        ensures names { result.names ≡ names.items }
        ensures contents { result.contents ≡ contents.items }
        ensures fails { result.fails ≡ fails.items }
        ensures calls { result.calls ≡ 0 }
        ensures failed { result.failed ≡ [] }
    {
        MemFiles {
            names,
            contents,
            fails,
            calls: 0,
            failed: Vec::new(alloc),
        }
    }
}

// The text of this name.
fn find_text<'a>(names: &[Word], contents: &'a [Text], name: &Word) -> Option<&'a Text>
    requires { length names.now ≡ length contents.now }
    ensures { option_copied result ≡ file_at names.now contents.now name.now }
{
    for i in 0..names.len() {
        if names[i].bytes() == name.bytes() {
            return Some(&contents[i]);
        }
    }
    None
}

impl Files for MemFiles {
    ghost contents = { λ s. Some (file_at s.names s.contents) };

    ghost failed = { λ s. s.failed };

    fn read(&mut self, alloc: Global, name: &Word, most: usize) -> Result<Vec<u8>, FileFault>
        ensures bound { IfOk result (λ text. vec_len text ≤ most) }
        ensures bytes { ReadsFile (Some (file_at self.old.names self.old.contents)) name.now most result (λ text. text.items) }
        ensures same { Some (file_at self.new.names self.new.contents) ≡ Some (file_at self.old.names self.old.contents) }
        ensures failed { self.new.failed ≡ self.old.failed ++ failure result name.now }
        ensures ok { OnOk result (¬ FilesFail self.old name.now) }
        ensures fails { result ≡ Err FileFault.Failed → FilesFail self.old name.now }
        ensures calls { self.new.calls ≡ counted self.old.calls }
        ensures names { self.new.names ≡ self.old.names }
        ensures contents { self.new.contents ≡ self.old.contents }
        ensures listed { self.new.fails ≡ self.old.fails }
    {
        self.calls = self.calls.saturating_add(1);
        let fails = self.fails.contains(&self.calls);
        match find_text(&self.names, &self.contents, name) {
            Some(text) if !fails => {
                let bytes = text.bytes();
                match Vec::from_slice(alloc, &bytes[..most.min(bytes.len())]) {
                    Ok(text) => Ok(text),
                    Err(_) => Err(FileFault::Memory),
                }
            }
            _ => match Word::new(alloc, name.bytes()) {
                Ok(copy) => match self.failed.push(copy) {
                    Ok(()) => Err(FileFault::Failed),
                    Err(_) => Err(FileFault::Memory),
                },
                Err(_) => Err(FileFault::Memory),
            },
        }
    }
}
