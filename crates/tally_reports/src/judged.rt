// The files that a list names, opened and judged. Only `open` makes the type, and what reads the files takes it: of a
// list that is refused no file is read.
use common::Refusal;
use std::array;
use std::fs::File;
use std::rt::Files;

/// The open files, in the order of their names.
pub type OpenFiles = [Option<File>; tallies::MAX_FILES];

const NO_FILE: Option<File> = None;

#[derive(Drop)]
pub struct JudgedFiles {
    files: OpenFiles,
}

// The file of that name; none if it can't be opened. A name that is no UTF-8 can't be.
fn open_at(rt: &impl Files<File = File>, list: &[u8], k: usize) -> Option<File> {
    let name = lines::names::name_at(list, k);
    let path = str::from_utf8(&list[name.start..name.end]).ok()?;
    File::open(rt, path).ok()
}

// The open files in order, up to the first that can't be opened.
fn open_all(rt: &impl Files<File = File>, list: &[u8]) -> OpenFiles {
    let count = lines::names::count(list);
    let mut files = [NO_FILE; tallies::MAX_FILES];
    for (k, place) in files.iter_mut().enumerate().take(count) {
        let Some(file) = open_at(rt, list, k) else {
            break;
        };
        *place = Some(file);
    }
    files
}

impl JudgedFiles {
    /// Opens the files that the list names and judges it by what was opened. No contract can speak of what is opened.
    pub fn open(rt: &impl Files<File = File>, list: &[u8]) -> Result<JudgedFiles, Refusal> {
        let files = open_all(rt, list);
        let opened: [bool; tallies::MAX_FILES] = array::from_fn(|k| files[k].is_some());
        tallies::judge_list(list, &opened)?;
        Ok(JudgedFiles { files })
    }

    pub fn into_files(self) -> OpenFiles {
        self.files
    }
}
