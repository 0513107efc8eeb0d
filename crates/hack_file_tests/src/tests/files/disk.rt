//! The files of the system, in a separate folder for each test.
//!
//! Besides the questions of all files there are `new folder` and `remove folder`, about the folder
//! of the test, and these, which ask the system itself: `folder: NAME` makes one, `mode 600: NAME`
//! gives a file these permissions, `mode: NAME` returns them, `content: NAME` is the content of a
//! file, `link: NAME` makes a link to `target`, `is link: NAME` asks whether there is one, `second
//! name: NAME` gives the file `a` one more name, and `names` asks how many names the folder has.

use crate::tests::files::{CALLS, answer_over, hold_over, path_of, truth};
use crate::tests::text::quoted;
use hack_files::fs::Disk;
use hack_holds::{Ask, Wrong, hold};
use std::alloc::{AllocError, Global};
use std::fs::Permissions;
use std::io::ErrorKind;
use std::os::unix::fs::{PermissionsExt, symlink};
use std::{env, fs, io, rt};

/// A new folder, whose path ends with a slash.
fn new_folder<R>(rt: &R) -> io::Result<String>
where
    R: rt::Files + env::Env + AllocGlobal,
{
    let temporary = env::temp_dir(rt)?;
    for number in 0..10_000 {
        let start = temporary.as_str();
        let text = format!(in rt.alloc(); "{start}/hack_files_{number}/")?;
        match fs::create_dir(rt, text.as_str()) {
            Ok(()) => return Ok(text),
            Err(e) if e.kind() == ErrorKind::AlreadyExists => {}
            Err(e) => return Err(e),
        }
    }
    Err(io::Error::from(ErrorKind::AlreadyExists))
}

/// How many names the folder has.
fn names<R: rt::Files + AllocGlobal + Clone + Drop>(rt: &R, folder: &str) -> io::Result<String> {
    let mut count = 0usize;
    for entry in fs::read_dir(rt, folder)? {
        entry?;
        count = count.saturating_add(1);
    }
    Ok(format!(in rt.alloc(); "{count}")?)
}

/// The permissions of a file.
fn mode<R: rt::Files + AllocGlobal>(rt: &R, path: &str) -> io::Result<String> {
    let found = fs::metadata(rt, path)?.permissions().mode() & 0o777;
    Ok(format!(in rt.alloc(); "{found:o}")?)
}

fn content<R: rt::Files + AllocGlobal>(rt: &R, path: &str) -> io::Result<String> {
    let text = fs::read_to_string(rt, path)?;
    Ok(quoted(rt.alloc(), text.as_bytes())?)
}

fn is_link<R: rt::Files + AllocGlobal>(rt: &R, path: &str) -> io::Result<String> {
    let is_link = fs::symlink_metadata(rt, path)?.is_symlink();
    Ok(truth(rt.alloc(), Ok(is_link))?)
}

fn second_name<R: rt::Files + AllocGlobal>(rt: &R, folder: &str, path: &str) -> io::Result<()> {
    let first = path_of(rt.alloc(), folder, "a")?;
    fs::hard_link(rt, first.as_str(), path)
}

fn done(alloc: Global, outcome: io::Result<()>) -> Result<String, AllocError> {
    match outcome {
        Ok(()) => String::from_str(alloc, "ok"),
        Err(e) => format!(in alloc; "{e}"),
    }
}

fn told(alloc: Global, outcome: io::Result<String>) -> Result<String, AllocError> {
    match outcome {
        Ok(text) => Ok(text),
        Err(e) => format!(in alloc; "{e}"),
    }
}

/// The files in a folder.
#[derive(Drop)]
struct OnDisk<'a, R: rt::Files + AllocGlobal> {
    rt: &'a R,
    /// The path of the folder, with a slash at its end.
    folder: String,
    files: Disk<&'a R>,
}

impl<'a, R> OnDisk<'a, R>
where
    R: rt::Files + env::Env + AllocGlobal + Clone + Drop,
{
    fn begin(&mut self, alloc: Global) -> Result<String, AllocError> {
        match new_folder(self.rt) {
            Ok(folder) => {
                self.folder = folder;
                String::from_str(alloc, "ok")
            }
            Err(e) => format!(in alloc; "{e}"),
        }
    }

    /// Answers a question about the whole folder, or one of those for all files.
    fn whole(&mut self, alloc: Global, question: &str) -> Result<String, AllocError> {
        let folder = self.folder.as_str();
        match question {
            "new folder" => self.begin(alloc),
            "remove folder" => done(alloc, fs::remove_dir_all(self.rt, folder)),
            "names" => told(alloc, names(self.rt, folder)),
            _ => answer_over(alloc, &mut self.files, folder, question),
        }
    }

    fn mode(&self, path: &str, mode: u32) -> io::Result<()> {
        fs::set_permissions(self.rt, path, Permissions::from_mode(mode))
    }
}

impl<'a, R> Ask for OnDisk<'a, R>
where
    R: rt::Files + env::Env + AllocGlobal + Clone + Drop,
{
    fn answer(&mut self, alloc: Global, question: &str) -> Result<String, AllocError> {
        let Some((kind, name)) = question.split_once(": ") else {
            return self.whole(alloc, question);
        };
        let path = path_of(alloc, self.folder.as_str(), name)?;
        let path = path.as_str();
        match kind {
            "folder" => done(alloc, fs::create_dir(self.rt, path)),
            "mode" => told(alloc, mode(self.rt, path)),
            "mode 600" => done(alloc, self.mode(path, 0o600)),
            "mode 640" => done(alloc, self.mode(path, 0o640)),
            "mode 755" => done(alloc, self.mode(path, 0o755)),
            "content" => told(alloc, content(self.rt, path)),
            "link" => done(alloc, symlink(self.rt, "target", path)),
            "is link" => told(alloc, is_link(self.rt, path)),
            "second name" => done(alloc, second_name(self.rt, self.folder.as_str(), path)),
            _ => String::from_str(alloc, "no such question"),
        }
    }
}

/// Checks rows on a new folder of the system, which is removed where they pass.
fn on_disk<R>(rt: &R, rows: &str) -> Result<(), Wrong>
where
    R: rt::Files + env::Env + AllocGlobal + Clone + Drop,
{
    let mut asked = OnDisk {
        rt,
        folder: String::new(rt.alloc()),
        files: Disk::new(rt),
    };
    hold(rt.alloc(), &mut asked, "> new folder\n| ok")?;
    hold(rt.alloc(), &mut asked, rows)?;
    hold(rt.alloc(), &mut asked, "> remove folder\n| ok")
}

#[test]
fn files_of_the_system_by_the_table(rt: HostRuntime) -> Result<(), Wrong> {
    on_disk(&rt, CALLS)
}

#[test]
fn paths_where_no_file_can_be(rt: HostRuntime) -> Result<(), Wrong> {
    on_disk(
        &rt,
        r"
            > folder: sub
            | ok

            # A folder.
            > read sub
            | device
            > write sub x
            | device
            > exists sub
            | true
            > remove sub
            | device

            # A folder that is missing.
            > read none/a
            | device
            > write none/a x
            | device
            > exists none/a
            | false
            > remove none/a
            | ok

            # A file where a folder should be: nothing is below it.
            > write file x
            | ok
            > read file/a
            | device
            > write file/a x
            | device
            > exists file/a
            | false
            > remove file/a
            | ok

            # A name that no system takes.
            > read a\0b
            | device
            > write a\0b x
            | device
            > exists a\0b
            | device
            > remove a\0b
            | device

            > failures
            | 11
            > names
            | 2
        ",
    )
}

#[test]
fn the_empty_path(rt: HostRuntime) -> Result<(), Wrong> {
    hold_over(
        rt.alloc(),
        Disk::new(&rt),
        "
            > read
            | device
            > write  x
            | device
            > exists
            | false
            > remove
            | ok
        ",
    )
}

#[test]
fn a_write_keeps_permissions_and_leaves_nothing_beside(rt: HostRuntime) -> Result<(), Wrong> {
    on_disk(
        &rt,
        "
            > write a old
            | ok
            > mode 600: a
            | ok
            > write a new
            | ok
            > mode: a
            | 600
            > mode 640: a
            | ok
            > write a new
            | ok
            > mode: a
            | 640
            > mode 755: a
            | ok
            > write a new
            | ok
            > mode: a
            | 755
            > content: a
            | 'new'
            > names
            | 1
        ",
    )
}

// First the link leads nowhere, and then to a file.
#[test]
fn a_link_is_followed_and_stays(rt: HostRuntime) -> Result<(), Wrong> {
    on_disk(
        &rt,
        "
            > link: link
            | ok
            > write link first
            | ok
            > is link: link
            | true
            > content: target
            | 'first'
            > write link second
            | ok
            > is link: link
            | true
            > content: target
            | 'second'
            > names
            | 2
        ",
    )
}

#[test]
fn a_file_of_two_names_keeps_both(rt: HostRuntime) -> Result<(), Wrong> {
    on_disk(
        &rt,
        "
            > write a old
            | ok
            > second name: b
            | ok
            > write b new
            | ok
            > content: a
            | 'new'
        ",
    )
}

// No file is made beside it, which would have removed the one that lies there.
#[test]
fn an_overwritten_file_keeps_its_place(rt: HostRuntime) -> Result<(), Wrong> {
    on_disk(
        &rt,
        "
            > write a old and longer
            | ok
            > mode 600: a
            | ok
            > second name: b
            | ok
            > write a.cargo-hack-0 left
            | ok
            > overwrite a new
            | ok
            > content: b
            | 'new'
            > mode: a
            | 600
            > content: a.cargo-hack-0
            | 'left'
            > names
            | 3
        ",
    )
}

#[test]
fn a_file_that_a_killed_program_left_is_removed(rt: HostRuntime) -> Result<(), Wrong> {
    on_disk(
        &rt,
        "
            > write a old
            | ok
            > write a.cargo-hack-0 left
            | ok
            > write a new
            | ok
            > content: a
            | 'new'
            > names
            | 1
        ",
    )
}
