//! The folders of the package and the workspace that a call is about, found as cargo does.

ghost use Rattle.std.specs.Prelude.{◌≡◌, [], IfErr, IfOk, codes, is_some, option_map};
ghost use Rattle.std.specs.Prelude.{string_bytes};
ghost use Rattle.std.specs.List.{list_any};
ghost use Rattle.toml.specs.Data.{get_member};
ghost use Rattle.toml.specs.View.{array_view, table_view};
ghost use Rattle.hack_base.specs.Names.{optional_text};
ghost use Rattle.hack_base.specs.PathTexts.{join_of, normal_of};
ghost use Rattle.hack_files.specs.Files.{KeepsAll, Makes};
ghost use Rattle.hack_manifest.specs.Manifest.{texts_in};
ghost use Rattle.hack_places.specs.Folders.{bytes_say, field_says, fields_leave_out, has_part};
ghost use Rattle.hack_places.specs.Folders.{is_inside, leads_to, leaves_out, manifest_in};
ghost use Rattle.hack_places.specs.Folders.{package_from, saying_in, start_at, text_in_bytes};
ghost use Rattle.hack_places.specs.Folders.{text_leaves_out, text_says, texts_at, torn_says};
ghost use Rattle.hack_places.specs.Folders.{tree_says, workspace_around, workspace_says};
ghost use Rattle.hack_places.specs.Internal.{saying};
ghost use Rattle.hack_places.specs.FileLooks.{AreLooksCounted, AreLooksSeen, IsOfLooked, IsOfPath};
ghost use Rattle.hack_places.specs.LookedPaths.{IsPackageLook, IsWorkspaceLook};

use crate::look::{LookFault, held, is_there};
use hack_base::paths::{join, normal, parent, under};
use hack_files::fs::Files;
use hack_manifest::lookup::{find_table, value_at};
use std::alloc::{AllocError, Global};
use toml::value::Array;
use toml::{Table, Value};

/// The folder of the package that a call is about: at or above the folder of `--manifest-path`, or else the
/// current one, the nearest that has a manifest; if none has, that folder itself.
#[tactic(auto, using(hack_files::proofs::FilesLemmas::trace_steps))]
pub fn package_dir<F: Files>(
    alloc: Global,
    manifest_path: Option<&str>,
    dir: &str,
    files: &mut F,
) -> Result<String, LookFault>
    // Where the files show what they hold, it is that folder.
    ensures found { IfOk result (λ pkg_dir. F.tells
        → string_bytes pkg_dir ≡ package_from (F.bytes_at files.old)
        (start_at (option_map (λ path. path.now) manifest_path.entry) dir.now)) }
    // An error names the manifest that can't be looked at. Nothing is changed.
    ensures counted { AreLooksCounted (F.failed files.old) (F.failed files.new) result }
    ensures seen { AreLooksSeen F.Files files.old files.new result }
    ensures looked { IfErr result (IsOfLooked (IsPackageLook F.tells (F.bytes_at files.old)
        (start_at (option_map (λ path. path.now) manifest_path.entry) dir.now))) }
    ensures same { F.tells → KeepsAll (F.bytes_at files.old) (F.bytes_at files.new) }
    ensures untraced { F.whole → Makes [] (F.trace files.old) (F.trace files.new)
        (F.bytes_at files.old) (F.bytes_at files.new) }
{
    let start = start(alloc, manifest_path, dir)?;
    nearest(alloc, start.as_str(), files)
}

/// The nearest folder with a manifest, at or above this one; if there is none, this one.
#[tactic(auto, using(crate::proofs::LookLemmas::look_steps))]
fn nearest<F: Files>(alloc: Global, start: &str, files: &mut F) -> Result<String, LookFault>
    ensures found { IfOk result (λ pkg_dir. F.tells
        → string_bytes pkg_dir ≡ package_from (F.bytes_at files.old) start.now) }
    ensures counted { AreLooksCounted (F.failed files.old) (F.failed files.new) result }
    ensures seen { AreLooksSeen F.Files files.old files.new result }
    ensures looked { IfErr result (IsOfLooked (IsPackageLook F.tells (F.bytes_at files.old)
        start.now)) }
    ensures same { F.tells → KeepsAll (F.bytes_at files.old) (F.bytes_at files.new) }
    ensures untraced { F.whole → Makes [] (F.trace files.old) (F.trace files.new)
        (F.bytes_at files.old) (F.bytes_at files.new) }
{
    let mut folder = start;
    // Each folder's path is shorter than that of one inside it.
    for _step in 0..start.len() {
        if has_manifest(alloc, folder, files)? {
            return Ok(String::from_str(alloc, folder)?);
        }
        folder = parent(folder);
    }
    Ok(String::from_str(alloc, start)?)
}

/// Whether a folder has a manifest.
#[tactic(auto, using(hack_files::proofs::FilesLemmas::trace_steps))]
fn has_manifest<F: Files>(alloc: Global, folder: &str, files: &mut F) -> Result<bool, LookFault>
    ensures found { IfOk result (λ there. F.tells
        → there ≡ is_some (manifest_in (F.bytes_at files.old) folder.now)) }
    ensures counted { AreLooksCounted (F.failed files.old) (F.failed files.new) result }
    ensures seen { AreLooksSeen F.Files files.old files.new result }
    ensures named { IfErr result (IsOfPath (join_of folder.now (codes "Cargo.toml"))) }
    ensures same { F.tells → KeepsAll (F.bytes_at files.old) (F.bytes_at files.new) }
    ensures untraced { F.whole → Makes [] (F.trace files.old) (F.trace files.new)
        (F.bytes_at files.old) (F.bytes_at files.new) }
{
    let path = join(alloc, folder, "Cargo.toml")?;
    is_there(alloc, path.as_str(), files)
}

/// The folder of a package's workspace: at or above the package's, the nearest whose manifest is a workspace's
/// that doesn't leave the package out, or what the nearest says that names its workspace. If there is none, the
/// nearest whose workspace leaves the package out, since an edit may say so that an interrupted call left; else
/// the package's own.
#[tactic(auto, using(crate::proofs::LookLemmas::look_steps))]
pub fn workspace<F: Files>(alloc: Global, pkg_dir: &str, files: &mut F) -> Result<String, LookFault>
    // Where the files show what they hold, it is that folder.
    ensures found { IfOk result (λ folder. F.tells
        → string_bytes folder ≡ workspace_around (F.bytes_at files.old) pkg_dir.now) }
    // An error names the manifest that can't be looked at. Nothing is changed.
    ensures counted { AreLooksCounted (F.failed files.old) (F.failed files.new) result }
    ensures seen { AreLooksSeen F.Files files.old files.new result }
    ensures looked { IfErr result (IsOfLooked (IsWorkspaceLook F.tells (F.bytes_at files.old)
        pkg_dir.now)) }
    ensures same { F.tells → KeepsAll (F.bytes_at files.old) (F.bytes_at files.new) }
    ensures untraced { F.whole → Makes [] (F.trace files.old) (F.trace files.new)
        (F.bytes_at files.old) (F.bytes_at files.new) }
{
    let mut folder = pkg_dir;
    let mut leaving = None;
    // Each folder's path is shorter than that of one inside it.
    for _step in 0..pkg_dir.len() {
        match said_at(alloc, folder, pkg_dir, files)? {
            Said::Here => return Ok(String::from_str(alloc, folder)?),
            Said::At(path) => return Ok(within(alloc, folder, path.as_str())?),
            Said::Out => leaving = leaving.or(Some(folder)),
            Said::Nothing => {}
        }
        folder = parent(folder);
    }
    Ok(String::from_str(alloc, leaving.unwrap_or(pkg_dir))?)
}

/// Whether the workspace in a folder leaves out a package, as cargo has it: one of the paths in
/// `workspace.exclude` leads to the package's folder, or around it, and none in `workspace.members` does. Such
/// a package has a lockfile of its own.
pub fn leaves_out<F: Files>(
    alloc: Global,
    folder: &str,
    pkg_dir: &str,
    files: &mut F,
) -> Result<bool, LookFault>
    ensures found { IfOk result (λ out. F.tells
        → out ≡ leaves_out (F.bytes_at files.old) folder.now pkg_dir.now) }
    ensures counted { AreLooksCounted (F.failed files.old) (F.failed files.new) result }
    ensures seen { AreLooksSeen F.Files files.old files.new result }
    ensures named { IfErr result (IsOfPath (join_of folder.now (codes "Cargo.toml"))) }
    ensures same { F.tells → KeepsAll (F.bytes_at files.old) (F.bytes_at files.new) }
    ensures untraced { F.whole → Makes [] (F.trace files.old) (F.trace files.new)
        (F.bytes_at files.old) (F.bytes_at files.new) }
{
    match text_of(manifest(alloc, folder, files)?) {
        Some(text) => Ok(text_leaves_out(alloc, folder, pkg_dir, text.as_str())?),
        None => Ok(false),
    }
}

/// The same of a manifest's text.
fn text_leaves_out(
    alloc: Global,
    folder: &str,
    pkg_dir: &str,
    text: &str,
) -> Result<bool, AllocError>
    ensures { IfOk result (λ out. out ≡ text_leaves_out folder.now pkg_dir.now text.now) }
{
    match toml::table_from_str(alloc, text) {
        Ok(tree) => match find_table(&tree, "workspace") {
            Some(fields) => fields_leave_out(alloc, folder, pkg_dir, fields),
            None => Ok(false),
        },
        Err(e) if e.is_memory() => Err(AllocError),
        Err(_) => Ok(false),
    }
}

/// The same of a table `workspace`.
fn fields_leave_out(
    alloc: Global,
    folder: &str,
    pkg_dir: &str,
    fields: &Table,
) -> Result<bool, AllocError>
    ensures { IfOk result (λ out. out
        ≡ fields_leave_out folder.now pkg_dir.now (table_view fields.now)) }
{
    let is_excluded = one_leads(alloc, folder, pkg_dir, fields, "exclude")?;
    let is_member = one_leads(alloc, folder, pkg_dir, fields, "members")?;
    Ok(is_excluded && !is_member)
}

/// Whether a text of the array at this key leads to a folder that the path is inside of.
fn one_leads(
    alloc: Global,
    folder: &str,
    path: &str,
    fields: &Table,
    key: &str,
) -> Result<bool, AllocError>
    ensures { IfOk result (λ leads. leads ≡ list_any (leads_to folder.now path.now)
        (texts_at key.now (table_view fields.now))) }
{
    match value_at(fields, key) {
        Some(Value::Array(items)) => one_of_leads(alloc, folder, path, items),
        _ => Ok(false),
    }
}

/// Whether a text of an array does.
fn one_of_leads(alloc: Global, folder: &str, path: &str, items: &Array) -> Result<bool, AllocError>
    ensures { IfOk result (λ leads. leads
        ≡ list_any (leads_to folder.now path.now) (texts_in (array_view items.now))) }
{
    for item in items {
        if let Value::String(text) = item {
            if leads_to(alloc, folder, path, text.as_str())? {
                return Ok(true);
            }
        }
    }
    Ok(false)
}

/// Whether a text leads, from a folder, to one that the path is inside of.
fn leads_to(alloc: Global, folder: &str, path: &str, text: &str) -> Result<bool, AllocError>
    ensures { IfOk result (λ leads. leads ≡ leads_to folder.now path.now text.now) }
{
    let led = within(alloc, folder, text)?;
    Ok(is_inside(led.as_str(), path))
}

/// Whether a path is that of a folder, or inside it.
fn is_inside(folder: &str, path: &str) -> bool
    ensures { result ≡ is_inside folder.now path.now }
{
    path == folder || under(path, folder) != path
}

/// The folder in which cargo starts to look.
fn start(alloc: Global, manifest_path: Option<&str>, dir: &str) -> Result<String, AllocError>
    ensures { IfOk result (λ start. string_bytes start
        ≡ start_at (option_map (λ path. path.now) manifest_path.entry) dir.now) }
{
    match manifest_path {
        Some(path) => {
            let path = within(alloc, dir, path)?;
            String::from_str(alloc, parent(path.as_str()))
        }
        None => String::from_str(alloc, dir),
    }
}

/// A path that is given relative to a folder.
pub(crate) fn within(alloc: Global, folder: &str, path: &str) -> Result<String, AllocError>
    ensures { IfOk result (λ full. string_bytes full ≡ normal_of (join_of folder.now path.now)) }
{
    let path = join(alloc, folder, path)?;
    normal(alloc, path.as_str())
}

/// What the manifest in a folder says of a package's workspace.
#[derive(Drop)]
pub enum Said {
    /// The manifest is the workspace's itself.
    Here,
    /// It is that of a workspace which leaves the package out.
    Out,
    /// That of the workspace is in another folder, by `package.workspace`.
    At(String),
    /// It doesn't say, is no manifest, or there is none.
    Nothing,
}

/// What is said in a folder.
fn said_at<F: Files>(
    alloc: Global,
    folder: &str,
    pkg_dir: &str,
    files: &mut F,
) -> Result<Said, LookFault>
    ensures found { IfOk result (λ said. F.tells
        → saying said ≡ saying_in (F.bytes_at files.old) pkg_dir.now folder.now) }
    ensures counted { AreLooksCounted (F.failed files.old) (F.failed files.new) result }
    ensures seen { AreLooksSeen F.Files files.old files.new result }
    ensures named { IfErr result (IsOfPath (join_of folder.now (codes "Cargo.toml"))) }
    ensures same { F.tells → KeepsAll (F.bytes_at files.old) (F.bytes_at files.new) }
    ensures untraced { F.whole → Makes [] (F.trace files.old) (F.trace files.new)
        (F.bytes_at files.old) (F.bytes_at files.new) }
{
    match manifest(alloc, folder, files)? {
        Some(bytes) => Ok(said_by(alloc, folder, pkg_dir, bytes.as_slice())?),
        None => Ok(Said::Nothing),
    }
}

/// What a manifest of these bytes says.
fn said_by(alloc: Global, folder: &str, pkg_dir: &str, bytes: &[u8]) -> Result<Said, AllocError>
    ensures { IfOk result (λ said. saying said ≡ bytes_say folder.now pkg_dir.now bytes.now) }
{
    match str::from_utf8(bytes) {
        Ok(text) => said_by_text(alloc, folder, pkg_dir, text),
        Err(_) => Ok(said_by_torn(bytes)),
    }
}

/// What a manifest of this text says.
fn said_by_text(alloc: Global, folder: &str, pkg_dir: &str, text: &str) -> Result<Said, AllocError>
    ensures { IfOk result (λ said. saying said ≡ text_says folder.now pkg_dir.now text.now) }
{
    match toml::table_from_str(alloc, text) {
        Ok(tree) => said_by_tree(alloc, folder, pkg_dir, &tree),
        Err(e) if e.is_memory() => Err(AllocError),
        Err(_) => Ok(said_by_torn(text.as_bytes())),
    }
}

/// What is said by a manifest that is no text or no TOML: it is the workspace's own where the beginning
/// of a table `workspace` stands somewhere in it. A call that was killed may have cut it.
fn said_by_torn(bytes: &[u8]) -> Said
    ensures { saying result ≡ torn_says bytes.now }
{
    if has_table(bytes) {
        Said::Here
    } else {
        Said::Nothing
    }
}

/// Whether the beginning of a table `workspace` stands somewhere.
fn has_table(bytes: &[u8]) -> bool
    ensures { result ≡ has_part (codes "[workspace") bytes.now }
{
    let mut rest = bytes;
    while !rest.is_empty() {
        if rest.starts_with(b"[workspace") {
            return true;
        }
        rest = &rest[1..];
    }
    false
}

/// What the manifest with this tree says.
fn said_by_tree(
    alloc: Global,
    folder: &str,
    pkg_dir: &str,
    tree: &Table,
) -> Result<Said, AllocError>
    ensures { IfOk result (λ said. saying said
        ≡ tree_says folder.now pkg_dir.now (table_view tree.now)) }
{
    if let Some(fields) = find_table(tree, "workspace") {
        return said_by_workspace(alloc, folder, pkg_dir, fields);
    }
    match find_table(tree, "package") {
        Some(fields) => said_by_package(alloc, fields),
        None => Ok(Said::Nothing),
    }
}

/// What the table `workspace` says.
fn said_by_workspace(
    alloc: Global,
    folder: &str,
    pkg_dir: &str,
    fields: &Table,
) -> Result<Said, AllocError>
    ensures { IfOk result (λ said. saying said
        ≡ workspace_says folder.now pkg_dir.now (table_view fields.now)) }
{
    if fields_leave_out(alloc, folder, pkg_dir, fields)? {
        Ok(Said::Out)
    } else {
        Ok(Said::Here)
    }
}

/// What the table `package` says.
fn said_by_package(alloc: Global, table: &Table) -> Result<Said, AllocError>
    ensures { IfOk result (λ said. saying said
        ≡ field_says (get_member (codes "workspace") (table_view table.now))) }
{
    match value_at(table, "workspace") {
        None => Ok(Said::Nothing),
        Some(Value::String(path)) => Ok(Said::At(String::from_str(alloc, path.as_str())?)),
        Some(_) => Ok(Said::Nothing),
    }
}

/// The bytes of the manifest in a folder, if there is one.
#[tactic(auto, using(hack_files::proofs::FilesLemmas::trace_steps))]
fn manifest<F: Files>(
    alloc: Global,
    folder: &str,
    files: &mut F,
) -> Result<Option<Vec<u8>>, LookFault>
    ensures found { IfOk result (λ found. F.tells
        → option_map (λ bytes. bytes.items) found ≡ manifest_in (F.bytes_at files.old) folder.now) }
    ensures counted { AreLooksCounted (F.failed files.old) (F.failed files.new) result }
    ensures seen { AreLooksSeen F.Files files.old files.new result }
    ensures named { IfErr result (IsOfPath (join_of folder.now (codes "Cargo.toml"))) }
    ensures same { F.tells → KeepsAll (F.bytes_at files.old) (F.bytes_at files.new) }
    ensures untraced { F.whole → Makes [] (F.trace files.old) (F.trace files.new)
        (F.bytes_at files.old) (F.bytes_at files.new) }
{
    let path = join(alloc, folder, "Cargo.toml")?;
    held(alloc, path.as_str(), files)
}

/// The bytes of a file as text, where they are text.
pub(crate) fn text_of(bytes: Option<Vec<u8>>) -> Option<String>
    ensures { optional_text result ≡ text_in_bytes (option_map (λ bytes. bytes.items) bytes) }
{
    match bytes {
        Some(bytes) => match String::from_utf8(bytes) {
            Ok(text) => Some(text),
            Err(_) => None,
        },
        None => None,
    }
}
