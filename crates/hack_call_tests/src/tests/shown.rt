//! Notices and names as text.

use hack_base::notice::{Notice, NoticeKind};
use hack_metadata::metadata::{Metadata, PackageId};
use std::alloc::AllocError;

fn kind_of(notice: &Notice) -> &'static str {
    match notice.kind {
        NoticeKind::Info => "\ninfo: ",
        NoticeKind::Warn => "\nwarning: ",
        NoticeKind::QuietWarn => "\nquiet: ",
    }
}

/// Appends the notices to the text, one line for each.
pub fn push_notices(text: &mut String, notices: &[Notice]) -> Result<(), AllocError> {
    for notice in notices {
        text.push_str(kind_of(notice))?;
        text.push_str(notice.text.as_str())?;
    }
    Ok(())
}

/// The name of a package.
pub fn name_of(metadata: &Metadata, id: PackageId) -> &str {
    match metadata.find(id) {
        Some(package) => package.name.as_str(),
        None => "unknown",
    }
}
