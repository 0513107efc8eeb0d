//! The pieces that texts are cut into, one line for each: the names of its path, each after a `/`,
//! and its text. What remains after the last piece comes last, after `tail`.

use crate::tests::manifest::on;
use crate::tests::text::{plain, push_shown};
use hack_holds::Wrong;
use hack_manifest::manifest::{Piece, Pieces, cut_is_one, pieces_join};
use std::alloc::{AllocError, Global};

pub fn cut(alloc: Global, text: &str) -> Result<String, AllocError> {
    let text = plain(alloc, text)?;
    match Pieces::cut(alloc, text.as_str()) {
        Ok(cut) => all(alloc, &cut),
        Err(fault) => format!(in alloc; "{fault:?}: {fault}"),
    }
}

fn all(alloc: Global, cut: &Pieces<'_>) -> Result<String, AllocError> {
    let mut lines = String::new(alloc);
    for piece in &cut.pieces {
        push_line(&mut lines, piece)?;
    }
    if !cut.tail.is_empty() {
        lines.push_str("tail: ")?;
        push_shown(&mut lines, cut.tail)?;
        return Ok(lines);
    }
    let _ = lines.pop();
    Ok(lines)
}

fn push_line(lines: &mut String, piece: &Piece<'_>) -> Result<(), AllocError> {
    for name in &piece.path {
        lines.push('/')?;
        lines.push_str(name.as_str())?;
    }
    lines.push_str(": ")?;
    push_shown(lines, piece.text)?;
    lines.push('\n')
}

#[test]
fn headers_and_keys(rt: HostRuntime) -> Result<(), Wrong> {
    on(
        rt.alloc(),
        r#"
            > cut
            |
            > cut # a\n\n
            | tail: # a\n\n
            > cut [a]\nb = 1\nc.d . e = 2
            | /a: [a]\n
            | /a/b: b = 1\n
            | /a/c/d/e: c.d . e = 2
            > cut b = 1\n[a]\n[c.d]\ne = 1\n
            | /b: b = 1\n
            | /a: [a]\n
            | /c/d: [c.d]\n
            | /c/d/e: e = 1\n
            > cut [[a]]\nb = 1\n[[a]]\n[[a.c]]
            | /a: [[a]]\n
            | /a/b: b = 1\n
            | /a: [[a]]\n
            | /a/c: [[a.c]]
            > cut  [ a . "b.c" . 'd' ] # e\n\tf=1
            | /a/b.c/d:  [ a . "b.c" . 'd' ] # e\n
            | /a/b.c/d/f: \tf=1
            > cut "=" = 1\n'#' = 2\n"" = 3\n["["]
            | /=: "=" = 1\n
            | /#: '#' = 2\n
            | /: "" = 3\n
            | /[: ["["]
            > cut package = { a = 1 }\nfeatures = {}\n
            | /package: package = { a = 1 }\n
            | /features: features = {}\n
        "#,
    )
}

#[test]
fn blank_lines_and_comments(rt: HostRuntime) -> Result<(), Wrong> {
    on(
        rt.alloc(),
        r"
            > cut [a]\r\nb = 1\r\n\r\n
            | /a: [a]\r\n
            | /a/b: b = 1\r\n
            | tail: \r\n
            > cut \b[a]\nb = 1\n
            | /a: \b[a]\n
            | /a/b: b = 1\n
            > cut \b# c\na = 1\n
            | /a: \b# c\na = 1\n
            > cut # x = 1\n\n \t[a] # [b]\n# [c]\nd = 1 # e\n# f = 1\n\n
            | /a: # x = 1\n\n \t[a] # [b]\n
            | /a/d: # [c]\nd = 1 # e\n
            | tail: # f = 1\n\n
        ",
    )
}

#[test]
fn values_over_several_lines(rt: HostRuntime) -> Result<(), Wrong> {
    on(
        rt.alloc(),
        r#"
            > cut a = """\n[b]\nc = 1\n"""\nd = '''\n=\n'''
            | /a: a = """\n[b]\nc = 1\n"""\n
            | /d: d = '''\n=\n'''
            > cut a = [\n  1, # ]\n\n  [2],\n]\nb = 1\n
            | /a: a = [\n  1, # ]\n\n  [2],\n]\n
            | /b: b = 1\n
            > cut a = [ # [b]\n]\n[b]\n
            | /a: a = [ # [b]\n]\n
            | /b: [b]\n
            > cut a = { b = [\n1\n], c = '=' }\n
            | /a: a = { b = [\n1\n], c = '=' }\n
        "#,
    )
}

#[test]
fn texts_that_are_no_toml(rt: HostRuntime) -> Result<(), Wrong> {
    pieces_join();
    cut_is_one();
    on(
        rt.alloc(),
        r#"
            > cut a
            | Toml: the text is not a TOML document
            > cut a =
            | Toml: the text is not a TOML document
            > cut [a
            | Toml: the text is not a TOML document
            > cut a = 1\na = 2\n
            | Toml: the text is not a TOML document
            > cut [a]\n[a]\n
            | Toml: the text is not a TOML document
            > cut a = """\n
            | Toml: the text is not a TOML document
        "#,
    )
}
