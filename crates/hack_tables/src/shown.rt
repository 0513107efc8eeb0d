//! Notices and arguments as texts.

use hack_features::Feature;
use hack_partition::partition::PartitionKind;
use hack_words::cli::{Args, WorkspaceBehavior};
use hack_words::term::{Coloring, LogGroup, Notice, NoticeKind};
use std::alloc::{AllocError, Global};

/// For each notice a line feed, its kind and its text.
pub(crate) fn notices_text(alloc: Global, notices: &[Notice]) -> Result<String, AllocError> {
    let mut text = String::new(alloc);
    for notice in notices {
        text.push_str(match notice.kind {
            NoticeKind::Info => "\ninfo: ",
            NoticeKind::Warn => "\nwarn: ",
            NoticeKind::QuietWarn => "\nquiet: ",
        })?;
        text.push_str(notice.text.as_str())?;
    }
    Ok(text)
}

/// The names of fields with their values, separated by `; `.
#[derive(Drop)]
struct Fields {
    text: String,
}

impl Fields {
    fn name(&mut self, name: &str) -> Result<(), AllocError> {
        if !self.text.is_empty() {
            self.text.push_str("; ")?;
        }
        self.text.push_str(name)
    }

    fn text(&mut self, name: &str, value: &str) -> Result<(), AllocError> {
        self.name(name)?;
        self.text.push_str("=")?;
        self.text.push_str(value)
    }

    /// A field that has a value.
    fn option(&mut self, name: &str, value: Option<&String>) -> Result<(), AllocError> {
        match value {
            Some(value) => self.text(name, value.as_str()),
            None => Ok(()),
        }
    }

    /// The names of the fields that are true.
    fn flags(&mut self, flags: &[(bool, &str)]) -> Result<(), AllocError> {
        for (is_set, name) in flags {
            if *is_set {
                self.name(*name)?;
            }
        }
        Ok(())
    }

    /// The texts of a list, each after `=` or `|`.
    fn values(&mut self, texts: &[String]) -> Result<(), AllocError> {
        for (place, text) in texts.iter().enumerate() {
            self.text.push_str(if place == 0 { "=" } else { "|" })?;
            self.text.push_str(text.as_str())?;
        }
        Ok(())
    }

    /// A list that isn't empty.
    fn texts(&mut self, name: &str, texts: &[String]) -> Result<(), AllocError> {
        if texts.is_empty() {
            return Ok(());
        }
        self.name(name)?;
        self.values(texts)
    }

    /// Features, unless there are none.
    fn features(
        &mut self,
        alloc: Global,
        name: &str,
        features: &[Feature],
    ) -> Result<(), AllocError> {
        let mut texts = Vec::new(alloc);
        for feature in features {
            texts.push(format!(in alloc; "{feature:?}")?)?;
        }
        self.texts(name, &texts)
    }

    /// Packages, each with the group that is lifted for it.
    fn lifts(&mut self, alloc: Global, lifts: &[(String, Feature)]) -> Result<(), AllocError> {
        let mut texts = Vec::new(alloc);
        for (package, group) in lifts {
            texts.push(format!(in alloc; "{package}:{group:?}")?)?;
        }
        self.texts("allow_together", &texts)
    }
}

/// Fields with texts.
fn show_texts(fields: &mut Fields, args: &Args) -> Result<(), AllocError> {
    fields.texts("leading_args", &args.leading_args)?;
    fields.texts("trailing_args", &args.trailing_args)?;
    fields.option("subcommand", args.subcommand.as_ref())?;
    fields.option("manifest_path", args.manifest_path.as_ref())?;
    fields.texts("package", &args.package)?;
    fields.texts("exclude", &args.exclude)?;
    fields.texts("features", &args.features)?;
    fields.texts("exclude_features", &args.exclude_features)?;
    fields.texts("target", &args.target)?;
    if let Some(names) = &args.optional_deps {
        fields.name("optional_deps")?;
        fields.values(names)?;
    }
    Ok(())
}

/// Fields with features and groups of them.
fn show_features(alloc: Global, fields: &mut Fields, args: &Args) -> Result<(), AllocError> {
    fields.features(alloc, "include_features", &args.include_features)?;
    fields.features(alloc, "group_features", &args.group_features)?;
    let exclusive = &args.mutually_exclusive_features;
    fields.features(alloc, "mutually_exclusive_features", exclusive)?;
    fields.lifts(alloc, &args.allow_together)?;
    fields.features(alloc, "at_least_one_of", &args.at_least_one_of)
}

/// Fields with numbers.
fn show_numbers(alloc: Global, fields: &mut Fields, args: &Args) -> Result<(), AllocError> {
    if let Some(depth) = args.depth {
        fields.text("depth", format!(in alloc; "{depth}")?.as_str())?;
    }
    if let Some(strength) = args.strength {
        fields.text("strength", format!(in alloc; "{strength}")?.as_str())?;
    }
    if let Some(parallel) = args.parallel {
        fields.text("parallel", format!(in alloc; "{parallel}")?.as_str())?;
    }
    if let Some(most) = args.most_runs {
        fields.text("most_runs", format!(in alloc; "{most}")?.as_str())?;
    }
    if let Some(piece) = args.partition {
        let text = format!(in alloc; "{}/{}", piece.piece, piece.count)?;
        fields.text("partition", text.as_str())?;
        if piece.kind == PartitionKind::Turn {
            fields.name("in turn")?;
        }
    }
    if let Some(range) = args.version_range {
        fields.text("version_range", format!(in alloc; "{range}")?.as_str())?;
    }
    if args.version_step != 1 {
        let step = args.version_step;
        fields.text("version_step", format!(in alloc; "{step}")?.as_str())?;
    }
    Ok(())
}

/// Fields with two or three possible values.
fn show_ways(fields: &mut Fields, args: &Args) -> Result<(), AllocError> {
    fields.flags(&[
        (args.log_group == LogGroup::GithubActions, "github-actions"),
        (args.workspace_behavior == WorkspaceBehavior::Cargo, "cargo"),
        (args.coloring == Coloring::Always, "always"),
        (args.coloring == Coloring::Never, "never"),
    ])
}

/// Fields that are true or false.
fn show_flags(fields: &mut Fields, args: &Args) -> Result<(), AllocError> {
    fields.flags(&[
        (args.no_manifest_path, "no_manifest_path"),
        (args.locked, "locked"),
        (args.workspace, "workspace"),
        (args.each_feature, "each_feature"),
        (args.feature_powerset, "feature_powerset"),
        (args.no_dev_deps, "no_dev_deps"),
        (args.remove_dev_deps, "remove_dev_deps"),
        (args.restore, "restore"),
        (args.package_rules, "package_rules"),
        (args.find_rust_version, "find_rust_version"),
        (args.find_conflicts, "find_conflicts"),
        (args.no_private, "no_private"),
        (args.ignore_private, "ignore_private"),
        (args.ignore_unknown_features, "ignore_unknown_features"),
        (args.clean_per_run, "clean_per_run"),
        (args.clean_per_version, "clean_per_version"),
        (args.keep_going, "keep_going"),
        (args.print_command_list, "print_command_list"),
        (args.include_deps_features, "include_deps_features"),
        (
            args.exclude_no_default_features,
            "exclude_no_default_features",
        ),
        (args.exclude_all_features, "exclude_all_features"),
        (args.no_default_features, "no_default_features"),
        (args.verbose, "verbose"),
    ])
}

/// The fields that differ from those of a command line without options: first texts, then features,
/// numbers, fields with few values, and flags.
pub(crate) fn args_text(alloc: Global, args: &Args) -> Result<String, AllocError> {
    let mut fields = Fields {
        text: String::new(alloc),
    };
    show_texts(&mut fields, args)?;
    show_features(alloc, &mut fields, args)?;
    show_numbers(alloc, &mut fields, args)?;
    show_ways(&mut fields, args)?;
    show_flags(&mut fields, args)?;
    Ok(fields.text)
}
