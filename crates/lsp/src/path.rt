//! PATHs of nodes, arguments and properties, as `kdl get` takes them.

use crate::locate::Site;
use kdl::KdlIdentifier;
use std::alloc::{AllocError, Global};

/// What a PATH names of its node.
#[derive(Clone, Copy)]
pub(crate) enum Target<'d> {
    /// The node, or its argument 0.
    Node,
    /// The argument at an index.
    Argument(usize),
    /// The last property of a name.
    Property(&'d str),
}

/// Returns the PATH of the last of some nodes, each in the block of the one before it, or of a part of it.
pub(crate) fn path_to(
    alloc: Global,
    sites: &[Site<'_>],
    target: Target<'_>,
) -> Result<String, AllocError> {
    let mut path = String::new(alloc);
    for site in sites {
        if !path.is_empty() {
            path.push('/')?;
        }
        push_step(alloc, &mut path, *site)?;
    }
    match target {
        Target::Node => {}
        Target::Argument(index) => path.push_str(&format!(in alloc; "#{index}")?)?,
        Target::Property(key) => {
            path.push_str("/@")?;
            push_name(alloc, &mut path, key)?;
        }
    }
    Ok(path)
}

/// Appends the name of a node, and its index among the nodes of that name, if it is not the first.
fn push_step(alloc: Global, path: &mut String, site: Site<'_>) -> Result<(), AllocError> {
    let name = site.node.name().value();
    push_name(alloc, path, name)?;
    let same = site.before.iter();
    match same.filter(|node| node.name().value() == name).count() {
        0 => Ok(()),
        index => path.push_str(&format!(in alloc; "[{index}]")?),
    }
}

/// Appends a name as it is printed, between quotes if it begins with `@`: no bare string has another character of PATHs.
fn push_name(alloc: Global, path: &mut String, name: &str) -> Result<(), AllocError> {
    let printed = KdlIdentifier::from_text(alloc, name)?.to_string(alloc)?;
    if printed.starts_with('@') {
        path.push_str(&format!(in alloc; "\"{printed}\"")?)
    } else {
        path.push_str(&printed)
    }
}
