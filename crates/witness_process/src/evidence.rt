//! Evidence in its place.

use crate::context::Context;
use challenge::Evidence;
use std::alloc::{AllocError, Global};
use std::io::Write;
use std::sync::Wait;
use std::time::Clock;
use watching::{NodeTold, Shelf, write_case};
use witness_books::Indication;

/// The name of the file with the evidence against a node that is exposed, which is put in its place unless it is there;
/// none of another node, where no folder is named, or where it can't be put there, which is said.
pub(crate) fn shown_in<R, T, W, E, S>(
    context: Context<'_, R, T, W, E, S>,
    told: &NodeTold,
) -> Result<Option<String>, AllocError>
where
    R: Wait,
    T: Clock,
    W: Write,
    E: Write,
    S: Shelf,
{
    let Some(folder) = context.settings.evidence else {
        return Ok(None);
    };
    if told.indication != Indication::Exposed {
        return Ok(None);
    }
    let name = evidence_name(context.alloc, folder, told.node)?;
    if is_put(context, told.node, &name)? {
        Ok(Some(name))
    } else {
        Ok(None)
    }
}

/// Puts the evidence against a node in its place unless it is there. Says whether it is there then.
fn is_put<R, T, W, E, S>(
    context: Context<'_, R, T, W, E, S>,
    node: u32,
    name: &str,
) -> Result<bool, AllocError>
where
    R: Wait,
    T: Clock,
    W: Write,
    E: Write,
    S: Shelf,
{
    if context.lock().has_evidence(node) {
        return Ok(true);
    }
    let found = context.lock().evidence(context.alloc, node)?;
    let Some(evidence) = found else {
        return Ok(false);
    };
    put(context, node, name, &evidence)
}

/// Puts the evidence against a node in its place. What goes wrong is said.
fn put<R, T, W, E, S>(
    context: Context<'_, R, T, W, E, S>,
    node: u32,
    name: &str,
    evidence: &Evidence,
) -> Result<bool, AllocError>
where
    R: Wait,
    T: Clock,
    W: Write,
    E: Write,
    S: Shelf,
{
    let mut text = Vec::new(context.alloc);
    write_case(context.roster, evidence, &mut text)?;
    let put = context.shelf.lock(context.rt).put(name, &text);
    match put {
        Ok(()) => {
            context.lock().note_evidence(node);
            Ok(true)
        }
        Err(error) => {
            let line = format!(in context.alloc; "nfsacc: {name}: {error}\n");
            context.output.lock(context.rt).say(line);
            Ok(false)
        }
    }
}

/// The name of the file with the evidence against a node.
fn evidence_name(alloc: Global, folder: &str, node: u32) -> Result<String, AllocError> {
    format!(in alloc; "{folder}/node-{node}.evidence")
}
