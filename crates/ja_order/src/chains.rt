use crate::frame::Frame;
use crate::walk::Walk;
use ja_base::Memory;
use std::alloc::Global;

/// From at most how many locals a chain goes on.
const MOST_FOLLOWERS: usize = 3;

/// For each local how many locals are made from it.
fn follower_counts(alloc: Global, walk: &Walk, locals: usize) -> Result<Vec<usize>, Memory> {
    let mut counts = Vec::new(alloc);
    for local in 0..locals {
        counts.push(
            (0..locals)
                .filter(|other| walk.made(*other).has(local))
                .count(),
        )?;
    }
    Ok(counts)
}

/// The local that a local follows: the last one before it from which it is made, and from which few
/// are.
fn followed(walk: &Walk, counts: &[usize], local: usize) -> Option<usize> {
    let made = walk.made(local);
    let mut last = None;
    for before in 0..local {
        if made.has(before) && counts.get(before).copied().unwrap_or(0) <= MOST_FOLLOWERS {
            last = Some(before);
        }
    }
    last
}

/// The first local of the chain of each local. Those of parameters follow none.
pub fn roots_of(alloc: Global, walk: &Walk, frame: Frame) -> Result<Vec<usize>, Memory> {
    let counts = follower_counts(alloc, walk, frame.locals)?;
    let mut roots = Vec::new(alloc);
    for local in 0..frame.locals {
        let mut root = local;
        if local >= frame.params {
            if let Some(before) = followed(walk, counts.as_slice(), local) {
                root = roots.get(before).copied().unwrap_or(local);
            }
        }
        roots.push(root)?;
    }
    Ok(roots)
}

/// The place on the stack of the values that weigh most of those that are made from some local of a
/// chain.
fn heaviest_value(walk: &Walk, roots: &[usize], root: usize, stack: usize) -> Option<usize> {
    let mut most = 0;
    let mut best = None;
    for local in 0..roots.len() {
        if roots[local] == root {
            for value in 0..stack {
                if walk.weight(value, local) > most {
                    most = walk.weight(value, local);
                    best = Some(value);
                }
            }
        }
    }
    best
}

/// For each chain, by its first local, a number by which chains are sorted: the place of its heaviest
/// value. The chain of local 0 is the first, those of parameters rise, and those without such a value
/// are the last.
pub fn keys_of(
    alloc: Global,
    walk: &Walk,
    frame: Frame,
    roots: &[usize],
) -> Result<Vec<usize>, Memory> {
    let mut keys = Vec::new(alloc);
    let mut highest = 0;
    for root in 0..roots.len() {
        let heaviest = heaviest_value(walk, roots, root, frame.stack);
        if root == 0 {
            keys.push(0)?;
        } else if root < frame.params {
            highest = highest.max(heaviest.unwrap_or(0));
            keys.push(highest)?;
        } else {
            keys.push(heaviest.unwrap_or(frame.stack))?;
        }
    }
    Ok(keys)
}

/// Adds the locals of a chain to a list, in their order.
fn add_chain(ranked: &mut Vec<usize>, roots: &[usize], root: usize) -> Result<(), Memory> {
    for local in 0..roots.len() {
        if roots[local] == root {
            ranked.push(local)?;
        }
    }
    Ok(())
}

/// The locals in order: the chains by their numbers and then by their first locals, and in each the
/// locals as they are.
pub fn ranked_locals(
    alloc: Global,
    roots: &[usize],
    keys: &[usize],
    last: usize,
) -> Result<Vec<usize>, Memory> {
    let mut ranked = Vec::new(alloc);
    for key in 0..last.saturating_add(1) {
        for root in 0..roots.len() {
            if roots[root] == root && keys.get(root) == Some(&key) {
                add_chain(&mut ranked, roots, root)?;
            }
        }
    }
    Ok(ranked)
}
