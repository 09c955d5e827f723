//! The edges between effects of one cell, and between the two parts of one cell of a copy.

ghost use Rattle.std.specs.Prelude.{◌≡◌, ◌++◌, ◌<◌, ℕ, Some, OnOk, length, if◌then◌else◌};
ghost use Rattle.order_edges.specs.Keyed.{place_key, key_cmp, mark_of_cell, marked, is_one_at};
ghost use Rattle.order_edges.specs.Keyed.{is_backwards, at_turn, link_to, link_if, keyed_edges};
ghost use Rattle.std.specs.BTreeMap.{get};

use crate::link::link;
use least_order::Edge;
use sc_base::Place;
use sc_meaning::SourceEvent;
use std::alloc::{AllocError, Global};
use std::collections::BTreeMap;

/// What is linked: the reading part of a copied cell to its writing part; the last write of a cell to what follows
/// it; or each read of a cell to the next write.
#[derive(Clone, Copy)]
pub enum Pairing {
    Copied,
    LastWrite,
    NextWrite,
}

type Key = (u64, u64, u64);

/// An effect under a key, and whether others with the key are linked to it, and it to them.
#[derive(Clone, Copy)]
pub struct Mark {
    pub key: Key,
    pub is_one: bool,
    pub has_one: bool,
}

fn place_key(place: Place) -> Key
    ensures { result ≡ place_key place }
{
    (
        u64::from(place.object),
        u64::from(place.node),
        u64::from(place.offset),
    )
}

fn mark_of_cell(pairing: Pairing, wrote: bool, place: Place) -> Option<Mark>
    ensures { result ≡ mark_of_cell pairing wrote place }
{
    match pairing {
        Pairing::Copied => None,
        Pairing::LastWrite => Some(Mark {
            key: place_key(place),
            is_one: wrote,
            has_one: true,
        }),
        Pairing::NextWrite => Some(Mark {
            key: place_key(place),
            is_one: wrote,
            has_one: !wrote,
        }),
    }
}

fn marked(pairing: Pairing, item: SourceEvent) -> Option<Mark>
    ensures { result ≡ marked pairing item }
{
    match item {
        SourceEvent::Do { wrote, place, .. } => mark_of_cell(pairing, wrote, place),
        SourceEvent::Effect {
            node,
            request,
            cell,
            wrote,
            place,
            ..
        } => {
            if matches!(pairing, Pairing::Copied) {
                Some(Mark {
                    key: (u64::from(node), request, u64::from(cell)),
                    is_one: !wrote,
                    has_one: wrote,
                })
            } else {
                mark_of_cell(pairing, wrote, place)
            }
        }
        _ => None,
    }
}

fn is_backwards(pairing: Pairing) -> bool
    ensures { result ≡ is_backwards pairing }
{
    matches!(pairing, Pairing::NextWrite)
}

/// The item that is taken on the turn: the next write is looked for from the last item on.
fn at_turn(pairing: Pairing, count: usize, turn: usize) -> usize
    requires { turn < count }
    ensures is { result ≡ at_turn pairing count turn }
    ensures within { result < count }
{
    if is_backwards(pairing) {
        count - 1 - turn
    } else {
        turn
    }
}

/// Adds the edge between the item and the one that is linked to it.
fn link_to(
    edges: &mut Vec<Edge>,
    pairing: Pairing,
    one: Option<usize>,
    at: usize,
) -> Result<(), AllocError>
    ensures { OnOk result (edges.new.items ≡ edges.old.items ++ link_to pairing one at) }
{
    if is_backwards(pairing) {
        link(edges, Some(at), one)
    } else {
        link(edges, one, Some(at))
    }
}

/// Adds the edge between the item with the mark and the one of these with its key.
fn link_marked(
    edges: &mut Vec<Edge>,
    pairing: Pairing,
    ones: &BTreeMap<Key, usize>,
    mark: Option<Mark>,
    at: usize,
) -> Result<(), AllocError>
    ensures { OnOk result (edges.new.items ≡ edges.old.items ++ link_if pairing mark (get key_cmp ones.now) at) }
{
    let Some(mark) = mark else {
        return Ok(());
    };
    if !mark.has_one {
        return Ok(());
    }
    link_to(edges, pairing, ones.get(&mark.key).copied(), at)
}

/// Notes the item under its key, if others are to be linked to it.
fn note(ones: &mut BTreeMap<Key, usize>, mark: Option<Mark>, at: usize) -> Result<(), AllocError>
    ensures { OnOk result ((key : ℕ × ℕ × ℕ) → get key_cmp ones.new key
        ≡ (if is_one_at mark key then Some at else get key_cmp ones.old key)) }
{
    let Some(mark) = mark else {
        return Ok(());
    };
    if mark.is_one {
        ones.insert(mark.key, at)?;
    }
    Ok(())
}

/// Adds the edges at the items, which are taken from the last on where the next write is looked for.
pub fn add_keyed(
    alloc: Global,
    edges: &mut Vec<Edge>,
    items: &[SourceEvent],
    pairing: Pairing,
) -> Result<(), AllocError>
    ensures { OnOk result (edges.new.items ≡ edges.old.items ++ keyed_edges pairing items.now (length items.now)) }
{
    let mut ones = BTreeMap::new(alloc);
    for turn in 0..items.len() {
        let at = at_turn(pairing, items.len(), turn);
        let mark = marked(pairing, items[at]);
        link_marked(edges, pairing, &ones, mark, at)?;
        note(&mut ones, mark, at)?;
    }
    Ok(())
}
