//! Parts of flows by hand, and what stands in rows.

use site_graph::{BitRows, Edge, Edges, Site, SiteKind, Sites};
use sqlite_items::Items;
use std::alloc::{AllocError, Global};

/// Sites of these kinds, which read and write no object.
pub fn sites_of(alloc: Global, kinds: &[SiteKind]) -> Result<Sites, AllocError> {
    let mut sites = Items::new(alloc);
    for kind in kinds {
        sites.push(Site {
            kind: *kind,
            line: 1,
            reads: None,
            writes: None,
            fills: None,
        })?;
    }
    Ok(sites)
}

pub fn edges_of(alloc: Global, pairs: &[(u32, u32)]) -> Result<Edges, AllocError> {
    let mut edges = Items::new(alloc);
    for (from, to) in pairs {
        edges.push(Edge {
            from: *from,
            to: *to,
        })?;
    }
    Ok(edges)
}

pub fn is_set(rows: &BitRows, row: u32, column: u32) -> bool {
    row < rows.rows() && column < rows.columns() && rows.get(row, column)
}
