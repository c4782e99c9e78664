//! The rows of a certificate, by their kinds.

ghost use Rattle.std.specs.Prelude.{◌≤◌, IfOk};
ghost use Rattle.certificate.specs.Rows.{HasNoRow, HasRoomFor};

use definitions::NetArc;
use std::alloc::{AllocError, Global};

/// The arcs with their volumes in units, and the nodes with their demand in units, their labels in
/// ticks and their waits in ticks times units.
#[derive(Drop)]
pub struct Rows {
    pub arcs: Vec<NetArc>,
    pub demand: Vec<u64>,
    pub labels: Vec<u64>,
    pub volumes: Vec<u64>,
    pub waits: Vec<u128>,
}

impl Rows {
    /// No rows, and no room for any.
    pub fn new(alloc: Global) -> Rows
        ensures none { HasNoRow result }
    {
        Rows {
            arcs: Vec::new(alloc),
            demand: Vec::new(alloc),
            labels: Vec::new(alloc),
            volumes: Vec::new(alloc),
            waits: Vec::new(alloc),
        }
    }

    /// No rows, and room for so many nodes and arcs.
    pub fn with_room(alloc: Global, nodes: u32, arcs: u32) -> Result<Rows, AllocError>
        ensures none { IfOk result HasNoRow }
        ensures room { IfOk result (HasRoomFor nodes arcs) }
    {
        Ok(Rows {
            arcs: Vec::with_capacity(alloc, arcs as usize)?,
            demand: Vec::with_capacity(alloc, nodes as usize)?,
            labels: Vec::with_capacity(alloc, nodes as usize)?,
            volumes: Vec::with_capacity(alloc, arcs as usize)?,
            waits: Vec::with_capacity(alloc, nodes as usize)?,
        })
    }
}
