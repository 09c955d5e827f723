//! A layout: where the cells of the declared objects lie.

ghost use Rattle.std.specs.Prelude.{◌≡◌, ◌<◌, ◌↔◌, Some, length, slice_get, IsTrue, IfOk, IsSomeAnd};
ghost use Rattle.std.specs.Option.{option_map};
ghost use Rattle.sc_layout.specs.Layout.{IsLayout};
ghost use Rattle.sc_layout.specs.Small.{IsSmall};
ghost use Rattle.sc_layout.specs.Place.{IsPlace, IsPointerTo, Fits, extent_of, place_of, bound_at};

use crate::objects::Object;
use sc_base::{Place, Shape, Star, Ty, Value};
use std::alloc::{AllocError, Global};
use std::marker::Model;

/// Where the cells of the declared objects lie on the nodes, seen as the number of nodes and the list of shapes
/// with the values of their bounds.
#[derive(Debug, Drop)]
pub struct Layout {
    nodes: u32,
    objects: Vec<Object>,
}

impl Model for Layout {
    ghost use Rattle.sc_layout.specs.Layout.{Arrangement, IsLayout};

    ghost Value = { Arrangement };

    ghost view = { λ a. record { nodes = a.nodes; objects = a.objects.items } };

    ghost invariant = { λ a. IsLayout (record { nodes = a.nodes; objects = a.objects.items }) };
}

impl Layout {
    /// The layout of these objects.
    pub(crate) fn of(nodes: u32, objects: Vec<Object>) -> Layout
        requires { IsLayout (record { nodes = nodes; objects = objects.items }) }
        ensures { result ≡ record { nodes = nodes; objects = objects.items } }
    {
        Layout { nodes, objects }
    }

    /// A layout of its own with the same objects.
    pub fn copy(&self, alloc: Global) -> Result<Layout, AllocError>
        ensures { IfOk result (λ copy. copy ≡ self.now) }
    {
        let objects = copy_of_objects(alloc, self.objects.as_slice())?;
        Ok(Layout {
            nodes: self.nodes,
            objects,
        })
    }

    /// The number of nodes.
    pub fn nodes(&self) -> u32
        ensures { result ≡ self.now.nodes }
    {
        self.nodes
    }

    /// The number of objects. Each layout is that of its shapes.
    pub fn count(&self) -> u32
        ensures count { result ≡ length self.now.objects }
        ensures lawful { IsLayout self.now }
    {
        self.objects.len() as u32
    }

    /// The number of the object's cells on the node.
    pub fn extent(&self, node: u32, object: u32) -> u32
        requires node { node < self.now.nodes }
        requires object { object < length self.now.objects }
        ensures { result ≡ extent_of self.now node object }
    {
        self.object(object).cells_on(self.nodes, node)
    }

    /// The object's shape.
    pub fn shape(&self, object: u32) -> &Shape
        requires { object < length self.now.objects }
        ensures { option_map (λ o. o.shape) (slice_get self.now.objects object) ≡ Some result.now }
    {
        self.object(object).shape()
    }

    /// The value of the object's dimension, counted from 0 with the left ones first; None past the last one.
    pub fn bound(&self, object: u32, dimension: u32) -> Option<u64>
        requires { object < length self.now.objects }
        ensures { result ≡ bound_at self.now object dimension }
    {
        self.object(object)
            .bounds()
            .get(dimension as usize)
            .copied()
    }

    /// The place of the cell with this flat row-major index, on `node` for an ordinary object; None past the
    /// object's last cell.
    pub fn place_of(&self, node: u32, object: u32, index: u64) -> Option<Place>
        requires node { node < self.now.nodes }
        requires object { object < length self.now.objects }
        ensures { result ≡ place_of self.now node object index }
    {
        self.object(object).place(self.nodes, node, object, index)
    }

    /// Whether the value may stand in the place's cell: a whole number in one of type int, and null or a
    /// pointer to a cell of the right type in one of a pointer type.
    pub fn fits(&self, place: Place, value: Value) -> bool
        requires { IsPlace self.now place }
        ensures { IsTrue result ↔ Fits self.now place value }
    {
        let ty = &self.object(place.object).shape().ty;
        match value {
            Value::Int(_) => ty.stars.as_slice().is_empty(),
            Value::Null => !ty.stars.as_slice().is_empty(),
            Value::Ptr {
                object,
                node,
                offset: _,
            } => node < self.nodes && self.is_pointer_to(ty, object),
        }
    }

    fn is_pointer_to(&self, ty: &Ty, object: u32) -> bool
        ensures { IsTrue result ↔ IsSomeAnd (slice_get self.now.objects object) (λ o. IsPointerTo o.shape.ty ty.now) }
    {
        if object as usize >= self.objects.len() {
            return false;
        }
        let cell = &self.object(object).shape().ty;
        match ty.stars.as_slice().split_last() {
            Some((_, rest)) => same_stars(rest, cell.stars.as_slice()) && ty.void == cell.void,
            None => false,
        }
    }

    fn object(&self, object: u32) -> &Object
        requires { object < length self.now.objects }
        ensures found { slice_get self.now.objects object ≡ Some result.now }
        ensures small { IsSmall self.now.nodes result.now }
    {
        // Read for the proof alone, which learns so that it fits its type.
        let _nodes = self.nodes;
        &self.objects[object as usize]
    }
}

fn copy_of_objects(alloc: Global, objects: &[Object]) -> Result<Vec<Object>, AllocError>
    ensures { IfOk result (λ copy. copy.items ≡ objects.now) }
{
    let mut copies = Vec::new(alloc);
    for object in objects {
        copies.push(object.copy(alloc)?)?;
    }
    Ok(copies)
}

fn same_stars(a: &[Star], b: &[Star]) -> bool
    ensures { IsTrue result ↔ (a.now ≡ b.now) }
{
    a == b
}
