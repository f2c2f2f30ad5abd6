//! The graph of a task.
ghost use Rattle.std.specs.Prelude.{◌≡◌, ◌<◌, IfOk, map};
ghost use Rattle.drt_model.specs.Digraph.{IsSoundGraph, vertex_count, vertex_of, out_degree, edge_of};
ghost use Rattle.drt_model.specs.Walk.{sep, sep_in};

use drt_model::{Edge, Memory, Vertex, copy_vertices};
use std::alloc::Global;
use std::marker::Model;

/// The graph of a task: its vertices, and the edges out of each in file order.
///
/// Contracts see it as a digraph that keeps the limits: 1 to 96 vertices, at most 256 edges, at most one from one vertex to
/// another, times of 1 to 1,000,000 ticks.
#[derive(Debug, Drop)]
pub struct Graph {
    pub(crate) vertices: Vec<Vertex>,
    pub(crate) out: Vec<Vec<Edge>>,
}

impl Model for Graph {
    ghost use Rattle.std.specs.Prelude.{map};
    ghost use Rattle.drt_model.specs.Digraph.{Digraph, IsSoundGraph};

    ghost Value = { Digraph };

    ghost view = { λ g. record { vertices = g.vertices.items; out = map (λ row. row.items) g.out.items } };

    ghost invariant = { λ g. IsSoundGraph (record { vertices = g.vertices.items; out = map (λ row. row.items) g.out.items }) };
}

impl Graph {
    /// How many vertices there are, 1 to 96.
    pub fn vertex_count(&self) -> u32
        ensures count { result ≡ vertex_count self.now }
        ensures sound { IsSoundGraph self.now }
    {
        self.vertices.len() as u32
    }

    /// Does nothing: the graph keeps its limits.
    pub fn keep_limits(&self)
        ensures { IsSoundGraph self.now }
    {
        let _count = self.vertex_count();
    }

    /// The vertex of number `v`.
    pub fn vertex(&self, v: u32) -> &Vertex
        requires { v < vertex_count self.now }
        ensures { result.now ≡ vertex_of self.now v }
    {
        &self.vertices[v as usize]
    }

    /// How many edges leave vertex `v`, at most 256.
    pub fn out_degree(&self, v: u32) -> u32
        requires { v < vertex_count self.now }
        ensures { result ≡ out_degree self.now v }
    {
        self.out[v as usize].len() as u32
    }

    /// Edge number `k` of those out of vertex `v`, in file order.
    pub fn out_edge(&self, v: u32, k: u32) -> &Edge
        requires vertex { v < vertex_count self.now }
        requires edge { k < out_degree self.now v }
        ensures { result.now ≡ edge_of self.now v k }
    {
        &self.out[v as usize][k as usize]
    }

    /// The separation of the edge from `u` to `v`, if there is one. It looks at each edge out of `u`.
    pub fn separation(&self, u: u32, v: u32) -> Option<u32>
        requires { u < vertex_count self.now }
        ensures { result ≡ sep self.now u v }
    {
        first_to(self.out[u as usize].as_slice(), v)
    }

    /// An equal graph.
    pub fn copy(&self, alloc: Global) -> Result<Graph, Memory>
        ensures { IfOk result (λ graph. graph ≡ self.now) }
    {
        let vertices = copy_vertices(alloc, self.vertices.as_slice())?;
        let out = copy_rows(alloc, self.out.as_slice())?;
        Ok(Graph { vertices, out })
    }
}

// The separation of the first edge that leads to `v`.
fn first_to(edges: &[Edge], v: u32) -> Option<u32>
    ensures { result ≡ sep_in edges.now v }
{
    for edge in edges {
        if edge.to == v {
            return Some(edge.sep);
        }
    }
    None
}

fn copy_rows(alloc: Global, rows: &[Vec<Edge>]) -> Result<Vec<Vec<Edge>>, Memory>
    ensures { IfOk result (λ out. map (λ row. row.items) out.items ≡ map (λ row. row.items) rows.now) }
{
    let mut out = Vec::with_capacity(alloc, rows.len())?;
    for row in rows {
        out.push(Vec::from_slice(alloc, row.as_slice())?)?;
    }
    Ok(out)
}
