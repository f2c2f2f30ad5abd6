//! The labels of all vertices, in blocks of one vertex each.

ghost use Rattle.std.specs.Prelude.{◌≡◌, ◌≢◌, ℕ, ◌+◌, ◌<◌, ◌≤◌, ◌∷◌, ◌++◌, [], List, drop, length, IfOk};
ghost use Rattle.drt_columns.specs.Entries.{KeptLabel};
ghost use Rattle.drt_columns.specs.Seeking.{IsFoundLabel, IsSeek, IsSeeking};
ghost use Rattle.drt_columns.specs.Shelf.{entries, entries_in};

use crate::block::{Block, SLOTS, first_possible};
use crate::seek::{Seek, next_owned};
use drt_label::SAMPLES;
use std::alloc::{AllocError, Global};
use std::marker::Model;

/// The labels of vertices: a number and samples of each, in the order in which they came.
#[derive(Drop)]
pub struct Columns {
    count: usize,
    room: usize,
    owners: Vec<u32>,
    blocks: Vec<Block>,
    lasts: Vec<usize>,
    free: Vec<usize>,
}

impl Model for Columns {
    ghost use Rattle.drt_columns.specs.Shelf.{Shelf};

    ghost Value = { Shelf };

    ghost use Rattle.drt_columns.specs.Kept.{AreSlotsKept, shelf_of};

    ghost view = { shelf_of };

    ghost invariant = { AreSlotsKept };
}

impl Columns {
    /// No labels yet, of so many vertices, with room for so many. All memory is taken here.
    pub fn new(alloc: Global, vertices: u32, room: usize) -> Result<Columns, AllocError>
        requires vertices { vertices ≤ 1000 }
        requires room { room ≤ 2000000 }
        ensures vertices { IfOk result (λ c. c.vertices ≡ vertices) }
        ensures room { IfOk result (λ c. c.room ≡ room) }
        ensures count { IfOk result (λ c. c.count ≡ 0) }
        ensures entries { IfOk result (λ c. (vertex : ℕ) → entries c vertex ≡ []) }
    {
        let vertices = vertices as usize;
        let capacity = room / SLOTS + vertices + 1;
        let owners = Vec::with_capacity(alloc, capacity)?;
        let blocks = Vec::with_capacity(alloc, capacity)?;
        let lasts = vec![in alloc; 0; vertices]?;
        let free = vec![in alloc; 0; vertices]?;
        Ok(Columns {
            count: 0,
            room,
            owners,
            blocks,
            lasts,
            free,
        })
    }

    /// Adds a label. It takes no memory.
    pub fn push(&mut self, vertex: u32, number: u32, samples: [u16; SAMPLES])
        requires vertex { vertex < self.old.vertices }
        requires room { self.old.count < self.old.room }
        ensures entries { entries self.new vertex ≡ entries self.old vertex ++ record { number = number; samples = samples } ∷ [] }
        ensures others { (other : ℕ) → other ≢ vertex → entries self.new other ≡ entries self.old other }
        ensures count { self.new.count ≡ self.old.count + 1 }
        ensures room { self.new.room ≡ self.old.room }
        ensures vertices { self.new.vertices ≡ self.old.vertices }
    {
        self.count += 1;
        let free = self.free[vertex as usize];
        if free == 0 {
            let mut block = Block::new();
            block.push(number, &samples);
            self.lasts[vertex as usize] = self.blocks.len();
            self.free[vertex as usize] = SLOTS - 1;
            self.owners.push_reserved(vertex);
            self.blocks.push_reserved(block);
        } else {
            let last = self.lasts[vertex as usize];
            self.blocks[last].push(number, &samples);
            self.free[vertex as usize] = free - 1;
        }
    }

    /// A look at the labels of a vertex, for those none of whose samples is less than these.
    pub fn seek(&self, vertex: u32, samples: [u16; SAMPLES]) -> Seek
        requires { vertex < self.now.vertices }
        ensures { IsSeek self.now result samples (entries self.now vertex) }
    {
        self.seek_from(vertex, samples, 0)
    }

    // A look that begins at a block.
    fn seek_from(&self, vertex: u32, samples: [u16; SAMPLES], from: usize) -> Seek
        requires { from ≤ length self.now.blocks }
        ensures seek { IsSeek self.now result samples (entries_in vertex (drop from self.now.owners) (drop from self.now.blocks)) }
        ensures later { from ≤ result.block }
    {
        let block = next_owned(&self.owners, vertex, from);
        let possible = if block < self.blocks.len() {
            self.blocks[block].mask(&samples)
        } else {
            [0; SLOTS]
        };
        Seek {
            vertex,
            samples,
            block,
            slot: 0,
            possible,
        }
    }

    /// The number of the next label that isn't ruled out by its samples.
    pub fn next(&self, seek: &mut Seek) -> Option<u32>
        requires { IsSeeking self.now seek.old }
        ensures { (samples : List ℕ) (rest : List KeptLabel) → IsSeek self.now seek.old samples rest → IsFoundLabel self.now seek.new samples rest result }
    {
        while seek.block < self.blocks.len() {
            if let Some(slot) = first_possible(&seek.possible, seek.slot) {
                seek.slot = slot + 1;
                return Some(self.blocks[seek.block].number(slot));
            }
            *seek = self.seek_from(seek.vertex, seek.samples, seek.block + 1);
        }
        None
    }
}
