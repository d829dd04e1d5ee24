//! The type of scenes, and what can be asked of one.

ghost use Rattle.std.specs.Prelude.{◌≡◌, ◌<◌, true, false, length, map, slice_get, option_map, Some, MatchOption, IfOk, IfErr, IfSome};
ghost use Rattle.evm_cells.specs.Vertices.{evm, cells};
ghost use Rattle.evm_rows.specs.Rows.{IsSolid};
ghost use Rattle.evm_model.specs.Scene.{start_with, stands, dim_of, is_input, value, IsWell};
ghost use Rattle.evm_formulas.specs.Stated.{figure_of};
ghost use Rattle.evm_scene.specs.Shown.{formula_of, Refuses};

use super::edit::{Entry, Refusal};
use super::node::Node;
use evm_meter::Meter;
use evm_rows::{NoMemory, Solid};
use evm_script::{Formula, Name};
use evm_tiles::Tiles;
use evm_watch::Slots;
use indexmap::IndexMap;
use std::alloc::Global;
use std::marker::Model;

/// Names in the order of their making, each an input or a formula over other names, and the solid of each, kept as a tree of tiles.
#[derive(Drop)]
pub struct Scene<M: Meter> {
    /// What each name stands for, in the order of their making.
    pub(crate) table: IndexMap<Name, Node>,
    /// The names in an order in which operands come first.
    pub(crate) order: Vec<Name>,
    /// The meters that were handed in, with the names that they watch.
    pub(crate) slots: Slots<M>,
}

impl<M: Meter> Model for Scene<M> {
    ghost use Rattle.evm_model.specs.Scene as model;
    ghost use Rattle.evm_scene.specs.Orders.{IsKept};
    ghost use Rattle.evm_scene.specs.Watched.{watched_scene, IsWatched};

    ghost Value = { model.Scene };

    ghost view = { λ a. watched_scene a.table.entries a.slots };

    ghost invariant = { λ a. IsKept a.table.entries a.order.items × IsWatched a.table.entries a.slots };
}

impl<M: Meter> Scene<M> {
    /// The scene without names, and a free slot for each of these meters, in their order. A reading that a meter comes with is not seen:
    /// nothing is read before its slot watches a name, and then the meter begins anew. Takes memory for the list of slots; after want
    /// of memory the meters are dropped.
    pub fn new(alloc: Global, meters: Vec<M>) -> Result<Scene<M>, NoMemory>
        ensures { IfOk result (λ s. s ≡ start_with (map (λ m. M.kind m) meters.items)) }
    {
        Ok(Scene {
            table: IndexMap::new(alloc),
            order: Vec::new(alloc),
            slots: Slots::new(alloc, meters)?,
        })
    }

    /// What the type keeps: names differ, each entry is sound, and the names can be put in an order in which operands come
    /// first. It does nothing, and is called where a proof needs these facts.
    pub fn facts(&self)
        ensures { IsWell self.now }
    {
        let _count = self.table.len();
    }

    /// The rows of the solid of a name. The refusal is `Name` exactly where the name does not stand, and else `NoMemory`, where
    /// there is none for the rows.
    pub fn solid(&self, alloc: Global, name: &Name) -> Result<Solid, Refusal>
        ensures ok { IfOk result
            (λ s. (stands self.now name.now ≡ true) × (figure_of s ≡ value self.now name.now)) }
        ensures err { IfErr result (λ e. Refuses e (stands self.now name.now ≡ false)) }
    {
        match self.kept(name) {
            Some(solid) => Ok(solid.to_rows(alloc)?),
            None => Err(Refusal::Name),
        }
    }

    /// The solid of a name as a tree of tiles, borrowed: none exactly where the name does not stand. Takes no memory.
    pub fn kept(&self, name: &Name) -> Option<&Tiles>
        ensures value { MatchOption result (stands self.now name.now ≡ false)
            (λ s. (stands self.now name.now ≡ true) × (figure_of s.now ≡ value self.now name.now)) }
        ensures dim { IfSome result (λ s. s.now.dim ≡ dim_of self.now name.now) }
        ensures solid { IfSome result (λ s. IsSolid s.now) }
        ensures vertices { IfSome result
            (λ s. s.now.rows ≡ evm s.now.dim (cells s.now.dim s.now.rows)) }
    {
        let Some(node) = self.table.get(name) else {
            return None;
        };
        node.solid.facts();
        Some(&node.solid)
    }

    /// How many names stand.
    pub fn count(&self) -> usize
        ensures { result ≡ length self.now.entries }
    {
        self.table.len()
    }

    /// The name that was made as the one after `k` others that still stand.
    pub fn name_at(&self, k: usize) -> &Name
        requires { k < length self.now.entries }
        ensures { option_map (λ e. e.name) (slice_get self.now.entries k) ≡ Some result.now }
    {
        match self.table.get_index(k) {
            Some((name, _)) => name,
            None => unreachable!(),
        }
    }

    /// The dimension of a name, and whether it is an input: none exactly where the name does not stand.
    pub fn entry(&self, name: &Name) -> Option<Entry>
        ensures { MatchOption result (stands self.now name.now ≡ false)
            (λ e. (stands self.now name.now ≡ true) × (e.dim ≡ dim_of self.now name.now)
            × (e.input ≡ is_input self.now name.now)) }
    {
        let Some(node) = self.table.get(name) else {
            return None;
        };
        Some(Entry {
            dim: node.dim,
            input: node.formula.is_none(),
        })
    }

    /// The formula of a name: none exactly where the name does not stand or is an input.
    pub fn formula(&self, name: &Name) -> Option<&Formula>
        ensures { option_map (λ f. f.now) result ≡ formula_of self.now name.now }
    {
        let Some(node) = self.table.get(name) else {
            return None;
        };
        node.formula.as_ref()
    }
}
