//! A session: answers the lines of a script, one after another, over a shelf of files.
//!
//! A session holds a scene: names of solids of 2 to 6 dimensions, each an input or a formula over other names. `input` makes an
//! input without cells, `toggle`, `add` and `cut` change one by a box, `load` puts the cells that a file states in place of its
//! own, `def` makes or changes a formula, and `drop` takes a name out. `save` places the solid of a name as a file. `show`,
//! `section`, `project`, `faces`, `parts`, `report`, `content`, `boundary`, `at` and `point` ask about one name, and `list` about all.
//!
//! A session is handed meters, each in a slot of its own, counted from 0. `meter` lets the meter of a free slot watch a name, and from
//! then on `read` tells the measure of the name's solid as it is now; `unmeter` gives the meter up, and its slot is gone for good. A name
//! that is watched is not dropped.
//!
//! The contracts speak of a session as a scene of `evm_model`, whose `answer` says for each scene, files and line what the reply is and
//! what scene and files are after it: the vertices, measures, places, faces and parts there are those of sets of unit cells.
//!
//! The scene keeps the solid of each name, as a tree of tiles: cells are counted tile by tile, another question that looks at all of the
//! solid puts its rows together, one cell and a section of the first axis are looked for near them, and an edit of a name carries its
//! change through the names that read it, by formulas of formulas too, and through no other. All that can fail comes before a session or a file changes: the reply to an edit, a
//! change of a slot or a save has its room before the scene makes it or the shelf places the file. A line takes memory for its words,
//! for the file that it loads or saves, for the solids that its edit makes anew and what their meters look at, for the rows that its
//! question looks at and what it counts with, and for its reply: at most 12 bytes a coordinate of `show`, and about 250 bytes a name of
//! `list`.
#![tactic(auto)]

ghost use Rattle.std.specs.Prelude.{◌≡◌, map, IfOk};
ghost use Rattle.evm_model.specs.Scene.{start_with};
ghost use Rattle.evm_session.specs.Answers.{Answers, around};

use std::alloc::Global;
use std::marker::Model;
use std::sync::ledger::Ledger;

mod answers;
mod cells;
mod edits;
mod files;
mod lists;
mod named;
mod questions;
mod readers;
mod refusals;
mod replies;
mod reports;
mod sections;
mod slots;

use answers::answer;
use evm_meter::Meter;
use evm_outside::Shelf;
pub use evm_rows::NoMemory;
use evm_scene::Scene;
use evm_steps::Steps;

/// The names that the lines so far have made, with their solids. Contracts see a scene.
#[derive(Drop)]
pub struct Session<M: Meter> {
    scene: Scene<M>,
}

impl<M: Meter> Model for Session<M> {
    ghost use Rattle.evm_model.specs.Scene.{Scene};

    ghost Value = { Scene };

    ghost view = { λ s. s.scene };
}

impl<M: Meter> Session<M> {
    /// A session without names, and with a free slot for each of these meters, in their order. A reading that a meter comes with is not
    /// seen: nothing is read before its slot watches a name, and then the meter begins anew. The one error is want of memory, after
    /// which the meters are dropped.
    pub fn new(alloc: Global, meters: Vec<M>) -> Result<Session<M>, NoMemory>
        ensures { IfOk result (λ made. made ≡ start_with (map (λ m. M.kind m) meters.items)) }
    {
        Ok(Session {
            scene: Scene::new(alloc, meters)?,
        })
    }

    /// Appends the reply to a line, which is without its LF, to `out`, and answers whether the reply does not begin with `no`.
    /// A line may load a file of `shelf` or save one there.
    ///
    /// The reply, the session and told files afterwards are those of the model's `answer`. A line that is too long, is no command
    /// or is refused by its first cause has the reply `no CODE` and leaves session and files. `no shelf` comes only where the line
    /// asks the shelf and the shelf's count of faults rose, and `no missing` only where its count of misses rose; else the counts
    /// stay. The one error is want of memory: after it the session, told files and `out` are as before, and no count is lower.
    ///
    /// `steps` counts the combinations of two sections that the line takes for formulas: at most the model's work of the line, whatever
    /// is answered. A question takes none of these; a load takes those of the edit that puts the figure of its file there.
    pub fn answer<S: Shelf, L: Ledger>(
        &mut self,
        alloc: Global,
        line: &[u8],
        shelf: &mut S,
        out: &mut Vec<u8>,
        steps: &mut Steps<L>,
    ) -> Result<bool, NoMemory>
        ensures { Answers result line.now self.old self.new out.old.items out.new.items
            (around (S.files shelf.old) (S.faults shelf.old) (S.misses shelf.old) steps.old)
            (around (S.files shelf.new) (S.faults shelf.new) (S.misses shelf.new) steps.new) }
    {
        answer(&mut self.scene, steps, line, alloc, shelf, out)
    }
}

#[cfg(test)]
mod tests;
