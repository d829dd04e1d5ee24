// Measures of views of dimension 2. A section is a list of ascending numbers, and a height costs what its couplet spans, beside
// the copy of a section.
ghost use Rattle.std.specs.Prelude.{◌≡◌, [], IfOk};
ghost use Rattle.evm_cells.specs.Vertices.{cells};
ghost use Rattle.evm_cells.specs.Measures.{content, boundary};
ghost use Rattle.evm_rows.specs.Rows.{AreRows, rows_of};
ghost use Rattle.evm_rows.specs.View.{vertices_of};

use evm_rows::{NoMemory, Rows};
use evm_sections::{Walk, changed};
use std::alloc::Global;
use std::mem;

/// Two lists that are done with, in whose room the sections of a plane are kept. What they hold does not matter.
#[derive(Drop)]
pub struct Rooms {
    line: Vec<i32>,
    spare: Vec<i32>,
}

impl Rooms {
    /// Rooms without memory. Takes none.
    pub fn new(alloc: Global) -> Rooms {
        Rooms {
            line: Vec::new(alloc),
            spare: Vec::new(alloc),
        }
    }

    // An empty list, in the first room.
    fn take_line(&mut self, alloc: Global) -> Vec<i32>
        ensures { result.items ≡ [] }
    {
        let mut line = mem::replace(&mut self.line, Vec::new(alloc));
        line.clear();
        line
    }

    // The list of the second room.
    fn take_spare(&mut self, alloc: Global) -> Vec<i32> {
        mem::replace(&mut self.spare, Vec::new(alloc))
    }
}

/// The two measures of a view.
#[derive(Clone, Copy)]
pub struct Measures {
    /// The content, in unit cells.
    pub content: u128,
    /// The boundary content, in faces of unit cells.
    pub boundary: u128,
}

// The boundary content of a line: the number of its ends.
#[inline(always)]
fn ends(line: &[i32]) -> u128
    requires { AreRows line.now 1 0 }
    ensures { result ≡ boundary 1 (cells 1 (rows_of line.now 1 0)) }
{
    line.len() as u128
}

// The measures of a view of dimension 2, as `measure_plane`.
#[inline(always)]
fn sweep_plane(alloc: Global, a: Rows<'_>, rooms: &mut Rooms) -> Result<Measures, NoMemory>
    requires { (vertices_of a).dim ≡ 2 }
    ensures content { IfOk result (λ m. m.content ≡ content (cells 2 (vertices_of a.entry).rows)) }
    ensures boundary { IfOk result
        (λ m. m.boundary ≡ boundary 2 (cells 2 (vertices_of a.entry).rows)) }
{
    let mut walk = Walk::of(a);
    let mut line = rooms.take_line(alloc);
    let mut spare = rooms.take_spare(alloc);
    let mut length = 0u64;
    let mut low = 0i32;
    let mut cells = 0u128;
    let mut faces = 0u128;
    while let Some((high, couplet)) = walk.next_couplet() {
        let tall = u128::from(high.abs_diff(low));
        let along = ends(&line);
        let next = changed(spare, &line, couplet)?;
        cells += u128::from(length) * tall;
        faces += along * tall + u128::from(next.across);
        length = length + next.across - 2 * next.shared;
        spare = line;
        line = next.line;
        low = high;
    }
    rooms.line = line;
    rooms.spare = spare;
    Ok(Measures {
        content: cells,
        boundary: faces,
    })
}

/// The measures of a view of dimension 2. Holds two of its sections, and takes memory where the rooms are too small for them.
/// The one error is want of memory.
pub fn measure_plane(alloc: Global, a: Rows<'_>, rooms: &mut Rooms) -> Result<Measures, NoMemory>
    requires { (vertices_of a).dim ≡ 2 }
    ensures content { IfOk result (λ m. m.content ≡ content (cells 2 (vertices_of a.entry).rows)) }
    ensures boundary { IfOk result
        (λ m. m.boundary ≡ boundary 2 (cells 2 (vertices_of a.entry).rows)) }
{
    if a.skip == 0 {
        return sweep_plane(alloc, a.of_width(2), rooms);
    }
    sweep_plane(alloc, a, rooms)
}
