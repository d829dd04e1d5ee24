// A grid of places, whose filled ones are marked by bits.
ghost use Rattle.std.specs.Prelude.{◌≡◌, ◌*◌, ◌<◌, ◌≤◌, ◌^◌, length};

/// The places (x, y, z) from 0 up to, but not at, three sizes. Bit i of word j of the marks is mark `32 j + i`. The mark of
/// (x, y, z) is `z pitch + y width + x`, and it is set where the place is filled.
#[derive(Clone, Copy)]
pub struct Grid<'a> {
    /// The marks.
    pub marks: &'a [u32],
    /// How many marks lie between the first places of two images.
    pub pitch: usize,
    /// The number of columns.
    pub width: usize,
    /// The number of rows.
    pub height: usize,
    /// The number of images.
    pub depth: usize,
    pub ghost narrow: { width ≤ 2 ^ 30 },
    pub ghost low: { height ≤ 2 ^ 30 },
    pub ghost flat: { depth ≤ 2 ^ 30 },
    pub ghost apart: { height * width ≤ pitch },
    pub ghost room: { depth * pitch ≤ 32 * length marks.now },
    pub ghost small: { depth * pitch < 2 ^ 64 },
}

impl Grid<'_> {
    ghost use Rattle.std.specs.Prelude.{◌≡◌, ℕ, pos, ◌+◌, ◌*◌, ◌<◌, ◌≤◌, ◌^◌, ◌-ℤ◌, ◌&&◌, nat_lt, [], ◌∷◌, length, slice_index};
    ghost use Rattle.evm_voxels.specs.Marks.{bit_on, is_marked};
    ghost use Rattle.evm_voxels.specs.Parity.{seam, edge};
    ghost use Rattle.evm_voxels.specs.Grids.{filled_in};

    /// Whether a place is filled; none past the sizes is.
    pub fn is_filled(&self, x: usize, y: usize, z: usize) -> bool
        ensures { result ≡ filled_in self.now (pos x ∷ pos y ∷ pos z ∷ []) }
    {
        if x < self.width && y < self.height && z < self.depth {
            let mark = z * self.pitch + (y * self.width + x);
            (self.marks[mark / 32] >> (mark % 32)) & 1 == 1
        } else {
            false
        }
    }

    // Whether the place in the column before is filled.
    fn is_filled_before(&self, x: usize, y: usize, z: usize) -> bool
        ensures { result ≡ filled_in self.now ((pos x -ℤ pos 1) ∷ pos y ∷ pos z ∷ []) }
    {
        x > 0 && self.is_filled(x - 1, y, z)
    }

    // Whether one of a place and the place in the column before is filled, and not both.
    fn differs(&self, x: usize, y: usize, z: usize) -> bool
        ensures { result ≡ seam (filled_in self.now) (pos x) (pos y ∷ pos z ∷ []) }
    {
        self.is_filled_before(x, y, z) ^ self.is_filled(x, y, z)
    }

    // The same in the row before.
    fn differs_before(&self, x: usize, y: usize, z: usize) -> bool
        ensures { result ≡ seam (filled_in self.now) (pos x) ((pos y -ℤ pos 1) ∷ pos z ∷ []) }
    {
        y > 0 && self.differs(x, y - 1, z)
    }

    /// Whether an odd number of the four places of image z round a point of it is filled.
    pub fn edge(&self, x: usize, y: usize, z: usize) -> bool
        ensures { result ≡ edge (filled_in self.now) (pos x) (pos y) (pos z ∷ []) }
    {
        self.differs_before(x, y, z) ^ self.differs(x, y, z)
    }

    // A word of the marks; 0 past the last.
    fn word(&self, number: usize) -> u64
        ensures word { result ≡ slice_index self.now.marks.now number }
        ensures small { result < 2 ^ 32 }
    {
        if number < self.marks.len() {
            u64::from(self.marks[number])
        } else {
            0
        }
    }

    // The marks from one on, as bits: mark `mark + k` is bit k, for each k below the count; the other bits are 0.
    fn marks_from(&self, mark: usize, count: usize) -> u64
        requires some { 0 < count }
        requires few { count ≤ 33 }
        requires room { mark + count ≤ 32 * length self.now.marks.now }
        ensures bits { (k : ℕ)
            → bit_on k result ≡ (nat_lt k count && is_marked self.now.marks.now (mark + k)) }
        ensures small { result < 2 ^ 33 }
    {
        let pair = self.word(mark / 32 + 1) * (1 << 32) + self.word(mark / 32);
        (pair >> (mark % 32)) % (1 << count)
    }

    // The row of 33 places from the column before `first` on, as bits.
    fn row(&self, first: usize, y: usize, z: usize) -> u64
        requires first { first ≤ self.now.width }
        requires some { 0 < self.now.width }
        requires row { y < self.now.height }
        requires image { z < self.now.depth }
        ensures bits { (k : ℕ) → k < 33
            → bit_on k result
            ≡ filled_in self.now ((pos (first + k) -ℤ pos 1) ∷ pos y ∷ pos z ∷ []) }
        ensures small { result < 2 ^ 34 }
    {
        let start = z * self.pitch + y * self.width;
        if first == 0 {
            2 * self.marks_from(start, self.width.min(32))
        } else {
            self.marks_from(start + first - 1, (self.width + 1 - first).min(33))
        }
    }

    /// A word whose bit k says whether the places in the columns first + k - 1 and first + k differ.
    pub fn seams(&self, first: usize, y: usize, z: usize) -> u32
        requires first { first ≤ self.now.width }
        requires some { 0 < self.now.width }
        ensures { (k : ℕ) → k < 32
            → bit_on k result ≡ seam (filled_in self.now) (pos (first + k)) (pos y ∷ pos z ∷ []) }
    {
        if y < self.height && z < self.depth {
            let row = self.row(first, y, z);
            ((row ^ (row >> 1)) % (1 << 32)) as u32
        } else {
            0
        }
    }
}
