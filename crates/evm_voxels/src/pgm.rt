// Stacks of PGM images.
ghost use Rattle.std.specs.Prelude.{◌≡◌, ℕ, List, ◌⊎◌, ◌+◌, ◌*◌, ◌<◌, ◌≤◌, ◌^◌, false, length, ◌∷◌, option_map, Option, Some, Ok, Err, IfOk, IfErr, IfSome};
ghost use Rattle.evm_cells.specs.Limits.{limit};
ghost use Rattle.evm_formats.specs.declared.voxels.VoxelError.TheVariants.{NoMemory};
ghost use Rattle.evm_formats.specs.Images.{Picture, bytes_of, map_ok};
ghost use Rattle.evm_voxels.specs.Shots.{fields_read, pair_of, shot_of as shown, IsStack, AreMarked};
ghost use Rattle.evm_formats.specs.Pgm.{Shot as ShotOf, is_magic, is_shape, are_numbers, in_range, shot, image_at, after_white, images_from, pgm_cells};

use crate::header::{Fields, first_byte, is_white, read_fields};
use crate::image::{Extent, Image, Shot, Size};
use crate::samples::mark_image;
use evm_formats::VoxelError;
use evm_rows::limit;
use std::alloc::Global;

// Whether the first two bytes are P5.
fn is_magic(bytes: &[u8]) -> bool
    ensures { result ≡ is_magic bytes.now }
{
    match bytes {
        [a, b, ..] => *a == b'P' && *b == b'5',
        _ => false,
    }
}

// Whether the numbers are not 0, and the maxval is at most 65535.
fn are_numbers(width: u32, height: u32, maxval: u32) -> bool
    ensures { result ≡ are_numbers width height maxval }
{
    (1 <= width && 1 <= height) && (1 <= maxval && maxval <= 65535)
}

// Whether width, height and the image's number are within the limit of the dimension.
#[tactic(auto, unfolding(evm_cells::specs::Limits::limit))]
fn in_range(dim: usize, number: usize, width: u32, height: u32) -> bool
    requires { (dim ≡ 2) ⊎ (dim ≡ 3) }
    ensures { result ≡ in_range dim number width height }
{
    let limit = limit(dim) as u32;
    (width <= limit && height <= limit) && number < limit as usize
}

// Whether an image of this size may come after images of the first one's.
fn is_shape(dim: usize, first: Option<Size>, size: Size) -> bool
    ensures { result ≡ is_shape dim (option_map pair_of first) size.width size.height }
{
    match first {
        Some(first) => dim == 3 && (first.width == size.width && first.height == size.height),
        None => true,
    }
}

// The number of bytes of samples.
fn sample_bytes(wide: bool, samples: usize) -> usize
    requires { samples ≤ 2 ^ 62 }
    ensures { result ≡ bytes_of wide samples }
{
    if wide { 2 * samples } else { samples }
}

// The image with these fields.
#[tactic(auto, unfolding(evm_formats::specs::Pgm::shot, evm_cells::specs::Limits::limit))]
fn shot_of<'a>(
    dim: usize,
    number: usize,
    first: Option<Size>,
    fields: Fields<'a>,
) -> Result<Shot<'a>, VoxelError>
    requires { (dim ≡ 2) ⊎ (dim ≡ 3) }
    ensures exact { map_ok shown result
        ≡ shot dim number (option_map pair_of first) (Some (fields_read fields.entry)) }
    ensures room { IfOk result
        (λ s. bytes_of s.image.wide (s.size.height * s.size.width) ≡ length s.image.bytes.now) }
    ensures width { IfOk result (λ s. s.size.width ≤ limit dim) }
    ensures height { IfOk result (λ s. s.size.height ≤ limit dim) }
    ensures number { IfOk result (λ s. number < limit dim) }
    ensures same { IfOk result (λ s. IfSome first (λ f. pair_of f ≡ pair_of s.size)) }
{
    if !are_numbers(fields.width, fields.height, fields.maxval) {
        return Err(VoxelError::Header);
    }
    if !in_range(dim, number, fields.width, fields.height) {
        return Err(VoxelError::Range);
    }
    let size = Size {
        width: fields.width as usize,
        height: fields.height as usize,
    };
    if !is_shape(dim, first, size) {
        return Err(VoxelError::Shape);
    }
    let wide = 256 <= fields.maxval;
    let used = sample_bytes(wide, size.height * size.width);
    if used <= fields.rest.len() {
        let (bytes, rest) = fields.rest.split_at(used);
        Ok(Shot {
            size,
            image: Image { bytes, wide },
            rest,
        })
    } else {
        Err(VoxelError::Short)
    }
}

/// Image number `number` of a stack whose first image, if there is one before, has this size; or the first refusal. Takes
/// no memory.
pub fn read_image(
    dim: usize,
    number: usize,
    first: Option<Size>,
    bytes: &[u8],
) -> Result<Shot<'_>, VoxelError>
    requires { (dim ≡ 2) ⊎ (dim ≡ 3) }
    ensures exact { map_ok shown result ≡ image_at dim number (option_map pair_of first) bytes.now }
    ensures room { IfOk result
        (λ s. bytes_of s.image.wide (s.size.height * s.size.width) ≡ length s.image.bytes.now) }
    ensures width { IfOk result (λ s. s.size.width ≤ limit dim) }
    ensures height { IfOk result (λ s. s.size.height ≤ limit dim) }
    ensures number { IfOk result (λ s. number < limit dim) }
    ensures same { IfOk result (λ s. IfSome first (λ f. pair_of f ≡ pair_of s.size)) }
{
    if !is_magic(bytes) {
        return Err(VoxelError::Magic);
    }
    let (_, after) = bytes.split_at(2);
    match read_fields(after) {
        Some(fields) => shot_of(dim, number, first, fields),
        None => Err(VoxelError::Header),
    }
}

// What follows the white space in front.
fn skip_white(bytes: &[u8]) -> &[u8]
    ensures { result.now ≡ after_white bytes.now }
{
    let mut rest = bytes;
    while let Some((b, later)) = first_byte(rest) {
        if !is_white(b) {
            return rest;
        }
        rest = later;
    }
    rest
}

/// The size and number of the images of a file, or the first refusal. Takes no memory.
pub fn measure(dim: usize, bytes: &[u8]) -> Result<Extent, VoxelError>
    requires { (dim ≡ 2) ⊎ (dim ≡ 3) }
    ensures stack { IfOk result (λ s. IsStack dim bytes.now s.size s.depth) }
    ensures refused { IfErr result
        (λ e. (threshold : ℕ) → pgm_cells dim threshold bytes.now ≡ Err e) }
    ensures width { IfOk result (λ s. s.size.width ≤ limit dim) }
    ensures height { IfOk result (λ s. s.size.height ≤ limit dim) }
    ensures depth { IfOk result (λ s. s.depth ≤ limit dim) }
    ensures room { IfOk result (λ s. s.depth * (s.size.height * s.size.width) ≤ length bytes.now) }
{
    let first = read_image(dim, 0, None, bytes)?;
    let mut depth = 1;
    let mut rest = skip_white(first.rest);
    while !rest.is_empty() {
        let shot = read_image(dim, depth, Some(first.size), rest)?;
        rest = skip_white(shot.rest);
        depth += 1;
    }
    Ok(Extent {
        size: first.size,
        depth,
    })
}

/// The marks of the images of a file, whose samples it reads once each; `depth` is their number. Memory for them is taken
/// once.
#[tactic(auto, unfolding(evm_cells::specs::Limits::limit))]
pub fn mark(
    alloc: Global,
    dim: usize,
    threshold: u32,
    depth: usize,
    bytes: &[u8],
) -> Result<Vec<u32>, VoxelError>
    requires dim { (dim ≡ 2) ⊎ (dim ≡ 3) }
    requires depth { depth ≤ limit dim }
    requires room { (s : ShotOf) → image_at dim 0 None bytes.now ≡ Ok s
        → depth * (s.height * s.width) < 2 ^ 63 }
    ensures marked { IfOk result (λ v. (s : ShotOf) (ps : List Picture) → image_at dim 0 None bytes.now ≡ Ok s → images_from dim s ≡ Ok ps
        → AreMarked v.items (s.height * s.width) (length ps) threshold ps) }
    ensures refused { IfErr result
        (λ e. (e ≡ NoMemory) ⊎ ((level : ℕ) → pgm_cells dim level bytes.now ≡ Err e)) }
{
    let first = read_image(dim, 0, None, bytes)?;
    let count = first.size.height * first.size.width;
    let mut marks = Vec::with_capacity(alloc, depth * count.div_ceil(32))?;
    mark_image(&mut marks, first.image, threshold, count)?;
    let mut number = 1;
    let mut rest = skip_white(first.rest);
    while !rest.is_empty() {
        let shot = read_image(dim, number, Some(first.size), rest)?;
        mark_image(&mut marks, shot.image, threshold, count)?;
        rest = skip_white(shot.rest);
        number += 1;
    }
    Ok(marks)
}
