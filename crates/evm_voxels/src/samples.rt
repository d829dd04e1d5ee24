// Samples of an image, as bits of words.
ghost use Rattle.std.specs.Prelude.{◌≡◌, ℕ, ◌+◌, ◌*◌, ◌<◌, ◌≤◌, ◌^◌, ◌++◌, ◌&&◌, ◌||◌, nat_eq, nat_lt, nat_le, length, OnOk};
ghost use Rattle.evm_formats.specs.Images.{sample, bytes_of};
ghost use Rattle.evm_voxels.specs.Shots.{picture_of};
ghost use Rattle.evm_voxels.specs.Marks.{bit_on, HasMarks};

use crate::image::Image;
use std::alloc::AllocError;

// Whether a sample is at least the threshold.
#[tactic(auto, unfolding(evm_formats::specs::Images::sample))]
fn is_at_least(image: Image<'_>, threshold: u32, index: usize) -> bool
    requires { bytes_of image.wide (index + 1) ≤ length image.bytes.now }
    ensures { result ≡ nat_le threshold (sample (picture_of image.entry) index) }
{
    if image.wide {
        threshold <= 256 * image.bytes[2 * index] as u32 + image.bytes[2 * index + 1] as u32
    } else {
        threshold <= image.bytes[index] as u32
    }
}

// The word with bit k set too, if `on`.
fn with_bit(word: u32, k: u32, on: bool) -> u32
    requires { k < 32 }
    ensures { (i : ℕ) → i < 32 → bit_on i result ≡ (bit_on i word || (on && nat_eq i k)) }
{
    if on { word | (1u32 << k) } else { word }
}

// The word whose bit k says whether sample number first + k, of `count`, is at least the threshold.
fn mark_word(image: Image<'_>, threshold: u32, first: usize, count: usize) -> u32
    requires { bytes_of image.wide count ≤ length image.bytes.now }
    ensures { (i : ℕ) → i < 32 → first + i < count
        → bit_on i result ≡ nat_le threshold (sample (picture_of image.entry) (first + i)) }
{
    let mut word = 0u32;
    for k in 0..(count - first.min(count)).min(32) {
        word = with_bit(word, k as u32, is_at_least(image, threshold, first + k));
    }
    word
}

/// Appends words whose bit `i % 32` of word `i / 32` says whether sample number i, of `count`, is at least the threshold.
pub fn mark_image(
    marks: &mut Vec<u32>,
    image: Image<'_>,
    threshold: u32,
    count: usize,
) -> Result<(), AllocError>
    requires room { bytes_of image.wide count ≤ length image.bytes.now }
    requires small { count ≤ 2 ^ 60 }
    ensures { OnOk result (HasMarks marks.old.items marks.new.items count
        (λ i. nat_le threshold (sample (picture_of image.entry) i))) }
{
    for word in 0..count.div_ceil(32) {
        marks.push(mark_word(image, threshold, 32 * word, count))?;
    }
    Ok(())
}
