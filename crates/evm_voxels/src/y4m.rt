// Streams of Y4M frames.
ghost use Rattle.std.specs.Prelude.{◌≡◌, ℕ, List, ◌⊎◌, ◌+◌, ◌*◌, ◌<◌, ◌≤◌, ◌^◌, ◌++◌, ◌==◌, ◌&&◌, ◌||◌, length, drop, min, option_map, Option, Some, None, Ok, Err, false, true, MatchOption, IfOk, IfErr, nat_eq, codes, bytes_eq, ◌∷◌, []};
ghost use Rattle.std.specs.List.{starts_with};
ghost use Rattle.evm_cells.specs.Limits.{limit};
ghost use Rattle.evm_formats.specs.declared.voxels.VoxelError.TheVariants.{NoMemory};
ghost use Rattle.evm_formats.specs.Images.{Picture, map_ok};
ghost use Rattle.evm_voxels.specs.Numbers.{capped};
ghost use Rattle.evm_voxels.specs.Shots.{AreMarked};
ghost use Rattle.evm_formats.specs.Header.{begins};
ghost use Rattle.evm_voxels.specs.Streams.{stream_of, frame_of, Shows};
ghost use Rattle.evm_formats.specs.Y4m.{cut_at, value_of, values, number_of, only_number, is_quarter, sampling_of, half, chroma, sized, kind_of, sampled, headed, ends_word, is_stream, stream, after_frame, planes_of, planes_at, frame_at, frames_of};

use crate::header::{first_byte, number};
use crate::image::{Extent, Image, Size};
use crate::samples::mark_image;
use crate::stream::{Found, Frame, Stream};
use evm_formats::{Sampling, VoxelError};
use evm_rows::limit;
use std::alloc::Global;

// The bytes before the first `stop`, and those after it.
fn cut_at(bytes: &[u8], stop: u8) -> Option<(&[u8], &[u8])>
    ensures { option_map (λ r. (r.0.now, r.1.now)) result ≡ cut_at stop bytes.now }
{
    for (i, b) in bytes.iter().enumerate() {
        if *b == stop {
            let (front, from) = bytes.split_at(i);
            let (_, after) = from.split_at(1);
            return Some((front, after));
        }
    }
    None
}

// What was found, and one value more.
fn with_value<'a>(found: Found<'a>, value: &'a [u8]) -> Found<'a>
    ensures { (vs : List (List ℕ)) → Shows found.entry vs
        → Shows result (vs ++ value.entry.now ∷ []) }
{
    match found {
        Found::Never => Found::Once(value),
        Found::Once(_) => Found::Often,
        Found::Often => Found::Often,
    }
}

// What was found, and the value of one parameter more, if it has this letter.
fn with_parameter<'a>(found: Found<'a>, letter: u8, parameter: &'a [u8]) -> Found<'a>
    ensures { (vs : List (List ℕ)) → Shows found.entry vs
        → Shows result (vs ++ value_of letter parameter.entry.now) }
{
    match first_byte(parameter) {
        Some((b, value)) => {
            if b == letter {
                with_value(found, value)
            } else {
                found
            }
        }
        None => found,
    }
}

// The values of the parameters of this letter.
fn find(line: &[u8], letter: u8) -> Found<'_>
    ensures { Shows result (values letter line.now) }
{
    let mut found = Found::Never;
    let mut rest = line;
    while let Some((parameter, later)) = cut_at(rest, b' ') {
        found = with_parameter(found, letter, parameter);
        rest = later;
    }
    with_parameter(found, letter, rest)
}

// The number of a value, one past 32 bits as the greatest of 32 bits.
fn number_of(digits: &[u8]) -> Option<u32>
    ensures { result ≡ option_map capped (number_of digits.now) }
{
    if digits.is_empty() {
        return None;
    }
    let (value, after) = number(digits);
    if !after.is_empty() {
        return None;
    }
    if value == 0 {
        return None;
    }
    Some(value)
}

// The number of the only parameter of a letter.
fn only_number(found: Found<'_>) -> Option<u32>
    ensures { (vs : List (List ℕ)) → Shows found.entry vs
        → result ≡ option_map capped (only_number vs) }
{
    match found {
        Found::Once(digits) => number_of(digits),
        Found::Never => None,
        Found::Often => None,
    }
}

// Whether a value has these letters.
fn is(value: &[u8], letters: &str) -> bool
    ensures { result ≡ bytes_eq value.now letters.now }
{
    value == letters.as_bytes()
}

// Whether a value of C halves columns and rows.
fn is_quarter(kind: &[u8]) -> bool
    ensures { result ≡ is_quarter kind.now }
{
    is(kind, "420") || is(kind, "420jpeg") || is(kind, "420paldv") || is(kind, "420mpeg2")
}

// The sampling of a value of C.
#[tactic(auto, unfolding(evm_formats::specs::Y4m::sampling_of))]
fn sampling_of(kind: &[u8]) -> Option<Sampling>
    ensures { result ≡ sampling_of kind.now }
{
    if is_quarter(kind) {
        Some(Sampling::Quarter)
    } else if is(kind, "422") {
        Some(Sampling::Half)
    } else if is(kind, "444") {
        Some(Sampling::Full)
    } else if is(kind, "mono") {
        Some(Sampling::Mono)
    } else {
        None
    }
}

// Half of a number, rounded up.
fn half(n: usize) -> usize
    requires { n ≤ 2 ^ 30 }
    ensures same { result ≡ half n }
    ensures less { result ≤ 2 ^ 30 }
{
    (n + 1) / 2
}

// The number of bytes after the luma plane.
fn chroma(sampling: Sampling, width: usize, height: usize) -> usize
    requires width { width ≤ 2 ^ 30 }
    requires height { height ≤ 2 ^ 30 }
    ensures same { result ≡ chroma sampling width height }
    ensures small { result ≤ 2 ^ 62 }
{
    match sampling {
        Sampling::Quarter => 2 * (half(width) * half(height)),
        Sampling::Half => 2 * (half(width) * height),
        Sampling::Full => 2 * (width * height),
        Sampling::Mono => 0,
    }
}

// Kind and Range, and then the stream.
#[tactic(auto, unfolding(evm_formats::specs::Y4m::sized, evm_cells::specs::Limits::limit))]
fn sized<'a>(
    dim: usize,
    width: u32,
    height: u32,
    sampling: Option<Sampling>,
    rest: &'a [u8],
) -> Result<Stream<'a>, VoxelError>
    requires { (dim ≡ 2) ⊎ (dim ≡ 3) }
    ensures exact { map_ok stream_of result ≡ sized dim width height sampling rest.entry.now }
    ensures width { IfOk result (λ s. s.size.width ≤ limit dim) }
    ensures height { IfOk result (λ s. s.size.height ≤ limit dim) }
    ensures extra { IfOk result (λ s. s.extra ≤ 2 ^ 62) }
{
    let Some(sampling) = sampling else {
        return Err(VoxelError::Kind);
    };
    let limit = limit(dim) as u32;
    if width > limit || height > limit {
        return Err(VoxelError::Range);
    }
    let size = Size {
        width: width as usize,
        height: height as usize,
    };
    Ok(Stream {
        size,
        extra: chroma(sampling, size.width, size.height),
        rest,
    })
}

// The sampling of what was found of C; a refusal where it stands more than once.
fn kind_of(found: Found<'_>) -> Result<Option<Sampling>, VoxelError>
    ensures { (vs : List (List ℕ)) → Shows found.entry vs → result ≡ kind_of vs }
{
    match found {
        Found::Never => Ok(Some(Sampling::Quarter)),
        Found::Once(kind) => Ok(sampling_of(kind)),
        Found::Often => Err(VoxelError::Header),
    }
}

// What the parameters of the first line state.
fn headed<'a>(dim: usize, line: &[u8], rest: &'a [u8]) -> Result<Stream<'a>, VoxelError>
    requires { (dim ≡ 2) ⊎ (dim ≡ 3) }
    ensures exact { map_ok stream_of result
        ≡ sampled dim (only_number (values 87 line.now)) (only_number (values 72 line.now)) (kind_of (values 67 line.now)) rest.entry.now }
    ensures width { IfOk result (λ s. s.size.width ≤ limit dim) }
    ensures height { IfOk result (λ s. s.size.height ≤ limit dim) }
    ensures extra { IfOk result (λ s. s.extra ≤ 2 ^ 62) }
{
    let Some(width) = only_number(find(line, b'W')) else {
        return Err(VoxelError::Header);
    };
    let Some(height) = only_number(find(line, b'H')) else {
        return Err(VoxelError::Header);
    };
    match kind_of(find(line, b'C')) {
        Ok(sampling) => sized(dim, width, height, sampling, rest),
        Err(e) => Err(e),
    }
}

// Whether a parameter or the end of the line is next.
fn ends_word(bytes: &[u8]) -> bool
    ensures { result ≡ begins ends_word bytes.now }
{
    match first_byte(bytes) {
        Some((b, _)) => b == b' ' || b == b'\n',
        None => false,
    }
}

// What follows the magic of a stream.
fn after_magic(bytes: &[u8]) -> Option<&[u8]>
    ensures { MatchOption result (is_stream bytes.now ≡ false)
        (λ r. (is_stream bytes.now ≡ true) × (r.now ≡ drop 9 bytes.now)) }
{
    if !bytes.starts_with(b"YUV4MPEG2") {
        return None;
    }
    let (_, after) = bytes.split_at(9);
    if ends_word(after) { Some(after) } else { None }
}

/// What the first line of a stream states, or the first refusal. Takes no memory.
pub fn read_stream(dim: usize, bytes: &[u8]) -> Result<Stream<'_>, VoxelError>
    requires { (dim ≡ 2) ⊎ (dim ≡ 3) }
    ensures exact { map_ok stream_of result ≡ stream dim bytes.now }
    ensures width { IfOk result (λ s. s.size.width ≤ limit dim) }
    ensures height { IfOk result (λ s. s.size.height ≤ limit dim) }
    ensures extra { IfOk result (λ s. s.extra ≤ 2 ^ 62) }
{
    let Some(after) = after_magic(bytes) else {
        return Err(VoxelError::Magic);
    };
    match cut_at(after, b'\n') {
        Some((line, rest)) => headed(dim, line, rest),
        None => Err(VoxelError::Header),
    }
}

// What follows the first line feed.
fn after_line(bytes: &[u8]) -> Option<&[u8]>
    ensures { option_map (λ r. r.now) result ≡ option_map (λ r. r.1) (cut_at 10 bytes.now) }
{
    match cut_at(bytes, b'\n') {
        Some((_, rest)) => Some(rest),
        None => None,
    }
}

// What follows the rest of a frame's line.
fn after_frame(bytes: &[u8]) -> Option<&[u8]>
    ensures { option_map (λ r. r.now) result ≡ after_frame bytes.now }
{
    match first_byte(bytes) {
        Some((b, rest)) => {
            if b == b'\n' {
                Some(rest)
            } else if b == b' ' {
                after_line(rest)
            } else {
                None
            }
        }
        None => None,
    }
}

// What follows a frame's line.
fn planes_of(bytes: &[u8]) -> Option<&[u8]>
    ensures { option_map (λ r. r.now) result ≡ planes_of bytes.now }
{
    if !bytes.starts_with(b"FRAME") {
        return None;
    }
    let (_, after) = bytes.split_at(5);
    after_frame(after)
}

/// Frame number `number` of a stream whose frames have this size and this number of bytes after their luma, or the first
/// refusal. Takes no memory.
#[tactic(auto, unfolding(evm_formats::specs::Y4m::planes_at, evm_formats::specs::Y4m::frame_at, evm_cells::specs::Limits::limit))]
pub fn read_frame(
    dim: usize,
    number: usize,
    size: Size,
    extra: usize,
    bytes: &[u8],
) -> Result<Frame<'_>, VoxelError>
    requires dim { (dim ≡ 2) ⊎ (dim ≡ 3) }
    requires width { size.width ≤ limit dim }
    requires height { size.height ≤ limit dim }
    requires extra { extra ≤ 2 ^ 62 }
    ensures exact { map_ok frame_of result
        ≡ frame_at dim number size.width size.height extra bytes.now }
    ensures room { IfOk result (λ f. size.height * size.width ≡ length f.luma.bytes.now) }
    ensures narrow { IfOk result (λ f. f.luma.wide ≡ false) }
    ensures number { IfOk result (λ f. number < limit dim) }
    ensures small { IfOk result (λ f. number < 2 ^ 30) }
    ensures shorter { IfOk result (λ f. length f.rest.now < length bytes.now) }
{
    let Some(planes) = planes_of(bytes) else {
        return Err(VoxelError::Header);
    };
    if number >= limit(dim) as usize {
        return Err(VoxelError::Range);
    }
    if !(dim == 3 || number == 0) {
        return Err(VoxelError::Shape);
    }
    let luma = size.height * size.width;
    if luma + extra > planes.len() {
        return Err(VoxelError::Short);
    }
    let (samples, _) = planes.split_at(luma);
    let (_, rest) = planes.split_at(luma + extra);
    Ok(Frame {
        luma: Image {
            bytes: samples,
            wide: false,
        },
        rest,
    })
}

// Whether a frame is missing: dimension 2 has one.
fn is_missing(dim: usize, number: usize) -> bool
    ensures { result ≡ ((dim == 2) && (number == 0)) }
{
    dim == 2 && number == 0
}

/// The number of frames of a stream, or the first refusal. Takes no memory.
pub fn count_frames(dim: usize, of: Stream<'_>) -> Result<usize, VoxelError>
    requires dim { (dim ≡ 2) ⊎ (dim ≡ 3) }
    requires width { of.size.width ≤ limit dim }
    requires height { of.size.height ≤ limit dim }
    requires extra { of.extra ≤ 2 ^ 62 }
    ensures count { IfOk result
        (λ depth. (ps : List Picture) × (frames_of dim (stream_of of.entry) ≡ Ok ps)
        × (length ps ≡ depth)) }
    ensures refused { IfErr result (λ e. frames_of dim (stream_of of.entry) ≡ Err e) }
    ensures few { IfOk result (λ depth. depth ≤ limit dim) }
    ensures room { IfOk result
        (λ depth. depth * (of.entry.size.height * of.entry.size.width) ≤ length of.entry.rest.now) }
{
    let mut number = 0;
    let mut rest = of.rest;
    while !rest.is_empty() {
        let frame = read_frame(dim, number, of.size, of.extra, rest)?;
        rest = frame.rest;
        number += 1;
    }
    if is_missing(dim, number) {
        return Err(VoxelError::Shape);
    }
    Ok(number)
}

/// The marks of the frames of a stream, whose samples it reads once each; `depth` is their number. Memory for them is taken
/// once. It fails for want of memory, or as `count_frames` does.
#[tactic(auto, unfolding(evm_cells::specs::Limits::limit))]
pub fn mark_frames(
    alloc: Global,
    dim: usize,
    threshold: u32,
    depth: usize,
    of: Stream<'_>,
) -> Result<Vec<u32>, VoxelError>
    requires dim { (dim ≡ 2) ⊎ (dim ≡ 3) }
    requires depth { depth ≤ limit dim }
    requires room { depth * (of.size.height * of.size.width) < 2 ^ 63 }
    requires width { of.size.width ≤ limit dim }
    requires height { of.size.height ≤ limit dim }
    requires extra { of.extra ≤ 2 ^ 62 }
    ensures marked { IfOk result (λ v. (ps : List Picture) → frames_of dim (stream_of of.entry) ≡ Ok ps
        → AreMarked v.items (of.entry.size.height * of.entry.size.width) (length ps) threshold ps) }
    ensures refused { IfErr result
        (λ e. (e ≡ NoMemory) ⊎ (frames_of dim (stream_of of.entry) ≡ Err e)) }
{
    let count = of.size.height * of.size.width;
    let mut marks = Vec::with_capacity(alloc, depth * count.div_ceil(32))?;
    let mut number = 0;
    let mut rest = of.rest;
    while !rest.is_empty() {
        let frame = read_frame(dim, number, of.size, of.extra, rest)?;
        mark_image(&mut marks, frame.luma, threshold, count)?;
        rest = frame.rest;
        number += 1;
    }
    Ok(marks)
}
