//! Names of files, and the forms that files have.

ghost use Rattle.std.specs.Prelude.{◌≡◌, true, false, MatchOption};
ghost use Rattle.evm_outside.specs.Shelves.{is_file_name};

use super::numbers::Num;
use evm_outside::{FILE_NAME_MAX, is_file_name};
use evm_text::InlineBytes;
use std::marker::Model;

/// A name of a file: 1 to 64 bytes, a letter from A to Z or a to z, a digit or an underscore, then
/// these, dots or dashes; so never a path. It owns its bytes, in place, and takes no other memory.
#[derive(Clone, Copy, Debug, PartialEq, Eq)]
pub struct FileName {
    bytes: InlineBytes<FILE_NAME_MAX>,
}

impl Model for FileName {
    ghost use Rattle.std.specs.Prelude.{List, ℕ, IsTrue};
    ghost use Rattle.evm_outside.specs.Shelves.{is_file_name};

    ghost Value = { List ℕ };

    ghost view = { λ a. a.bytes };

    ghost invariant = { λ a. IsTrue (is_file_name a.bytes) };

    ghost inverse = { λ v. record { bytes = v } };
}

impl FileName {
    /// The file name with these bytes, or `None` exactly where they break the rule of file names.
    pub fn of(bytes: &[u8]) -> Option<FileName>
        ensures { MatchOption result (is_file_name bytes.now ≡ false)
            (λ name. (is_file_name bytes.now ≡ true) × (name ≡ bytes.now)) }
    {
        if !is_file_name(bytes) {
            return None;
        }
        match InlineBytes::of(bytes) {
            Some(bytes) => Some(FileName { bytes }),
            None => unreachable!(),
        }
    }

    /// The bytes, which keep the rule of file names.
    pub fn bytes(&self) -> &[u8]
        ensures value { result.now ≡ self.now }
        ensures rule { is_file_name self.now ≡ true }
    {
        self.bytes.bytes()
    }
}

/// What a file that is loaded holds.
///
/// A threshold is any number of a line: which of them samples can have is for the scene to say.
#[derive(Clone, Copy, Debug, PartialEq, Eq)]
pub enum LoadForm {
    /// `evm`: a solid, by its extreme vertices.
    Evm,
    /// `boxes`: a text with a box a line; the solid is their union.
    Boxes,
    /// `pgm T`: a stack of PGM images; the cells of the solid are those whose sample is at least
    /// the threshold.
    Pgm(Num),
    /// `y4m T`: a Y4M video; the cells of the solid are those whose sample is at least the
    /// threshold.
    Y4m(Num),
}

/// How a solid is saved.
#[derive(Clone, Copy, Debug, PartialEq, Eq)]
pub enum SaveForm {
    /// `evm`: by its extreme vertices, as `load NAME evm FILE` reads them.
    Evm,
    /// `boxes`: by the boxes of its stated partition, as `load NAME boxes FILE` reads them.
    Boxes,
    /// `faces`: by the boxes of its faces, axis by axis.
    Faces,
    /// `obj`: as a mesh of rectangles. That a solid has three dimensions is for the scene to say.
    Obj,
}
