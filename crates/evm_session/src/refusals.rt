//! Why a line is refused.

ghost use Rattle.std.specs.Prelude.{◌≡◌};
ghost use Rattle.evm_model.specs.Replies.{No, reply_text};
ghost use Rattle.evm_session.specs.Refusals.{code_of, of_line_error, of_scene_refusal, of_attach_error, of_fetch_error, of_place_error};
ghost use Rattle.evm_session.specs.Refusals.{of_file_error, of_box_file_error, of_voxel_error};
ghost use Rattle.evm_session.specs.declared.refusals.Refusal.TheVariants as refusals;

use evm_boxes::BoxFileError;
use evm_file::FileError;
use evm_outside::{FetchError, PlaceError};
use evm_rows::NoMemory;
use evm_scene as scene;
use evm_script::LineError;
use evm_voxels::VoxelError;

/// Why a line is refused, or that memory was missing.
#[derive(Clone, Copy, Debug, PartialEq, Eq, Drop)]
pub enum Refusal {
    /// The line is too long.
    Line,
    /// The line has none of the forms of a command.
    Syntax,
    /// The name does not stand.
    Name,
    /// There is no such slot, or its meter watches a name already or was given up; or a slot watches no name.
    Meter,
    /// The name of a new input stands already.
    Taken,
    /// A box edit of a formula, a file that is loaded into one, or a definition of an input.
    Kind,
    /// The name is an operand of a formula, or a meter watches it.
    Used,
    /// The formula would reach its own name through its operands.
    Cycle,
    /// Named solids have no such dimension, operands differ in it, there are not as many numbers as it asks for, or a form of
    /// files has no solids of it.
    Dim,
    /// A number is past the limits, or a box has no room on an axis.
    Range,
    /// There is no file of that name.
    Missing,
    /// The shelf of files failed.
    Shelf,
    /// The bytes of a file are none of its form, or state a solid of another dimension.
    Form,
    /// There was no memory.
    NoMemory,
}

impl From<NoMemory> for Refusal {
    ghost from_gives = { λ _ e. e ≡ refusals.NoMemory };

    fn from(_e: NoMemory) -> Refusal {
        Refusal::NoMemory
    }
}

impl From<scene::Refusal> for Refusal {
    ghost from_gives = { λ e r. r ≡ of_scene_refusal e };

    fn from(e: scene::Refusal) -> Refusal {
        match e {
            scene::Refusal::Name => Refusal::Name,
            scene::Refusal::Taken => Refusal::Taken,
            scene::Refusal::Kind => Refusal::Kind,
            scene::Refusal::Used => Refusal::Used,
            scene::Refusal::Cycle => Refusal::Cycle,
            scene::Refusal::Dim => Refusal::Dim,
            scene::Refusal::Range => Refusal::Range,
            scene::Refusal::NoMemory => Refusal::NoMemory,
        }
    }
}

impl From<scene::AttachError> for Refusal {
    ghost from_gives = { λ e r. r ≡ of_attach_error e };

    fn from(e: scene::AttachError) -> Refusal {
        match e {
            scene::AttachError::Name => Refusal::Name,
            scene::AttachError::Slot => Refusal::Meter,
            scene::AttachError::NoMemory => Refusal::NoMemory,
        }
    }
}

impl From<LineError> for Refusal {
    ghost from_gives = { λ e r. r ≡ of_line_error e };

    fn from(e: LineError) -> Refusal {
        match e {
            LineError::Long => Refusal::Line,
            LineError::Syntax => Refusal::Syntax,
            LineError::NoMemory => Refusal::NoMemory,
        }
    }
}

impl From<FetchError> for Refusal {
    ghost from_gives = { λ e r. r ≡ of_fetch_error e };

    fn from(e: FetchError) -> Refusal {
        match e {
            FetchError::Missing => Refusal::Missing,
            FetchError::Failed => Refusal::Shelf,
            FetchError::NoMemory => Refusal::NoMemory,
        }
    }
}

impl From<PlaceError> for Refusal {
    ghost from_gives = { λ e r. r ≡ of_place_error e };

    fn from(e: PlaceError) -> Refusal {
        match e {
            PlaceError::Failed => Refusal::Shelf,
            PlaceError::NoMemory => Refusal::NoMemory,
        }
    }
}

impl From<FileError> for Refusal {
    ghost from_gives = { λ e r. r ≡ of_file_error e };

    fn from(e: FileError) -> Refusal {
        match e {
            FileError::NoMemory => Refusal::NoMemory,
            _ => Refusal::Form,
        }
    }
}

impl From<BoxFileError> for Refusal {
    ghost from_gives = { λ e r. r ≡ of_box_file_error e };

    fn from(e: BoxFileError) -> Refusal {
        match e {
            BoxFileError::NoMemory => Refusal::NoMemory,
            _ => Refusal::Form,
        }
    }
}

impl From<VoxelError> for Refusal {
    ghost from_gives = { λ e r. r ≡ of_voxel_error e };

    fn from(e: VoxelError) -> Refusal {
        match e {
            VoxelError::NoMemory => Refusal::NoMemory,
            _ => Refusal::Form,
        }
    }
}

impl Refusal {
    /// The reply to a line that is refused.
    #[tactic(auto, unfolding(evm_model::specs::Replies::reply_text))]
    pub fn reply(self) -> &'static [u8]
        ensures { result.now ≡ reply_text (No (code_of self)) }
    {
        match self {
            Refusal::Line => b"no line\n",
            Refusal::Syntax => b"no syntax\n",
            Refusal::Name => b"no name\n",
            Refusal::Meter => b"no meter\n",
            Refusal::Taken => b"no taken\n",
            Refusal::Kind => b"no kind\n",
            Refusal::Used => b"no used\n",
            Refusal::Cycle => b"no cycle\n",
            Refusal::Dim => b"no dim\n",
            Refusal::Range => b"no range\n",
            Refusal::Missing => b"no missing\n",
            Refusal::Shelf => b"no shelf\n",
            Refusal::Form => b"no form\n",
            Refusal::NoMemory => b"no memory\n",
        }
    }
}
