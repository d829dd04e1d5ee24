//! Files by name, whatever keeps them.

ghost use Rattle.std.specs.Prelude.{◌≡◌, ◌≤◌, ℕ, true, None, Some, vec_len, IfOk, OnOk, OnErr, IsErrOf};
ghost use Rattle.std.specs.declared.option.Option.{Option};
ghost use Rattle.std.specs.List.{list_all};
ghost use Rattle.evm_outside.specs.Shelves.{Files, file_max, is_plain_byte, is_file_name_byte, is_file_name, KeepsFiles, HasFile, PlacesFile, FetchFaults, FetchMisses, PlaceFaults};

use std::alloc::Global;

/// The longest file that is fetched, in bytes.
pub const FILE_MAX: usize = 268435456;

/// The longest file name, in bytes.
pub const FILE_NAME_MAX: usize = 64;

/// Whether a byte may begin a file name: A to Z, a to z, 0 to 9 or an underscore.
fn is_plain(b: u8) -> bool
    ensures { result ≡ is_plain_byte b }
{
    (b'A' <= b && b <= b'Z') || (b'a' <= b && b <= b'z') || (b'0' <= b && b <= b'9') || b == b'_'
}

/// Whether each byte may stand in a file name: such a byte, a dot or a dash.
fn each_may_stand(name: &[u8]) -> bool
    ensures { result ≡ list_all is_file_name_byte name.now }
{
    name.iter()
        .all(|b| is_plain(*b) || *b == b'.' || *b == b'-')
}

/// Whether these bytes are a file name: 1 to 64 letters, digits, underscores, dots or dashes, of which the first is no
/// dot and no dash. So a file name is never a path.
pub fn is_file_name(name: &[u8]) -> bool
    ensures { result ≡ is_file_name name.now }
{
    let first = name.first().copied().unwrap_or(0);
    let each = each_may_stand(name);
    (1 <= name.len()) & (name.len() <= FILE_NAME_MAX) & is_plain(first) & each
}

/// Why no file was fetched.
#[derive(Clone, Copy, Debug, PartialEq, Eq)]
pub enum FetchError {
    /// There is no file of that name, and the count of misses rose.
    Missing,
    /// The shelf failed in this call, or the file is longer than [`FILE_MAX`], and the count of faults rose.
    Failed,
    /// There was no memory for the bytes.
    NoMemory,
}

/// Why no file was placed.
#[derive(Clone, Copy, Debug, PartialEq, Eq)]
pub enum PlaceError {
    /// The shelf failed in this call, and the count of faults rose.
    Failed,
    /// There was no memory.
    NoMemory,
}

/// Files by name.
///
/// Both calls take a file name by the rule that [`is_file_name`] tests.
pub trait Shelf {
    /// The files, where they are known. Whether they are never changes.
    ghost files: { Self → Option Files };

    /// How many calls failed, up to the last value of a 64-bit counter.
    ghost faults: { Self → ℕ };

    /// How many calls found no file, up to the last value of a 64-bit counter.
    ghost misses: { Self → ℕ };

    /// The bytes of the file of this name, at most [`FILE_MAX`], in memory of their own.
    ///
    /// Known files stay as they are. [`FetchError::Missing`] comes only where there is no such file, and the count of
    /// misses rose; [`FetchError::Failed`] only where the count of faults rose, as for a file that is longer. Else the
    /// counts stay, but for want of memory, after which neither is lower.
    fn fetch(&mut self, alloc: Global, name: &[u8]) -> Result<Vec<u8>, FetchError>
        requires { is_file_name name.now ≡ true }
        ensures kept { KeepsFiles (files self.old) (files self.new) }
        ensures found { IfOk result
            (λ bytes. HasFile (files self.old) name.now (Some bytes.items)) }
        ensures limit { IfOk result (λ bytes. vec_len bytes ≤ file_max) }
        ensures missing { IsErrOf result FetchError.Missing
            → HasFile (files self.old) name.now None }
        ensures faults { FetchFaults result (faults self.old) (faults self.new) }
        ensures misses { FetchMisses result (misses self.old) (misses self.new) };

    /// Sets the file of this name to these bytes, and leaves each other file.
    ///
    /// After an error known files are as before. [`PlaceError::Failed`] comes only where the count of faults rose. Else
    /// that count stays, but for want of memory, after which it is not lower.
    fn place(&mut self, alloc: Global, name: &[u8], bytes: &[u8]) -> Result<(), PlaceError>
        requires { is_file_name name.now ≡ true }
        ensures placed { OnOk result (PlacesFile (files self.old) (files self.new) name.now bytes.now) }
        ensures err { OnErr result (KeepsFiles (files self.old) (files self.new)) }
        ensures faults { PlaceFaults result (faults self.old) (faults self.new) }
        ensures misses { misses self.new ≡ misses self.old };
}
