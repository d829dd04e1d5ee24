//! What holds of each script, as statements alone.

ghost use Rattle.evm_generator.specs.Laws.{IsSoLong, HasRoom, IsWorkedOut};

/// The laws of the script: it has fourteen lines beside its edits; each edit's box has room along each axis and stands from 0 to 63;
/// and one edit of seed 0 is the stated line.
pub fn generated_scripts_are_as_stated()
    ensures count { IsSoLong }
    ensures room { HasRoom }
    ensures example { IsWorkedOut }
{}
