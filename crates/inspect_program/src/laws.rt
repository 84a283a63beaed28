//! Laws of the definitions.
ghost use Rattle.inspect_program.specs.Inspection.{SoundBytesAreTold};

/// Bytes in which nothing is wrong that is looked at have a text.
pub fn sound_bytes_are_told()
    ensures { SoundBytesAreTold }
{}
