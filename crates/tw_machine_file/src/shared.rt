//! What a file says once for all its machines.
ghost use Rattle.std.specs.Prelude.{◌≤◌, ◌+◌};

/// How many bits all fields together have at most.
pub const MAX_BITS: u64 = 63;

/// A field of the values of a file: so many bits above those below it.
#[derive(Drop)]
pub struct FileField {
    pub name: String,
    /// How many bits are below it.
    pub low: u32,
    /// How many it has.
    pub bits: u32,
    ghost within: { low + bits ≤ 63 },
}

/// A constant of a file.
#[derive(Drop)]
pub struct FileConstant {
    pub name: String,
    pub number: i64,
}

/// What a file says once for all its machines.
#[derive(Drop)]
pub struct SharedNames {
    /// The lowest first.
    pub fields: Vec<FileField>,
    pub constants: Vec<FileConstant>,
}
