ghost use Rattle.std.specs.Prelude.{◌<◌};

/// The size of a type, where it is below 2 to 64, its alignment, and how deep it is, counted up to 201.
#[derive(Clone, Copy)]
pub(crate) struct Extent {
    pub(crate) size: Option<u64>,
    pub(crate) align: u64,
    pub(crate) depth: u8,
    ghost positive: { 0 < align },
}
