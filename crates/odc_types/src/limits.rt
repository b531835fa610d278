ghost use Rattle.std.specs.Prelude.{◌≡◌, Option};
ghost use Rattle.odc_types.specs.Layout.{Layout};
ghost use Rattle.odc_types.specs.Clipped.{IsMeasured};
ghost use Rattle.odc_types.specs.Limits.{within_limits};

use crate::extent::Extent;

/// How many levels a type may have.
pub const DEEPEST: u8 = 200;

/// How many bytes a value may have: 1 MiB.
pub const LARGEST: u64 = 0x10_0000;

/// How a value lies in memory, in bytes.
#[derive(Clone, Copy, PartialEq, Eq)]
pub struct SizeAlign {
    pub size: u64,
    pub align: u64,
}

/// Why a type can't be used.
#[derive(Clone, Copy, PartialEq, Eq)]
pub enum LayoutError {
    /// The type has no size: it, or a part by value, lacks its parts, or it holds itself by value.
    NoSize,
    /// The type has more levels than a type may have.
    TooDeep,
    /// A value has more bytes than it may have, and fewer than 2 to 64.
    TooLarge { size: u64 },
    /// A value has 2 to 64 bytes or more.
    Overflow,
}

/// Size and alignment of a type with an extent, where it is within the limits.
pub(crate) fn limited(extent: Option<Extent>) -> Result<SizeAlign, LayoutError>
    ensures { (l : Option Layout) → IsMeasured extent l → result ≡ within_limits l }
{
    let Some(extent) = extent else {
        return Err(LayoutError::NoSize);
    };
    if extent.depth > DEEPEST {
        return Err(LayoutError::TooDeep);
    }
    let Some(size) = extent.size else {
        return Err(LayoutError::Overflow);
    };
    if size > LARGEST {
        return Err(LayoutError::TooLarge { size });
    }
    Ok(SizeAlign {
        size,
        align: extent.align,
    })
}
