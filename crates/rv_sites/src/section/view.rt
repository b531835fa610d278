//! The two sections as they stand in a file.

ghost use Rattle.std.specs.Prelude.{◌≡◌, true};
ghost use Rattle.rv_sites.specs.Sections.{is_sites_section as sites_fill, is_calls_section as calls_fill};

/// The lists of an executable, in the bytes of its sections.
#[derive(Clone, Copy)]
pub struct SitesView<'a> {
    /// The bytes of `.odin.sites`.
    pub sites: &'a [u8],
    /// The bytes of `.odin.calls`.
    pub calls: &'a [u8],
    pub ghost sites_hold: { sites_fill sites.now ≡ true },
    pub ghost calls_hold: { calls_fill calls.now ≡ true },
}
