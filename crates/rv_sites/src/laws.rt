//! Laws of the two sections, as contracts of calls that do nothing.

ghost use Rattle.std.specs.Prelude.{◌≡◌, true};
ghost use Rattle.rv_sites.specs.Sections.{Listing, IsListing, sites_bytes, calls_bytes, is_sites_section, is_calls_section, listing};

/// The bytes of lists are sections.
pub fn written_lists_are_sections()
    ensures sites { (t : Listing) → IsListing t → is_sites_section (sites_bytes t) ≡ true }
    ensures calls { (t : Listing) → IsListing t → is_calls_section (calls_bytes t) ≡ true }
{}

/// The lists that are written are those that are read.
pub fn written_lists_are_read()
    ensures { (t : Listing) → IsListing t → listing (sites_bytes t) (calls_bytes t) ≡ t }
{}
