//! Laws of files, as contracts of calls that do nothing.

ghost use Rattle.std.specs.Prelude.{◌≡◌, ◌^◌, ◌<◌, List, ℕ, length, None};
ghost use Rattle.rv_sites.specs.declared.image.Image.{Image as ToWrite};
ghost use Rattle.elf_file.specs.Rules.{Image, Denotes, refused};
ghost use Rattle.elf_file.specs.Written.{CanWrite, file, image_of};

/// Bytes denote at most one image. So `read_elf` gives back what `write_elf` was given: what it sees is the
/// image that the bytes denote.
pub fn a_file_denotes_one_image()
    ensures { (bytes : List ℕ) (a b : Image) → Denotes bytes a → Denotes bytes b → a ≡ b }
{}

/// The file of an image meets all nine rules and denotes that image, however it was made.
pub fn the_file_of_an_image_denotes_it()
    ensures accepted { (i : ToWrite) → CanWrite i → length (file i) < 2 ^ 64 → refused (file i) ≡ None }
    ensures denotes { (i : ToWrite) → CanWrite i → length (file i) < 2 ^ 64 → Denotes (file i) (image_of i) }
{}
