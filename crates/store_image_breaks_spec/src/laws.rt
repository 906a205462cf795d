//! Laws of bytes that are no image. Each is proved and does nothing.

ghost use Rattle.std.specs.Prelude.{◌≡◌, ◌<◌, ◌^◌, ℕ, List, length};
ghost use Rattle.command_codec_spec.specs.Reading.{Unexpected};
ghost use Rattle.store_image_spec.specs.Reader as spec;
ghost use Rattle.store_image_breaks_spec.specs.Breaks.{Breaks};

/// Where the reader of images stops the bytes break: some image has the items before the place, and
/// none has these and the one that begins there; or a lifeline of which nothing else is wrong shows
/// one row twice, and it is named. So many bytes are in no memory.
pub fn bytes_break_behind_the_items_of_an_image()
    ensures { (bytes rest : List ℕ) → length bytes < 2 ^ 64 → spec.image bytes ≡ Unexpected rest
        → Breaks bytes rest }
{}

/// Bytes break at one place.
pub fn bytes_break_at_one_place()
    ensures { (bytes rest other : List ℕ) → length bytes < 2 ^ 64 → Breaks bytes rest
        → Breaks bytes other → rest ≡ other }
{}
