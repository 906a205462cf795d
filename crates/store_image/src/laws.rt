//! Laws of the images of groups. Each is proved and does nothing.

ghost use Rattle.std.specs.Prelude.{◌≡◌, ℕ, Option};
ghost use Rattle.smo_ops_spec.specs.Past.{Past};
ghost use Rattle.version_groups.specs.Groups.{Kept};
ghost use Rattle.version_groups.specs.Representation.{Represents};
ghost use Rattle.store_image.specs.ImageIn.{image_in, GroupsHold, IsImageOf};

/// The image of groups that represent a past, with its last stamp, is valid, shows just this past,
/// and has as many bytes as the past's versions and sizes say.
pub fn an_image_shows_its_archive()
    ensures { (kept : Kept) (past : Past) (last : Option ℕ) → Represents kept past
        → last ≡ past.last → GroupsHold kept → IsImageOf past (image_in kept last) }
{}
