//! Laws of the bytes of images. Each is proved and does nothing.

ghost use Rattle.std.specs.Prelude.{◌≡◌, ◌<◌, ◌++◌, ℕ, List, [], length};
ghost use Rattle.std.specs.FinMap.{get};
ghost use Rattle.relations_spec.specs.Sets.{In};
ghost use Rattle.relations_spec.specs.Spans.{forever};
ghost use Rattle.history_store_spec.specs.Store.{relation_at};
ghost use Rattle.smo_ops_spec.specs.Effects.{rows_under};
ghost use Rattle.smo_ops_spec.specs.ValidPast.{IsPast, last_or_nought};
ghost use Rattle.smo_ops_spec.specs.ValidValues.{PastHolds};
ghost use Rattle.smo_ops_spec.specs.Past.{version_at, database_at};
ghost use Rattle.command_codec_spec.specs.Reading.{Parsed, Unexpected};
ghost use Rattle.smo_ops_versions_spec.specs.Lifelines.{Covers};
ghost use Rattle.store_image_spec.specs.Images.{StoredLine, Image, IsImage, store_of};
ghost use Rattle.store_image_spec.specs.Encoding.{image_bytes};
ghost use Rattle.store_image_spec.specs.Reader as spec;
ghost use Rattle.store_image_spec.specs.ShownPast.{image_past};
ghost use Rattle.store_image_spec.specs.Lengths.{image_length};
ghost use Rattle.smo_ops_spec.specs.Past.{Past};

/// The reader of images reads each image from its bytes; and what it reads is an image, of just
/// these bytes.
pub fn an_image_is_what_is_read()
    ensures right { (bytes : List ℕ) (i : Image) (rest : List ℕ) → spec.image bytes ≡ Parsed i rest
        → IsImage i × (bytes ≡ image_bytes i) × (rest ≡ []) }
    ensures complete { (i : Image) → IsImage i → spec.image (image_bytes i) ≡ Parsed i [] }
{}

/// Bytes are an image, or break at a place: where the reader stops, what is left is an end of the
/// bytes, and no image has them. And no two images have the same bytes.
pub fn bytes_are_an_image_or_break()
    ensures place { (bytes rest : List ℕ) → spec.image bytes ≡ Unexpected rest → (prefix : List ℕ)
        × (bytes ≡ prefix ++ rest) }
    ensures none { (bytes rest : List ℕ) → spec.image bytes ≡ Unexpected rest → (i : Image)
        → IsImage i → bytes ≡ image_bytes i → ⊥ }
    ensures one { (i j : Image) → IsImage i → IsImage j → image_bytes i ≡ image_bytes j → i ≡ j }
{}

/// What an image shows is a past that accepted commands can have made, with valid values; and at
/// each moment the database has of each table of the version then in force what is kept over its
/// lifeline.
pub fn an_image_shows_a_past()
    ensures past { (n : ℕ) (i : Image) → IsImage i → IsPast (image_past n i) }
    ensures values { (n : ℕ) (i : Image) → IsImage i → PastHolds (image_past n i) }
    ensures tables { (n : ℕ) (i : Image) → IsImage i → (m : ℕ) → m < forever → (l : StoredLine)
        → In l i.lines → Covers l.line.first l.line.last (version_at (image_past n i) m)
        → rows_under (get (database_at (image_past n i) m) l.line.table)
        ≡ relation_at (store_of l) m }
{}

/// The past that an image shows tells how many bytes it has.
pub fn an_image_has_its_length()
    ensures { (n : ℕ) (i : Image) → IsImage i
        → length (image_bytes i) ≡ image_length (image_past n i) }
{}

/// A past is known by its versions, its last stamp, its counts and its database at each moment.
pub fn a_past_is_what_it_shows()
    ensures { (p q : Past) → IsPast p → IsPast q → last_or_nought p.last < forever
        → p.versions ≡ q.versions → p.last ≡ q.last → p.commands ≡ q.commands → p.sizes ≡ q.sizes
        → ((m : ℕ) → m < forever → database_at p m ≡ database_at q m) → p ≡ q }
{}
