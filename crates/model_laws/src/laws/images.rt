//! Laws of recovery and layouts.
#![tactic(auto)]

ghost use Rattle.std.specs.Prelude.{◌≡◌, ◌≢◌, ◌↔◌, ◌⊎◌, ℕ, ◌<◌, List, length, take, slice_index, slice_set, true};
ghost use Rattle.std.specs.Prelude.{false, Some, None};
ghost use Rattle.store_model.specs.declared.version.Version.{Version};
ghost use Rattle.store_model.specs.declared.version.Version.TheVariants.{Two};
ghost use Rattle.store_model.specs.Lists.{IsBytes, zeros};
ghost use Rattle.store_model.specs.Parameters.{Parameters, IsParameters, with_version, block_len, table_at, image_len};
ghost use Rattle.store_model.specs.Trees.{Tree, IsTree};
ghost use Rattle.store_model.specs.Pages.{Page, IsPage, Fits};
ghost use Rattle.store_model.specs.Images.{version_byte, version_at, header, slot_bytes, layout, bytes_at, is_flag_set};
ghost use Rattle.store_model.specs.Images.{is_marked, viewed_header, recovered_slot, recovered, scrubbed_slot};
ghost use Rattle.store_model.specs.Images.{scrubbed, Represents};
ghost use Rattle.model_laws.specs.Headers.{named_slots, header_of};

/// A header is a block of 4,096 bytes, and so is a slot, empty or with a page in it.
pub fn blocks_have_one_length()
    ensures header { (p : Parameters) → IsParameters p → length (header p) ≡ block_len }
    ensures empty_slot { length (slot_bytes None) ≡ block_len }
    ensures page { (page : Page) → IsPage page → length (slot_bytes (Some page)) ≡ block_len }
{}

/// The header of parameters in their range is made of bytes.
pub fn headers_are_bytes()
    ensures { (p : Parameters) → IsParameters p → IsBytes (header p) }
{}

/// The layout of a tree that fits has the length of an image with its parameters.
pub fn layout_has_the_image_length()
    ensures { (t : Tree) (p : Parameters) → IsParameters p → IsTree t → Fits t p →
        length (layout t p) ≡ image_len p.slots }
{}

/// Recovery leaves the layout of a tree that fits as it is, and the layout represents the tree. An image that
/// represents a tree still does so once recovered.
pub fn layout_is_its_own_recovery()
    ensures recovered { (t : Tree) (p : Parameters) → IsParameters p → IsTree t → Fits t p →
        recovered p.slots (layout t p) ≡ layout t p }
    ensures represents { (t : Tree) (p : Parameters) → IsParameters p → IsTree t → Fits t p →
        Represents (layout t p) t p }
    ensures represented { (image : List ℕ) (t : Tree) (p : Parameters) →
        Represents image t p → Represents (recovered p.slots image) t p }
{}

/// Recovery keeps the length of an image, and an image that is recovered stays as it is when it is recovered
/// again.
pub fn recovery_twice_is_recovery_once()
    ensures length { (slots : ℕ) (image : List ℕ) → length image ≡ image_len slots →
        length (recovered slots image) ≡ image_len slots }
    ensures same { (slots : ℕ) (image : List ℕ) → length image ≡ image_len slots →
        recovered slots (recovered slots image) ≡ recovered slots image }
{}

/// The headers under both versions differ in one byte. Where the commit flag and the mark behind those of the slots are
/// set, a header is read as that of version 2, whatever this byte is.
pub fn versions_differ_in_one_byte()
    ensures written { (p : Parameters) (version : Version) →
        slice_set (header p) version_at (version_byte version) ≡ header (with_version p version) }
    ensures read { (image : List ℕ) (p : Parameters) (byte : ℕ) → is_flag_set image ≡ true →
        is_marked image p.slots ≡ true
        → take block_len image ≡ slice_set (header p) version_at byte →
        viewed_header p.slots image ≡ header (with_version p Two) }
{}

/// A header is read as it stands where the commit flag is clear, and where the version's mark is.
pub fn headers_are_read_as_they_stand()
    ensures clear { (slots : ℕ) (image : List ℕ) → is_flag_set image ≡ false
        → viewed_header slots image ≡ take block_len image }
    ensures unmarked { (slots : ℕ) (image : List ℕ) → is_marked image slots ≡ false
        → viewed_header slots image ≡ take block_len image }
{}

/// A header has the byte of its version in byte 14, so 1 or 2.
pub fn headers_say_their_version()
    ensures byte { (p : Parameters) → slice_index (header p) version_at ≡ version_byte p.version }
    ensures known { (p : Parameters) → (version_byte p.version ≡ 1) ⊎ (version_byte p.version ≡ 2) }
{}

/// The header is read as the image alone says: by the slots that it names itself, where they are in range and the image
/// has their length.
pub fn headers_are_read_by_their_own_slots()
    ensures alike { (image : List ℕ) (p : Parameters) → IsParameters p
        → length image ≡ image_len p.slots
        → named_slots image ≡ p.slots →
        header_of image ≡ viewed_header p.slots image }
    ensures same { (image : List ℕ) (p : Parameters) → IsParameters p
        → length image ≡ image_len p.slots →
        (viewed_header p.slots image ≡ header p) ↔ (header_of image ≡ header p) }
{}

/// Recovery and scrubbing leave the header as it is read, and from then on it is read as it stands.
pub fn headers_stay_as_they_are_read()
    ensures recovered { (slots : ℕ) (image : List ℕ) → length image ≡ image_len slots →
        take block_len (recovered slots image) ≡ viewed_header slots image }
    ensures scrubbed { (slots : ℕ) (image : List ℕ) → length image ≡ image_len slots →
        take block_len (scrubbed slots image) ≡ viewed_header slots image }
    ensures read { (slots : ℕ) (image : List ℕ) → length image ≡ image_len slots →
        viewed_header slots (recovered slots image) ≡ viewed_header slots image }
{}

/// What recovery leaves in a slot stands at its place in the recovered image, and what scrubbing leaves in the
/// scrubbed one.
pub fn slots_stand_in_their_places()
    ensures recovered { (slots : ℕ) (image : List ℕ) (i : ℕ)
        → length image ≡ image_len slots → i < slots →
        bytes_at (recovered slots image) (table_at slots i) block_len
        ≡ recovered_slot slots image i }
    ensures scrubbed { (slots : ℕ) (image : List ℕ) (i : ℕ)
        → length image ≡ image_len slots → i < slots →
        bytes_at (scrubbed slots image) (table_at slots i) block_len ≡ scrubbed_slot slots image i }
{}

/// Scrubbing makes each slot whose byte 0 is 0 zero and keeps the others as recovery leaves them, and the length
/// of the image. It leaves a layout as it is, scrubbing twice is scrubbing once, and neither recovery before it nor
/// recovery after it changes what it leaves.
pub fn scrubbing_twice_is_scrubbing_once()
    ensures zero { (slots : ℕ) (image : List ℕ) (i : ℕ)
        → slice_index (recovered_slot slots image i) 0 ≡ 0 →
        scrubbed_slot slots image i ≡ zeros block_len }
    ensures kept { (slots : ℕ) (image : List ℕ) (i : ℕ)
        → slice_index (recovered_slot slots image i) 0 ≢ 0 →
        scrubbed_slot slots image i ≡ recovered_slot slots image i }
    ensures length { (slots : ℕ) (image : List ℕ) → length image ≡ image_len slots →
        length (scrubbed slots image) ≡ image_len slots }
    ensures layout { (t : Tree) (p : Parameters) → IsParameters p → IsTree t → Fits t p →
        scrubbed p.slots (layout t p) ≡ layout t p }
    ensures twice { (slots : ℕ) (image : List ℕ) → length image ≡ image_len slots →
        scrubbed slots (scrubbed slots image) ≡ scrubbed slots image }
    ensures of_recovered { (slots : ℕ) (image : List ℕ) → length image ≡ image_len slots →
        scrubbed slots (recovered slots image) ≡ scrubbed slots image }
    ensures recovered { (slots : ℕ) (image : List ℕ) → length image ≡ image_len slots →
        recovered slots (scrubbed slots image) ≡ scrubbed slots image }
{}
